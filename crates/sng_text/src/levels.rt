//! The levels of a text, one after another (MQTT 3.1.1, 4.7.1.1).
ghost use Rattle.std.specs.Prelude.{◌≡◌, ◌∷◌};
ghost use Rattle.sng_text.specs.Levels.{levels_of, levels_left};

/// The levels of a text that are left to give: the parts between its slashes, empty ones included.
#[derive(Clone, Copy, Debug)]
pub struct Levels<'a> {
    text: Option<&'a [u8]>,
}

impl<'a> Levels<'a> {
    ghost use Rattle.std.specs.Prelude.{◌≡◌};
    ghost use Rattle.sng_text.specs.Levels.{levels_of};
    ghost use Rattle.sng_text.specs.LevelsLeft.{levels_of_rest};

    /// All levels of the text.
    pub fn of(text: &'a [u8]) -> Levels<'a>
        ensures { levels_of_rest result ≡ levels_of text.now }
    {
        Levels { text: Some(text) }
    }
}

impl<'a> Iterator for Levels<'a> {
    ghost use Rattle.std.specs.Iterator.{YieldsFirstRef, item_count};
    ghost use Rattle.sng_text.specs.LevelsLeft.{levels_of_rest};

    type Item = &'a [u8];

    ghost next_gives = { YieldsFirstRef levels_of_rest };

    ghost remaining = { item_count levels_of_rest };

    fn next(&mut self) -> Option<&'a [u8]> {
        let (level, rest) = split_level(self.text?);
        self.text = rest;
        Some(level)
    }
}

/// The first level of a text, and what follows its slash, where it has one.
pub fn split_level(text: &[u8]) -> (&[u8], Option<&[u8]>)
    ensures { levels_of text.now ≡ result.0.now ∷ levels_left result.1 }
{
    for (at, byte) in text.iter().enumerate() {
        if *byte == b'/' {
            return (&text[..at], Some(&text[at + 1..]));
        }
    }
    (text, None)
}
