//! The filters among the words of `sng cover ..`.
ghost use Rattle.std.specs.Prelude.{◌≡◌, drop, position};
ghost use Rattle.sng_command.specs.Words.{filters_of, is_escape};

use sng_text::Octets;

/// The filters among the words of `sng cover ..`, as they came: all but the first two, and but the first `--`
/// among those, after which a word that begins with a dash is a filter too.
pub fn filters_among(mut words: Vec<Octets>) -> Vec<Octets>
    ensures { result.items ≡ filters_of words.items }
{
    drop_first(&mut words);
    drop_first(&mut words);
    if let Some(at) = place_of_escape(words.as_slice()) {
        let _escape = words.remove(at);
    }
    words
}

/// Drops the first word, where there is one.
fn drop_first(words: &mut Vec<Octets>)
    ensures { words.new.items ≡ drop 1 words.old.items }
{
    if !words.is_empty() {
        let _first = words.remove(0);
    }
}

/// The place of the first `--`, where there is one.
fn place_of_escape(words: &[Octets]) -> Option<usize>
    ensures { result ≡ position is_escape words.now }
{
    words.iter().position(|word| is_escape(word.as_slice()))
}

fn is_escape(word: &[u8]) -> bool
    ensures { result ≡ is_escape word.now }
{
    word == b"--".as_slice()
}
