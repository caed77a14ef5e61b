//! How many lines of a kind are told in a second: those of a flood are counted.
ghost use Rattle.std.specs.Prelude.{◌≡◌, ◌+◌, ◌-◌, ◌<◌, ◌≤◌, false, true};

/// How long a second is, in ms.
const SECOND_MS: u64 = 1000;

/// What was told in a second.
#[derive(Clone, Copy, Debug, PartialEq, Eq)]
pub struct Pace {
    /// So many lines at most are told in a second.
    pub most: u64,
    /// When it began, in ms.
    pub begun: u64,
    pub told: u64,
    /// What was counted in place of that.
    pub counted: u64,
}

impl Pace {
    /// So many lines at most are told in a second, of which the first begins now.
    pub fn new(most: u64, now: u64) -> Pace
        ensures { result ≡ record { most = most; begun = now; told = 0; counted = 0 } }
    {
        Pace {
            most,
            begun: now,
            told: 0,
            counted: 0,
        }
    }

    /// Begins another second once one is over, and answers how many were counted in that one.
    pub fn turn(&mut self, now: u64) -> u64
        ensures going { now - self.old.begun < 1000 → (result ≡ 0) × (self.new ≡ self.old) }
        ensures over { 1000 ≤ now - self.old.begun → (result ≡ self.old.counted)
            × (self.new ≡ record { most = self.old.most; begun = now; told = 0; counted = 0 }) }
    {
        if now.saturating_sub(self.begun) < SECOND_MS {
            return 0;
        }
        let counted = self.counted;
        *self = Pace::new(self.most, now);
        counted
    }

    /// Whether one more is told. Otherwise it is counted, up to 2^64 - 1.
    pub fn takes(&mut self) -> bool
        ensures told { self.old.told < self.old.most →
            (result ≡ true) × (self.new ≡ record self.old { told = self.old.told + 1 }) }
        ensures counted { self.old.most ≤ self.old.told → self.old.counted < u64.MAX →
            (result ≡ false) × (self.new ≡ record self.old { counted = self.old.counted + 1 }) }
        ensures full { self.old.most ≤ self.old.told → self.old.counted ≡ u64.MAX →
            (result ≡ false) × (self.new ≡ self.old) }
    {
        if self.told < self.most {
            self.told += 1;
            return true;
        }
        self.counted = self.counted.saturating_add(1);
        false
    }
}
