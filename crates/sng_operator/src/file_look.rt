//! When a file that is looked at again and again is read: once it is another than the one that was read last,
//! and has been the same for a while, so that a text that is still being written is not taken.
ghost use Rattle.std.specs.Prelude.{◌≡◌, false, Some, None};
ghost use Rattle.sng_operator.specs.FileLooks.{is_due, is_taken, sighting_at};

/// For how long a file has to have been the same before it is read, in ms.
pub const SETTLED_MS: u64 = 1000;

/// A time of the file system, since 1970.
#[derive(Clone, Copy, Debug, PartialEq, Eq)]
pub struct FileTime {
    pub seconds: i64,
    pub nanoseconds: i64,
}

/// What tells one state of a file from another (POSIX, `<sys/stat.h>`).
#[derive(Clone, Copy, Debug, PartialEq, Eq)]
pub struct FileState {
    pub device: u64,
    pub inode: u64,
    /// In octets.
    pub size: u64,
    /// When its text was changed last, and when its name or owner.
    pub modified: FileTime,
    pub changed: FileTime,
}

/// In which state a file was seen last, and since when, in ms of any clock that never goes back.
#[derive(Clone, Copy, Debug, PartialEq, Eq)]
pub struct Sighting {
    pub state: FileState,
    pub since: u64,
}

/// What is known of a file.
#[derive(Clone, Copy, Debug, PartialEq, Eq)]
pub struct FileLook {
    /// In which state it was read last.
    pub taken: Option<FileState>,
    pub seen: Option<Sighting>,
}

impl FileLook {
    /// The file was read in this state, where that is known.
    pub fn new(taken: Option<FileState>) -> FileLook
        ensures { result ≡ record { taken = taken; seen = None } }
    {
        FileLook { taken, seen: None }
    }

    /// Whether the file, which is in this state at this time, is to be read: it is not as it was read last, and
    /// was seen as it is for long enough.
    pub fn sees(&mut self, state: FileState, now: u64) -> bool
        ensures taken { self.new.taken ≡ self.old.taken }
        ensures seen { self.new.seen ≡ Some (sighting_at self.old.seen state now) }
        ensures due { result ≡ is_due self.old.taken state (sighting_at self.old.seen state now).since now }
    {
        let seen = self.sighting_at(state, now);
        self.seen = Some(seen);
        !self.was_taken(state) && SETTLED_MS <= now.saturating_sub(seen.since)
    }

    /// The state in which it is seen now, and since when.
    fn sighting_at(&self, state: FileState, now: u64) -> Sighting
        ensures { result ≡ sighting_at self.now.seen state now }
    {
        match self.seen {
            Some(seen) => {
                if seen.state == state {
                    seen
                } else {
                    Sighting { state, since: now }
                }
            }
            None => Sighting { state, since: now },
        }
    }

    /// Whether it was read last in this state.
    fn was_taken(&self, state: FileState) -> bool
        ensures { result ≡ is_taken self.now.taken state }
    {
        match self.taken {
            Some(taken) => taken == state,
            None => false,
        }
    }

    /// The file was read in this state.
    pub fn take(&mut self, state: FileState)
        ensures { self.new ≡ record self.old { taken = Some state } }
    {
        self.taken = Some(state);
    }
}
