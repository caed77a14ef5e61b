//! The file of the policy while the gateway serves. It is read again when an operator asks for it, and where it
//! is watched by itself: once it has changed, and has been the same for a second.

use crate::hub::Hub;
use crate::patient::InputWatch;
use sng_operator::file_look::{FileLook, FileState};
use sng_operator::policy_file::{file_text, state_of};
use sng_signals::level::Level;
use std::io::{Error, ErrorKind};
use std::rt::{Clock, Files};
use std::time::Duration;
use std::{io, thread};

/// How long it is between two looks at the file, in ms.
const LOOK_MS: u64 = 500;

/// How long one wait is where nothing more is read from standard input, in ms.
const WAIT_MS: u64 = 250;

/// The file of the policy.
#[derive(Drop)]
pub struct PolicySource {
    path: String,
    look: FileLook,
    /// When it is looked at again.
    next_look: Duration,
    /// It was not found when it was looked at, and that was told.
    is_lost: bool,
    /// What waits for standard input between two looks. Where there is none it is not looked at.
    watch: Option<InputWatch>,
}

impl PolicySource {
    /// The file of this path, which was read in this state. It is watched where there is something to wait by.
    pub fn new(path: String, state: Option<FileState>, watch: Option<InputWatch>) -> PolicySource {
        PolicySource {
            path,
            look: FileLook::new(state),
            next_look: Duration::from_secs(0),
            is_lost: false,
            watch,
        }
    }

    /// Whether it is watched.
    pub fn is_watched(&self) -> bool {
        self.watch.is_some()
    }

    /// Its text, as an operator asked for it. Where it cannot be read, that is told.
    pub fn read<R: Files + AllocGlobal>(&mut self, rt: &R, hub: &Hub) -> Option<Vec<u8>> {
        let state = state_of(rt, self.path.as_str()).ok();
        let text = file_text(rt, self.path.as_str());
        if let Some(state) = state {
            self.look.take(state);
        }
        self.told(hub, text)
    }

    /// Its text, once it has changed and settled. Where it changes while it is read, it is read later.
    pub fn read_changed<R: Files + AllocGlobal>(&mut self, rt: &R, hub: &Hub) -> Option<Vec<u8>> {
        let state = state_of(rt, self.path.as_str()).ok()?;
        let text = file_text(rt, self.path.as_str());
        if state_of(rt, self.path.as_str()).ok()? != state || has_no_memory(&text) {
            return None;
        }
        self.look.take(state);
        self.told(hub, text)
    }

    /// The text. Where it could not be read, that is told.
    fn told(&self, hub: &Hub, text: io::Result<Vec<u8>>) -> Option<Vec<u8>> {
        match text {
            Ok(text) => Some(text),
            Err(error) => {
                hub.tell(
                    Level::Error,
                    format_args!("cannot read {}: {error}", self.path),
                );
                None
            }
        }
    }

    /// Looks at the file, where it is watched and it is time. Whether it is to be read.
    pub fn has_changed<R: Files + Clock>(&mut self, rt: &R, hub: &Hub) -> bool {
        let now = rt.monotonic().unwrap_or(Duration::from_secs(0));
        if self.watch.is_none() || now < self.next_look {
            return false;
        }
        self.next_look = now.saturating_add(Duration::from_millis(LOOK_MS));
        match state_of(rt, self.path.as_str()) {
            Ok(state) => {
                self.is_lost = false;
                self.look.sees(state, milliseconds(now))
            }
            Err(error) => {
                self.lose(hub, &error);
                false
            }
        }
    }

    /// Tells, once, that it is not found.
    fn lose(&mut self, hub: &Hub, error: &Error) {
        if !self.is_lost {
            hub.tell(
                Level::Warning,
                format_args!("{}: {error}: the policy in force stays", self.path),
            );
        }
        self.is_lost = true;
    }

    /// Waits until standard input may be read, unless that is over, or the gateway stops; and meanwhile looks
    /// at the file. Whether that is to be read.
    pub fn awaits_change<R: Files + Clock>(&mut self, rt: &R, hub: &Hub, is_over: bool) -> bool {
        for _ in 0..u64::MAX {
            if self.has_changed(rt, hub) {
                return true;
            }
            if hub.stops() {
                return false;
            }
            if is_over {
                thread::sleep(rt, Duration::from_millis(WAIT_MS));
            } else if self.is_ready() {
                return false;
            }
        }
        false
    }

    /// Waits a while for standard input, where the file is watched. Whether that may be read.
    fn is_ready(&mut self) -> bool {
        match &mut self.watch {
            Some(watch) => watch.is_ready(),
            None => true,
        }
    }
}

/// Whether there was no memory for the text.
fn has_no_memory(text: &io::Result<Vec<u8>>) -> bool {
    match text {
        Ok(_) => false,
        Err(error) => error.kind() == ErrorKind::OutOfMemory,
    }
}

/// The time in ms.
fn milliseconds(time: Duration) -> u64 {
    u64::try_from(time.as_millis()).unwrap_or(u64::MAX)
}
