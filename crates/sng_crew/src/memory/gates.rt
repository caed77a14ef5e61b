//! Gates that let all through.
ghost use Rattle.std.specs.Prelude.{false};

use sng_desk::{ActFault, Gate, Receipt, Volume, WorkerFault};

/// A gate that is always open. Pieces are handed off at the end of a worker alone.
#[derive(Debug, Drop)]
pub struct OpenGate;

impl Gate for OpenGate {
    ghost may_stop = { λ _. false };

    fn before(&self, _by: u16) -> bool {
        true
    }

    fn stops(&self) -> bool {
        false
    }

    fn hands_off(&self, _by: u16, _entries: usize) -> bool {
        false
    }

    fn after(&self, _by: u16, _receipt: &Receipt) {}

    fn cut(&self, _by: u16, _volume: &Volume) {}

    fn refused(&self, _by: u16, _fault: ActFault) {}

    fn short(&self, _by: u16) {}

    fn over(&self, _by: u16, _fault: Option<WorkerFault>) {}

    fn halt(&self) {}
}

/// A gate that is always open, where a piece is handed off once it has so many entries.
#[derive(Debug, Drop)]
pub struct FilingGate {
    pub entries: usize,
}

impl Gate for FilingGate {
    ghost may_stop = { λ _. false };

    fn before(&self, _by: u16) -> bool {
        true
    }

    fn stops(&self) -> bool {
        false
    }

    fn hands_off(&self, _by: u16, entries: usize) -> bool {
        self.entries <= entries
    }

    fn after(&self, _by: u16, _receipt: &Receipt) {}

    fn cut(&self, _by: u16, _volume: &Volume) {}

    fn refused(&self, _by: u16, _fault: ActFault) {}

    fn short(&self, _by: u16) {}

    fn over(&self, _by: u16, _fault: Option<WorkerFault>) {}

    fn halt(&self) {}
}
