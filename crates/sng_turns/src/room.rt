//! Room for the list of those for whom a message of the broker is.
use sng_standing::Holder;
use std::alloc::Global;
use std::mem;

/// The longest list whose room is kept, in clients.
const MAX_KEPT_ROOM: usize = 1024;

/// The room of the list of one message, which the next one uses again: most go to as many clients. No contract
/// speaks of it.
#[derive(Drop)]
pub struct HoldersRoom {
    pub(crate) list: Vec<Holder>,
}

impl HoldersRoom {
    /// No room yet. Takes no memory.
    pub fn new(alloc: Global) -> HoldersRoom {
        HoldersRoom {
            list: Vec::new(alloc),
        }
    }

    /// The room that there is. None is left. Takes no memory.
    pub fn take(&mut self, alloc: Global) -> HoldersRoom {
        mem::replace(self, HoldersRoom::new(alloc))
    }

    /// Keeps this room, where it is not too much. Takes no memory.
    pub fn give_back(&mut self, room: HoldersRoom) {
        if room.list.capacity() <= MAX_KEPT_ROOM {
            *self = room;
        }
    }
}
