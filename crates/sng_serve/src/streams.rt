//! Standard output and standard error, each with a board and a writer at it.

use crate::opening::NotBegun;
use sng_signals::bell::{Bell, Ear};
use sng_signals::board::Board;
use sng_signals::writers::{start_errors, start_output};
use std::alloc::{AllocError, Global};
use std::net::Net;
use std::rt::Clock;
use std::sync::{Arc, Wait};
use std::thread::Threads;

/// What waits for standard output, and for standard error.
#[derive(Drop)]
pub struct StandardBoards {
    pub output: Arc<Board, Global>,
    pub errors: Arc<Board, Global>,
}

/// The boards of standard output and standard error, at which their writers have begun. Lines on standard error
/// begin with the time where that is asked for.
pub fn boards<
    R: Threads + Wait + Net + Clock + Print + Eprint + Copy + Send + AllocGlobal + 'static,
>(rt: &R, tells_time: bool) -> Result<StandardBoards, NotBegun> {
    let (errors, errors_ear) = board(rt)?;
    start_errors(rt, Arc::try_clone(&errors)?, errors_ear, tells_time)?;
    let (output, output_ear) = board(rt)?;
    start_output(
        rt,
        Arc::try_clone(&output)?,
        Arc::try_clone(&errors)?,
        output_ear,
    )?;
    Ok(StandardBoards { output, errors })
}

/// A board, and the ear of whoever writes what is posted at it.
fn board<R: Net + AllocGlobal>(rt: &R) -> Result<(Arc<Board, Global>, Ear), NotBegun> {
    let alloc = rt.alloc();
    let (ear, bell) = Ear::new(rt, alloc)?;
    Ok((shared(alloc, bell)?, ear))
}

fn shared(alloc: Global, bell: Bell) -> Result<Arc<Board, Global>, AllocError> {
    Ok(Arc::new(alloc, Board::new(alloc, bell)?)?)
}
