//! `status`: the desk is held while it is counted, and the lines are posted when it is free again.
ghost use Rattle.std.specs.Prelude.{◌≡◌, ◌+◌, length};
ghost use Rattle.sng_core.specs.Census.{census_of};

use crate::hub::Hub;
use sng_desk::Desk;
use sng_operator::status::{Overview, push_status};
use sng_signals::level::Level;
use std::sync::{Mutex, Wait};

/// Prints how the gateway stands, or tells that it cannot.
pub fn show_status<R: Wait + AllocGlobal>(rt: &R, hub: &Hub, desk: &Mutex<Desk>) {
    let overview = overview_of(&desk.lock(rt));
    let mut text = Vec::new(rt.alloc());
    if push_status(&mut text, &overview).is_ok() {
        hub.print(text);
    } else {
        hub.tell(Level::Warning, "no status: allocation failed");
    }
}

/// How the gateway stands now. It takes no memory, and one walk over the clients.
pub fn overview_of(desk: &Desk) -> Overview
    ensures census { result.census ≡ census_of desk.now.state }
    ensures rows { result.rows ≡ desk.now.before + length desk.now.rows }
    ensures limit { result.limit ≡ desk.now.limit }
{
    Overview {
        census: desk.census(),
        rows: desk.rows_made(),
        limit: desk.limit(),
    }
}
