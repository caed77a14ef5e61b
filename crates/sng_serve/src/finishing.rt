//! What comes of a run once its workers have ended: what they left is held against the book, and is told.

use crate::book_end::{BookEnd, end_book};
use crate::closing::Accounts;
use crate::hub::Hub;
use crate::keeping::Keeper;
use crate::printing::Printed;
use crate::refusal::report;
use crate::rows::print_all;
use sng_archive::Device;
use sng_crew::NotStarted;
use sng_desk::Desk;
use sng_ledger::Closed;
use sng_operator::ask::Fault;
use sng_operator::ends::{End, Halt};
use sng_operator::roles::Roles;
use sng_script::Status;
use sng_script::ending::ended;
use sng_signals::level::Level;
use sng_signals::writers::{OUTPUT_PATIENCE_MS, wait_for};
use std::alloc::{AllocError, Global};
use std::rt::Clock;
use std::sync::Wait;

/// What a run came to.
#[derive(Drop)]
pub struct Ran<L, K: Device + Drop> {
    pub left: Result<L, NotStarted>,
    pub printed: Printed,
    /// The bookkeeper behind its last turn, where there was one.
    pub keeper: Option<Keeper<K>>,
}

impl<L, K: Device + Drop> Ran<L, K> {
    /// A thread was refused.
    pub fn refused(printed: Printed) -> Ran<L, K> {
        Ran {
            left: Err(NotStarted),
            printed,
            keeper: None,
        }
    }
}

/// What all workers left, put together.
#[derive(Drop)]
pub struct Settled {
    /// None where an allocation failed.
    pub accounts: Option<Accounts>,
    /// Standard input could not be read.
    pub lost_input: bool,
}

/// Holds what the workers left against the book, and prints what comes of it. Where standard input could not
/// be read, nothing is printed.
pub fn finish<R: Clock + Wait + Print + Eprint + AllocGlobal, K: Device + Drop>(
    rt: &R,
    hub: &Hub,
    roles: Roles,
    desk: Desk,
    ran: Ran<Settled, K>,
    prints_rows: bool,
) -> End {
    let Ran {
        left,
        printed,
        keeper,
    } = ran;
    let closing = Closing {
        roles,
        printed,
        prints_rows,
    };
    let end = match left {
        Ok(settled) => finish_settled(rt, hub, desk, settled, keeper, closing),
        Err(NotStarted) => finish_refused(rt, hub, desk, keeper, printed),
    };
    match (end, hub.halt()) {
        (End::Command(Status::Done), Some(why)) => End::Halted(why),
        (end, _) => end,
    }
}

// What a run leaves is dropped by the functions of its ends: where it is dropped in one place, little is proved.

/// What the end of a run goes by, beside what was left.
#[derive(Clone, Copy)]
struct Closing {
    roles: Roles,
    printed: Printed,
    prints_rows: bool,
}

/// The end of a run whose workers have all ended.
fn finish_settled<R: Clock + Wait + Print + Eprint + AllocGlobal, K: Device + Drop>(
    rt: &R,
    hub: &Hub,
    desk: Desk,
    settled: Settled,
    keeper: Option<Keeper<K>>,
    closing: Closing,
) -> End {
    let Settled {
        accounts,
        lost_input,
    } = settled;
    match accounts {
        Some(accounts) => finish_accounts(rt, hub, desk, accounts, keeper, closing, lost_input),
        None => finish_forgotten(rt, desk, keeper),
    }
}

/// The same, where there was memory for all that they left.
fn finish_accounts<R: Clock + Wait + Print + Eprint + AllocGlobal, K: Device + Drop>(
    rt: &R,
    hub: &Hub,
    desk: Desk,
    accounts: Accounts,
    keeper: Option<Keeper<K>>,
    closing: Closing,
    lost_input: bool,
) -> End {
    let Closing {
        roles,
        printed,
        prints_rows,
    } = closing;
    match keeper {
        Some(keeper) => {
            let end = end_book(rt, hub, roles, keeper, desk, accounts);
            finish_book(rt, hub, end, printed, lost_input)
        }
        None if lost_input => finish_unread(desk, accounts),
        None => finish_rows(rt, hub, accounts, desk, printed, prints_rows),
    }
}

/// The end of a run whose threads were not all to be had.
fn finish_refused<R: Clock + AllocGlobal, K: Device + Drop>(
    rt: &R,
    hub: &Hub,
    _desk: Desk,
    _keeper: Option<Keeper<K>>,
    printed: Printed,
) -> End {
    hub.tell(
        Level::Error,
        "a thread was refused: a limit of processes, or memory",
    );
    End::from(tell_closed(rt, hub, None, printed))
}

/// The end of a run whose workers left more than there was memory for.
fn finish_forgotten<R: Print + Eprint + AllocGlobal, K: Device + Drop>(
    rt: &R,
    _desk: Desk,
    _keeper: Option<Keeper<K>>,
) -> End {
    End::from(report(rt, &Fault::Memory))
}

/// The end of a run whose rows are in memory, where standard input could not be read.
fn finish_unread(_desk: Desk, _accounts: Accounts) -> End {
    End::from(Status::Failed)
}

/// The end of a run whose rows are in memory: they are printed where they were asked for.
fn finish_rows<R: Clock + Wait + Print + Eprint + AllocGlobal>(
    rt: &R,
    hub: &Hub,
    accounts: Accounts,
    desk: Desk,
    printed: Printed,
    prints_rows: bool,
) -> End {
    let closed: Option<Closed> = match accounts.close(rt.alloc(), desk) {
        Ok(closed) => closed,
        Err(AllocError) => return End::from(report(rt, &Fault::Memory)),
    };
    let printed = match &closed {
        Some(closed) if prints_rows => printed.and_left(print_all(rt, hub, closed)),
        _ => printed,
    };
    let rows = match &closed {
        Some(closed) => Some(closed.desk.rows_made()),
        None => None,
    };
    End::from(tell_closed(rt, hub, rows, printed))
}

/// The end of a run whose book is on disk. Its rows have left, so none is printed.
fn finish_book<R: Clock + AllocGlobal>(
    rt: &R,
    hub: &Hub,
    end: BookEnd,
    printed: Printed,
    lost_input: bool,
) -> End {
    if lost_input {
        return End::from(Status::Failed);
    }
    let BookEnd {
        closed,
        left,
        is_wrong,
    } = end;
    if left > 0 {
        hub.tell(Level::Error, format_args!("{left} rows are not on disk"));
    }
    let status = tell_closed(rt, hub, closed, printed);
    if is_wrong {
        End::Halted(Halt::WrongBook)
    } else if left > 0 {
        End::from(Status::Failed)
    } else {
        End::from(status)
    }
}

/// Prints how many rows were closed, or that they were not, and waits until all is printed, as far as that
/// takes no longer than there is patience for.
fn tell_closed<R: Clock + AllocGlobal>(
    rt: &R,
    hub: &Hub,
    rows: Option<u64>,
    printed: Printed,
) -> Status {
    let status = match rows {
        Some(_) => Status::Done,
        None => Status::Unreadable,
    };
    let Ok(line) = closing_line(rt.alloc(), rows) else {
        return ended(Status::OutOfMemory, false);
    };
    hub.print(line.into_bytes());
    let patience = if printed.is_stuck {
        0
    } else {
        OUTPUT_PATIENCE_MS
    };
    let is_written = wait_for(rt, &hub.output, patience);
    let left = printed.left.saturating_add(hub.output.rows());
    if left > 0 {
        hub.tell(Level::Warning, format_args!("{left} rows were not printed"));
    }
    ended(
        status,
        is_written && left == 0 && hub.output.lost.take() == 0,
    )
}

/// The last line.
fn closing_line(alloc: Global, rows: Option<u64>) -> Result<String, AllocError> {
    match rows {
        Some(count) => format!(in alloc; "closed {count} rows\n"),
        None => format!(in alloc; "not closed\n"),
    }
}
