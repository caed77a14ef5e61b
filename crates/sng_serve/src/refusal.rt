//! Why nothing is served, as whoever started it is told.

use crate::opening::NotBegun;
use sng_operator::ask::Fault;
use sng_script::Status;
use sng_script::ending::ended;
use sng_signals::level::Level;
use sng_signals::tell::tell;
use std::io;
use std::io::Write;

/// Tells why nothing was started. Of a refused policy all is printed that `sng policy` prints.
pub fn report<R: Print + Eprint + AllocGlobal>(rt: &R, fault: &Fault<'_>) -> Status {
    let printed = match fault {
        Fault::Memory => {
            let printed = rt.println("out of memory");
            return ended(Status::OutOfMemory, printed.is_ok());
        }
        Fault::Policy(_, _, report) => io::writer(rt).write_all(report.lines.as_slice()),
        Fault::Config(_, _)
        | Fault::Missing(_)
        | Fault::Address(_)
        | Fault::Id(_)
        | Fault::RowsOfBook
        | Fault::File(_, _) => Ok(()),
    };
    tell(rt, Level::Error, format_args!("{fault}"));
    ended(Status::Unreadable, printed.is_ok())
}

/// Tells why no worker was started.
pub fn report_start<R: Print + Eprint + AllocGlobal>(rt: &R, why: &NotBegun) -> Status {
    match why {
        NotBegun::Book(why) => {
            tell(rt, Level::Error, why.as_str());
            ended(Status::Unreadable, true)
        }
        NotBegun::Listening(address, error) => {
            tell(
                rt,
                Level::Error,
                format_args!("--listen {address}: cannot be opened: {error}"),
            );
            ended(Status::Unreadable, true)
        }
        NotBegun::Metrics(address, error) => {
            tell(
                rt,
                Level::Error,
                format_args!("--metrics: cannot open {address}: {error}"),
            );
            ended(Status::Unreadable, true)
        }
        NotBegun::System(error) => {
            tell(rt, Level::Error, format_args!("cannot start: {error}"));
            ended(Status::Unreadable, true)
        }
        NotBegun::Memory => report(rt, &Fault::Memory),
    }
}
