//! `sng serve`: the gateway between devices and a broker.

use crate::beats::SystemBeats;
use crate::beginning::FirstEnd;
use crate::closing::accounts_of;
use crate::courier::start_courier;
use crate::descriptors::{EMPTY, hold};
use crate::finishing::{Ran, Settled, finish};
use crate::hub::Hub;
use crate::keeping::{Keeper, keep};
use crate::link::BrokerLink;
use crate::opening::{
    Ears, FolderKeeper, NotBegun, ServingCrew, Shared, Watchers, crew_of, make_shared, open,
    open_book, open_reception, tell_open,
};
use crate::patient::StandardInput;
use crate::policies::OperatorPolicies;
use crate::preparing::{Prepared, prepare};
use crate::printing::{Printed, Shown, start_printer};
use crate::reception::{Reception, start_reception};
use crate::refusal::{report, report_start};
use crate::socket::Socket;
use crate::switch::Switch;
use crate::tray::Tray;
use sng_archive::Device;
use sng_crew::{Crew, Ended, NotStarted, Upstream, run_workers};
use sng_desk::{Beats, Datagrams, Desk, Filing, Gate, Piece, Policies, Volume};
use sng_operator::ask::{Ask, Words, ask_of, config_of};
use sng_operator::config::Config;
use sng_operator::ends::End;
use sng_operator::roles::Roles;
use sng_operator::verbosity::Verbosity;
use sng_script::Status;
use sng_signals::level::Level;
use sng_signals::tell::tell;
use sng_signals::writers::{ERRORS_PATIENCE_MS, wait_for};
use std::fs::File;
use std::net::{Net, UdpSocket};
use std::rt::{Clock, Files};
use std::sync::{Mutex, Wait};
use std::thread;
use std::thread::{JoinHandle, Scope, Threads};

/// What the workers left.
type Left<'a, R> = Ended<
    Socket<'a, R>,
    BrokerLink<'a, R>,
    SystemBeats<'a, R>,
    OperatorPolicies<'a, R, StandardInput<'a, R>>,
    Tray<'a, R>,
    Tray<'a, R>,
>;

/// Serves until `quit` or the end of standard input, or until the gateway cannot go on.
pub fn serve<
    R: Threads
        + Wait
        + Sync
        + Copy
        + Send
        + 'static
        + Net
        + Clock
        + Files<File = File>
        + Input
        + Print
        + Eprint
        + AllocGlobal,
>(rt: &R, words: &Words<'_>) -> End
where
    R::Reader: Send,
    R::File: Send,
    R::Dir: Send,
    R::Listener: Send,
    R::Stream: Send,
{
    match hold(rt) {
        Ok(_descriptors) => serve_apart(rt, words),
        Err(error) => {
            tell(
                rt,
                Level::Error,
                format_args!("cannot open {EMPTY}: {error}"),
            );
            End::from(Status::Failed)
        }
    }
}

/// Serves where no socket can get the number of a standard descriptor.
fn serve_apart<
    R: Threads
        + Wait
        + Sync
        + Copy
        + Send
        + 'static
        + Net
        + Clock
        + Files<File = File>
        + Input
        + Print
        + Eprint
        + AllocGlobal,
>(rt: &R, words: &Words<'_>) -> End
where
    R::Reader: Send,
    R::File: Send,
    R::Dir: Send,
    R::Listener: Send,
    R::Stream: Send,
{
    let config = match config_of(rt, words) {
        Ok(config) => config,
        Err(fault) => return End::from(report(rt, &fault)),
    };
    serve_asked(rt, words, &config)
}

/// Serves as the words and the configuration file say.
fn serve_asked<
    'f,
    'w,
    R: Threads
        + Wait
        + Sync
        + Copy
        + Send
        + 'static
        + Net
        + Clock
        + Files<File = File>
        + Input
        + Print
        + Eprint
        + AllocGlobal,
>(rt: &R, words: &Words<'w>, config: &'f Config<'w>) -> End
where
    'w: 'f,
    R::Reader: Send,
    R::File: Send,
    R::Dir: Send,
    R::Listener: Send,
    R::Stream: Send,
{
    let ask = match ask_of(rt, words, config) {
        Ok(ask) => ask,
        Err(fault) => return End::from(report(rt, &fault)),
    };
    match start(rt, ask) {
        Ok(end) => end,
        Err(why) => End::from(report_start(rt, &why)),
    }
}

/// Opens what is waited at, and serves by it.
fn start<
    R: Threads
        + Wait
        + Sync
        + Copy
        + Send
        + 'static
        + Net
        + Clock
        + Files<File = File>
        + Input
        + Print
        + Eprint
        + AllocGlobal,
>(rt: &R, mut ask: Ask) -> Result<End, NotBegun>
where
    R::Reader: Send,
    R::File: Send,
    R::Dir: Send,
    R::Listener: Send,
    R::Stream: Send,
{
    match keeper_of(rt, ask.book.take(), ask.workers) {
        Ok(keeper) => start_with(rt, ask, keeper),
        Err(why) => not_served(why, ask),
    }
}

/// The bookkeeper of the folder, where one is named, for so many workers at the socket.
fn keeper_of<R: Files<File = File> + AllocGlobal + Clone + Copy + Drop>(
    rt: &R,
    folder: Option<String>,
    workers: u16,
) -> Result<Option<FolderKeeper<R>>, NotBegun> {
    match folder {
        Some(folder) => Ok(Some(open_book(rt, folder.as_str(), workers)?)),
        None => Ok(None),
    }
}

/// Opens what is waited at, and serves by it, with this bookkeeper where there is one.
fn start_with<
    R: Threads
        + Wait
        + Sync
        + Copy
        + Send
        + 'static
        + Net
        + Clock
        + Files
        + Input
        + Print
        + Eprint
        + AllocGlobal,
    K: Device + Drop,
>(rt: &R, ask: Ask, keeper: Option<Keeper<K>>) -> Result<End, NotBegun>
where
    R::Reader: Send,
    R::File: Send,
    R::Dir: Send,
    R::Listener: Send,
    R::Stream: Send,
{
    match open_all(rt, &ask, keeper.is_some()) {
        Ok(opened) => serve_opened(rt, ask, keeper, opened),
        Err(why) => not_served(why, (ask, keeper)),
    }
}

/// What is waited at, and what all share.
#[derive(Drop)]
struct Opened {
    socket: UdpSocket,
    reception: Option<Reception>,
    shared: Shared,
}

fn open_all<R: Threads + Wait + Net + Clock + Print + Eprint + Copy + Send + AllocGlobal + 'static>(
    rt: &R,
    ask: &Ask,
    is_kept: bool,
) -> Result<Opened, NotBegun> {
    let socket = open(rt, ask.listen)?;
    let (reception, bell) = open_reception(rt, ask.metrics)?;
    let shared = make_shared(rt, ask, is_kept, bell)?;
    Ok(Opened {
        socket,
        reception,
        shared,
    })
}

/// Serves by what was opened.
fn serve_opened<
    R: Threads + Wait + Sync + Net + Clock + Files + Input + Print + Eprint + AllocGlobal,
    K: Device + Drop,
>(rt: &R, ask: Ask, keeper: Option<Keeper<K>>, opened: Opened) -> Result<End, NotBegun>
where
    R::Reader: Send,
    R::File: Send,
    R::Dir: Send,
    R::Listener: Send,
    R::Stream: Send,
{
    let Opened {
        socket,
        reception,
        shared,
    } = opened;
    let Shared {
        hub,
        ears,
        watchers,
    } = shared;
    if ask.is_verbose {
        hub.set_verbosity(Verbosity::On);
    }
    let followers = Followers {
        watchers,
        keeper,
        reception,
        courier: socket.try_clone().ok(),
    };
    let end = serve_by(rt, &hub, &socket, ears, followers, ask);
    if end.is_ok() {
        let _ = wait_for(rt, &hub.errors, ERRORS_PATIENCE_MS);
    }
    end
}

/// Nothing was begun. It knows nothing of what it drops, so that little is proved of it.
fn not_served<L: Drop>(why: NotBegun, _left: L) -> Result<End, NotBegun> {
    Err(why)
}

/// Who follows what the workers do.
#[derive(Drop)]
struct Followers<K: Device + Drop> {
    watchers: Watchers,
    keeper: Option<Keeper<K>>,
    reception: Option<Reception>,
    /// The socket by which the courier sends.
    courier: Option<UdpSocket>,
}

/// Serves by the socket. The clock is set and the policy of the start in force before a worker reads.
fn serve_by<
    R: Threads + Wait + Sync + Net + Clock + Files + Input + Print + Eprint + AllocGlobal,
    K: Device + Drop,
>(
    rt: &R,
    hub: &Hub,
    socket: &UdpSocket,
    ears: Ears,
    followers: Followers<K>,
    ask: Ask,
) -> Result<End, NotBegun>
where
    R::Reader: Send,
    R::File: Send,
    R::Dir: Send,
    R::Listener: Send,
    R::Stream: Send,
{
    match prepare(rt, hub, &ask) {
        Ok(prepared) => {
            tell_open(hub, socket);
            serve_prepared(rt, hub, socket, ears, followers, ask, prepared)
        }
        Err(why) => not_served(why, (ears, followers, ask)),
    }
}

/// Serves by the socket, where the desk is prepared.
fn serve_prepared<
    'a,
    R: Threads + Wait + Sync + Net + Clock + Files + Input + Print + Eprint + AllocGlobal,
    K: Device + Drop,
>(
    rt: &'a R,
    hub: &'a Hub,
    socket: &UdpSocket,
    ears: Ears,
    followers: Followers<K>,
    ask: Ask,
    prepared: Prepared<'a, R>,
) -> Result<End, NotBegun>
where
    R::Reader: Send,
    R::File: Send,
    R::Dir: Send,
    R::Listener: Send,
    R::Stream: Send,
{
    let (roles, prints_rows) = (Roles::new(ask.workers), ask.prints_rows);
    let Prepared {
        desk,
        shares,
        clock,
        first,
    } = prepared;
    if let Some(reception) = &followers.reception {
        reception.tell_open(hub);
    }
    match crew_of(rt, hub, ask, shares, socket, ears, clock) {
        Ok(crew) => {
            let desk = Mutex::new(desk);
            let ran = run_settled(rt, hub, &desk, crew, roles, followers, first);
            Ok(finish(rt, hub, roles, desk.into_inner(), ran, prints_rows))
        }
        Err(why) => not_served(why, (desk, followers, first)),
    }
}

/// Runs the workers at the socket, the broker, the clock and standard input. Here stands that each of them
/// may go to a thread of its own.
fn run_crew<
    'a,
    R: Threads + Wait + Sync + Net + Clock + Files + Input + Print + Eprint + AllocGlobal,
    K: Device + Drop,
>(
    rt: &'a R,
    hub: &'a Hub,
    desk: &Mutex<Desk>,
    crew: ServingCrew<'a, R>,
    gate: &Switch<'a, R>,
    followers: Followers<K>,
) -> Ran<Left<'a, R>, K>
where
    R::Reader: Send,
    R::File: Send,
    R::Dir: Send,
    R::Listener: Send,
    R::Stream: Send,
{
    run(rt, hub, desk, crew, gate, followers)
}

/// Runs the workers, and puts together what they left.
fn run_settled<
    'a,
    R: Threads + Wait + Sync + Net + Clock + Files + Input + Print + Eprint + AllocGlobal,
    K: Device + Drop,
>(
    rt: &'a R,
    hub: &'a Hub,
    desk: &Mutex<Desk>,
    crew: ServingCrew<'a, R>,
    roles: Roles,
    followers: Followers<K>,
    first: FirstEnd<Tray<'a, R>>,
) -> Ran<Settled, K>
where
    R::Reader: Send,
    R::File: Send,
    R::Dir: Send,
    R::Listener: Send,
    R::Stream: Send,
{
    let Ran {
        left,
        printed,
        keeper,
    } = run_crew(rt, hub, desk, crew, &Switch::new(rt, hub, roles), followers);
    Ran {
        left: match left {
            Ok(left) => Ok(settle(rt, left, first)),
            Err(NotStarted) => Err(NotStarted),
        },
        printed,
        keeper,
    }
}

/// Runs the workers, and follows what they do beside them.
/// It knows of the workers only that they may go to other threads, which is shown where it is called.
fn run<
    R: Threads + Wait + Clock + Sync + AllocGlobal,
    K: Device + Drop,
    D: Datagrams + Send,
    U: Upstream + Send,
    B: Beats + Send,
    P: Policies + Send,
    F: Filing<Piece> + Send,
    V: Filing<Volume> + Send,
    G: Gate + Sync,
>(
    rt: &R,
    hub: &Hub,
    desk: &Mutex<Desk>,
    crew: Crew<D, U, B, P, F, V>,
    gate: &G,
    followers: Followers<K>,
) -> Ran<Ended<D, U, B, P, F, V>, K> {
    let Crew {
        udp,
        upstream,
        ticker,
        policies,
    } = crew;
    let Followers {
        watchers: Watchers {
            printer,
            keeper: ear,
        },
        keeper,
        reception,
        courier,
    } = followers;
    thread::scope(thread::scope_env(), rt, |scope| {
        let Some(printer) = start_printer(scope, rt, desk, hub, printer) else {
            return Ran::refused(Printed::none());
        };
        start_courier(scope, rt, hub, courier);
        let crew = Crew {
            udp,
            upstream,
            ticker,
            policies,
        };
        let Some(workers) = start_workers(scope, rt, desk, hub, crew, gate) else {
            hub.end();
            hub.courier.end(rt);
            return Ran::refused(printer.join(rt));
        };
        let reception = start_reception(scope, rt, desk, hub, reception);
        let keeper = match keeper {
            Some(keeper) => Some(keep(rt, desk, hub, ear, keeper)),
            None => None,
        };
        let left = workers.join(rt);
        if let Some(reception) = reception {
            reception.join(rt);
        }
        Ran {
            left,
            printed: printer.join(rt),
            keeper,
        }
    })
}

/// Starts the thread that runs the workers and tells when they have ended, where one can be had.
fn start_workers<
    's,
    E,
    R: Threads + Wait + AllocGlobal + Sync + 's,
    M: Shown + Sync + 's,
    D: Datagrams + Send + 's,
    U: Upstream + Send + 's,
    B: Beats + Send + 's,
    P: Policies + Send + 's,
    F: Filing<Piece> + Send + 's,
    V: Filing<Volume> + Send + 's,
    G: Gate + Sync + 's,
>(
    scope: &Scope<'s, E>,
    rt: &'s R,
    desk: &'s M,
    hub: &'s Hub,
    crew: Crew<D, U, B, P, F, V>,
    gate: &'s G,
) -> Option<JoinHandle<Result<Ended<D, U, B, P, F, V>, NotStarted>>> {
    scope
        .spawn(move || {
            let left = run_workers(rt, rt.alloc(), desk.desk(), crew, gate);
            hub.courier.end(rt);
            hub.end();
            left
        })
        .ok()
}

/// Puts together what all workers left. The worker at the broker takes leave of it.
fn settle<R: Clock + Net + Wait + Files + Input + Print + Eprint + AllocGlobal>(
    rt: &R,
    mut left: Left<'_, R>,
    first: FirstEnd<Tray<'_, R>>,
) -> Settled {
    let lost_input = left.policies.source.has_lost_input();
    left.upstream.source.finish();
    Settled {
        accounts: accounts_of(rt.alloc(), left, first).ok(),
        lost_input,
    }
}
