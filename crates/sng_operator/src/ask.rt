//! What `sng serve` is asked for, read in the order in which its faults are told.
ghost use Rattle.std.specs.Prelude.{◌≡◌, IfOk};
ghost use Rattle.sng_operator.specs.Readings.{gateway_connect};

use crate::config::{Config, ConfigFault, Given};
use crate::policy_file::PolicyFile;
use mqtt_frames::encode_connect;
use sng_book::Address;
use sng_bounds::FloodLimits;
use sng_config::{Name, NumberName, SwitchName, TextName};
use sng_history::PING_MS;
use sng_questions::report::{Report, report_of};
use sng_scope::{PolicyFault, read_policy};
use sng_script::sender::address_of;
use sng_text::{ClientId, MAX_CLIENT_ID, TextFault, WireBytes};
use std::alloc::{AllocError, Global};
use std::fmt;
use std::fmt::{Display, Formatter, Write};
use std::io::Error;
use std::net::{Ipv4Addr, SocketAddr, SocketAddrV4};
use std::rt::Files;

/// More bytes than this no client id has: a character has four at most (RFC 3629).
const MAX_ID_BYTES: usize = 4 * MAX_CLIENT_ID;

/// The keep alive of the connection to the broker, in seconds (MQTT 3.1.1, 3.1.2.10): twice the time after
/// which a PINGREQ is due, so that one that was lost is noticed in time.
const KEEP_ALIVE: u16 = (2 * PING_MS / 1000) as u16;

/// How many tries to connect may fail, one after another, where nothing else is asked for.
const USUAL_TRIES: u32 = 5;

/// How many datagrams of strangers may be denied in a second, where nothing else is asked for.
const USUAL_FLOOD: FloodLimits = FloodLimits {
    each: 50,
    all: 1000,
};

/// The words of the command line, of which each may be left out.
#[derive(Clone, Copy, Debug, PartialEq, Eq)]
pub struct Words<'a> {
    /// The configuration file, which says what the words leave out.
    pub config: Option<&'a str>,
    /// Where devices are listened to, as IP:PORT.
    pub listen: Option<&'a str>,
    /// Where the broker is, as IP:PORT.
    pub broker: Option<&'a str>,
    /// By which id the gateway is known to the broker.
    pub id: Option<&'a str>,
    /// How many workers share the socket of the devices.
    pub workers: Option<u32>,
    /// How many tries to connect may fail, one after another; 0 is no end.
    pub tries: Option<u32>,
    /// How many datagrams of a stranger that made nothing but denials are acted on in a second.
    pub flood_each: Option<u32>,
    /// How many of all strangers together.
    pub flood_all: Option<u32>,
    /// The file of the policy.
    pub policy: Option<&'a str>,
    /// That file is not looked at while the gateway serves.
    pub is_unwatched: bool,
    /// The folder where the book is kept on disk.
    pub book: Option<&'a str>,
    /// Where figures are asked for, as IP:PORT.
    pub metrics: Option<&'a str>,
    /// Rows are printed as they are made.
    pub is_verbose: bool,
    /// All rows are printed as the gateway stops.
    pub prints_rows: bool,
    /// Lines on standard error begin with the time.
    pub tells_time: bool,
}

/// What the words and the configuration file ask for.
#[derive(Drop)]
pub struct Ask {
    pub listen: SocketAddr,
    pub broker: SocketAddr,
    /// The first packet of a connection to the broker.
    pub greeting: WireBytes,
    pub workers: u16,
    pub tries: u32,
    pub flood: FloodLimits,
    /// The file of the policy, where there is one.
    pub policy: Option<PolicyFile>,
    /// That file is looked at while the gateway serves.
    pub is_watched: bool,
    /// The folder where the book is kept on disk, where it is.
    pub book: Option<String>,
    /// Where figures are asked for, where they are served.
    pub metrics: Option<SocketAddr>,
    pub is_verbose: bool,
    pub prints_rows: bool,
    pub tells_time: bool,
}

/// Why nothing is started.
#[derive(Drop)]
pub enum Fault<'a> {
    /// The configuration file sets nothing.
    Config(&'a str, ConfigFault),
    /// Neither the command line nor the configuration file has it.
    Missing(Name),
    /// The word is no IPv4 address with a port.
    Address(Given<'a>),
    /// The word is no client id.
    Id(Given<'a>),
    /// The file of the policy cannot be read.
    File(Given<'a>, Error),
    /// The policy of the file is refused.
    Policy(Given<'a>, PolicyFault, Report),
    /// All rows are to be printed at the end, and the book is kept on disk: they are not in memory then.
    RowsOfBook,
    Memory,
}

impl<'a> Display for Fault<'a> {
    fn fmt<W: Write>(&self, f: &mut Formatter<W>) -> fmt::Result {
        match self {
            Fault::Config(path, ConfigFault::File(error)) => {
                write!(f, "--config {path}: cannot be read: {error}")
            }
            Fault::Config(path, ConfigFault::Refused(fault)) => write!(f, "{path}, {fault}"),
            Fault::Missing(name) => {
                write!(
                    f,
                    "--{name} is missing: neither the command line nor the configuration file has it"
                )
            }
            Fault::Address(given) => {
                write!(
                    f,
                    "{given}: not an IPv4 address with a port, as 0.0.0.0:1884"
                )
            }
            Fault::Id(given) => {
                write!(
                    f,
                    "{given}: not a client id of 1 to {MAX_CLIENT_ID} characters"
                )
            }
            Fault::File(given, error) => write!(f, "{given}: cannot be read: {error}"),
            Fault::Policy(given, fault, _) => {
                let name = fault.name();
                write!(f, "{given}: refused: {name}")
            }
            Fault::RowsOfBook => {
                f.write_str("--rows cannot stand beside --book: its rows are on disk at the end")
            }
            Fault::Memory => f.write_str("out of memory"),
        }
    }
}

impl<'a> From<AllocError> for Fault<'a> {
    fn from(_: AllocError) -> Fault<'a> {
        Fault::Memory
    }
}

/// The configuration file that the words name, where they name one.
pub fn config_of<'a, R: Files + AllocGlobal>(
    rt: &R,
    words: &Words<'a>,
) -> Result<Config<'a>, Fault<'a>> {
    match words.config {
        Some(path) => match Config::read(rt, path) {
            Ok(config) => Ok(config),
            Err(ConfigFault::Refused(sng_config::Fault::Memory)) => Err(Fault::Memory),
            Err(fault) => Err(Fault::Config(path, fault)),
        },
        None => Ok(Config::none(rt.alloc())),
    }
}

/// Reads the words, and what the file says in place of those that are left out. The first that is not there
/// or not valid is the fault.
pub fn ask_of<'a, R: Files + AllocGlobal>(
    rt: &R,
    words: &Words<'a>,
    config: &'a Config<'a>,
) -> Result<Ask, Fault<'a>> {
    let listen = address_in(needed(config, TextName::Listen, words.listen)?)?;
    let broker = address_in(needed(config, TextName::Broker, words.broker)?)?;
    let greeting = greeting_in(rt.alloc(), needed(config, TextName::Id, words.id)?)?;
    let workers = workers_in(words, config)?;
    let policy = match config.text(TextName::Policy, words.policy) {
        Some(given) => Some(policy_in(rt, given)?),
        None => None,
    };
    let book = book_in(rt.alloc(), words, config)?;
    let metrics = metrics_in(words, config)?;
    Ok(Ask {
        listen,
        broker,
        greeting,
        workers,
        tries: tries_in(words, config),
        flood: flood_in(words, config),
        policy,
        is_watched: !config.switch(SwitchName::NoWatch, words.is_unwatched),
        book,
        metrics,
        is_verbose: config.switch(SwitchName::Verbose, words.is_verbose),
        prints_rows: config.switch(SwitchName::Rows, words.prints_rows),
        tells_time: config.switch(SwitchName::LogTime, words.tells_time),
    })
}

/// The text under a name that has to be there.
fn needed<'a>(
    config: &'a Config<'a>,
    name: TextName,
    word: Option<&'a str>,
) -> Result<Given<'a>, Fault<'a>> {
    config
        .text(name, word)
        .ok_or(Fault::Missing(Name::Text(name)))
}

/// The folder where the book is kept on disk, where there is one. No rows can be printed at the end then.
fn book_in<'a>(
    alloc: Global,
    words: &Words<'a>,
    config: &'a Config<'a>,
) -> Result<Option<String>, Fault<'a>> {
    let Some(given) = config.text(TextName::Book, words.book) else {
        return Ok(None);
    };
    if config.switch(SwitchName::Rows, words.prints_rows) {
        return Err(Fault::RowsOfBook);
    }
    Ok(Some(String::from_str(alloc, given.word)?))
}

/// Where figures are asked for, where they are served.
fn metrics_in<'a>(
    words: &Words<'a>,
    config: &'a Config<'a>,
) -> Result<Option<SocketAddr>, Fault<'a>> {
    match config.text(TextName::Metrics, words.metrics) {
        Some(given) => Ok(Some(address_in(given)?)),
        None => Ok(None),
    }
}

/// How many workers share the socket.
fn workers_in<'a>(words: &Words<'a>, config: &Config<'a>) -> Result<u16, Fault<'a>> {
    let workers = config.number(NumberName::Workers, words.workers);
    workers
        .and_then(|workers| u16::try_from(workers).ok())
        .ok_or(Fault::Missing(Name::Number(NumberName::Workers)))
}

/// How many tries may fail in a row: 0 is no end.
fn tries_in(words: &Words<'_>, config: &Config<'_>) -> u32 {
    match config
        .number(NumberName::Tries, words.tries)
        .unwrap_or(USUAL_TRIES)
    {
        0 => u32::MAX,
        tries => tries,
    }
}

/// What is passed over in a flood.
fn flood_in(words: &Words<'_>, config: &Config<'_>) -> FloodLimits {
    FloodLimits {
        each: config
            .number(NumberName::FloodEach, words.flood_each)
            .unwrap_or(USUAL_FLOOD.each),
        all: config
            .number(NumberName::FloodAll, words.flood_all)
            .unwrap_or(USUAL_FLOOD.all),
    }
}

/// The address that the word is.
fn address_in(given: Given<'_>) -> Result<SocketAddr, Fault<'_>> {
    socket_address_of(given.word).ok_or(Fault::Address(given))
}

/// The address that the word is.
pub fn socket_address_of(word: &str) -> Option<SocketAddr> {
    address_of(word.as_bytes()).map(socket_address)
}

/// The address as the system's calls take it.
pub fn socket_address(address: Address) -> SocketAddr {
    let [a, b, c, d] = address.ip;
    SocketAddr::V4(SocketAddrV4::new(Ipv4Addr::new(a, b, c, d), address.port))
}

/// The CONNECT of the gateway under this id: a clean session.
fn greeting_in(alloc: Global, given: Given<'_>) -> Result<WireBytes, Fault<'_>>
    ensures { IfOk result (λ greeting. greeting ≡ gateway_connect given.entry.word.now) }
{
    let id = given.word.as_bytes();
    if MAX_ID_BYTES < id.len() {
        return Err(Fault::Id(given));
    }
    read_id(alloc, given)?;
    Ok(encode_connect(alloc, id, true, KEEP_ALIVE)?)
}

/// The word is a client id.
fn read_id(alloc: Global, given: Given<'_>) -> Result<(), Fault<'_>> {
    match ClientId::read(alloc, given.word.as_bytes()) {
        Ok(_) => Ok(()),
        Err(TextFault::Memory) => Err(Fault::Memory),
        Err(_) => Err(Fault::Id(given)),
    }
}

/// The file and its text, which is a policy.
fn policy_in<'a, R: Files + AllocGlobal>(
    rt: &R,
    given: Given<'a>,
) -> Result<PolicyFile, Fault<'a>> {
    let path = String::from_str(rt.alloc(), given.word)?;
    let file = match PolicyFile::read(rt, path) {
        Ok(file) => file,
        Err(error) => return Err(Fault::File(given, error)),
    };
    match read_policy(rt.alloc(), file.text.as_slice()) {
        Ok(_) => Ok(file),
        Err(PolicyFault::Memory) => Err(Fault::Memory),
        Err(fault) => {
            let report = report_of(rt.alloc(), file.text.as_slice())?;
            Err(Fault::Policy(given, fault, report))
        }
    }
}
