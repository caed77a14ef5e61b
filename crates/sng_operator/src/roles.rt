//! Which worker has which tag: those at the devices' socket come first, then the one at the broker, the
//! clock, and the policies.
ghost use Rattle.std.specs.Prelude.{◌≡◌, ◌+◌, ◌<◌, ◌≤◌};
ghost use Rattle.sng_operator.specs.declared.roles.Role.TheVariants.{Devices, Broker, Clock, Policies};

use std::fmt;
use std::fmt::{Display, Formatter, Write};

/// So many workers stand beside those at the socket.
pub const OTHERS: u16 = 3;

/// What a worker does.
#[derive(Clone, Copy, Debug, PartialEq, Eq)]
pub enum Role {
    /// Reads datagrams of devices.
    Devices,
    /// Keeps the connection to the broker.
    Broker,
    /// Tells the time.
    Clock,
    /// Reads policies.
    Policies,
}

impl Display for Role {
    fn fmt<W: Write>(&self, f: &mut Formatter<W>) -> fmt::Result {
        f.write_str(match self {
            Role::Devices => "at the devices' socket",
            Role::Broker => "at the broker",
            Role::Clock => "at the clock",
            Role::Policies => "at standard input",
        })
    }
}

/// The roles of the workers of a gateway, by their tags.
#[derive(Clone, Copy, Debug, PartialEq, Eq)]
pub struct Roles {
    workers: u16,
}

impl Roles {
    /// With so many workers at the socket.
    pub fn new(workers: u16) -> Roles
        ensures { result.workers ≡ workers }
    {
        Roles { workers }
    }

    /// How many workers are at the socket.
    pub fn workers(self) -> u16
        ensures { result ≡ self.workers }
    {
        self.workers
    }

    /// What the worker with this tag does.
    pub fn of(self, tag: u16) -> Role
        ensures devices { tag < self.workers → result ≡ Devices }
        ensures broker { tag ≡ self.workers → result ≡ Broker }
        ensures clock { tag ≡ self.workers + 1 → result ≡ Clock }
        ensures policies { self.workers + 2 ≤ tag → result ≡ Policies }
    {
        if tag < self.workers {
            return Role::Devices;
        }
        match tag - self.workers {
            0 => Role::Broker,
            1 => Role::Clock,
            _ => Role::Policies,
        }
    }
}
