//! The connection to the broker over TCP (MQTT 3.1.1, 4.2): it is made anew after pauses that grow, and what
//! a turn of its worker writes is one write.
ghost use Rattle.std.specs.Prelude.{◌≡◌, [], true, false, IfSome};
ghost use Rattle.sng_crew.specs.Devices.{IsShort};
ghost use Rattle.sng_crew.specs.declared.connection.ReadAnswer.TheVariants.{Gone as gone_answer};

use crate::hub::Hub;
use crate::watch::Watch;
use crate::wire::{Came, Sent, Wire};
use mqtt_frames::encode_disconnect;
use sng_bounds::loss::{Loss, Parting};
use sng_bounds::patience::Patience;
use sng_bounds::refusal::{CONNACK_BYTES, Refusal, connack_code};
use sng_bounds::tries::Tries;
use sng_crew::{MAX_READ, Opening, ReadAnswer, Upstream, Written};
use sng_operator::ends::Halt;
use sng_signals::bell::Ear;
use sng_signals::level::Level;
use sng_signals::reach::Reach;
use sng_text::Octets;
use std::alloc::AllocError;
use std::net::{Net, SocketAddr};
use std::rt::Clock;
use std::sync::Wait;
use std::time::Duration;

/// How long the broker may take nothing of what is written, in ms.
const WRITE_PATIENCE_MS: u64 = 10000;

/// Connections to the broker.
#[derive(Drop)]
pub struct BrokerLink<'a, R: Clock + Net + Wait + AllocGlobal> {
    rt: &'a R,
    hub: &'a Hub,
    /// The worker that has this connection.
    by: u16,
    watch: Watch<'a, R>,
    address: SocketAddr,
    /// After so many failed tries the worker gives up.
    most: u32,
    tries: Tries,
    wire: Wire,
    /// How far the worker was given what came.
    reach: Reach,
    patience: Patience,
    /// When the broker accepted the connection.
    accepted: Duration,
    /// The first bytes that came, as many as a CONNACK has.
    first: Vec<u8>,
    /// Why a write failed.
    fault: Option<Loss>,
    /// A try was made before.
    is_begun: bool,
    has_ended: bool,
}

impl<'a, R: Clock + Net + Wait + AllocGlobal> BrokerLink<'a, R> {
    /// The connection of the worker with this tag, whose gate has to give back the token.
    pub fn new(
        rt: &'a R,
        hub: &'a Hub,
        ear: Ear,
        address: SocketAddr,
        tries: u32,
        by: u16,
    ) -> Result<BrokerLink<'a, R>, AllocError> {
        let alloc = rt.alloc();
        Ok(BrokerLink {
            rt,
            hub,
            by,
            watch: Watch::new(rt, hub, ear),
            address,
            most: tries,
            tries: Tries::new(),
            wire: Wire::new(alloc)?,
            reach: Reach::new(),
            patience: Patience::new(Duration::ZERO),
            accepted: Duration::ZERO,
            first: Vec::with_capacity(alloc, CONNACK_BYTES)?,
            fault: None,
            is_begun: false,
            has_ended: false,
        })
    }

    /// Counts a try that failed, and tells why.
    fn miss(&mut self, why: Loss) {
        self.tries.fail();
        let (address, count, pause) = (self.address, self.tries.failed, self.tries.pause());
        if self.tries.are_used_up(self.most) {
            self.hub.tell(
                Level::Error,
                format_args!("broker {address}: {why}; gave up after {count} tries"),
            );
        } else {
            self.hub.tell(
                Level::Warning,
                format_args!("broker {address}: {why}; trying again in {pause} ms"),
            );
        }
    }

    /// An accepted connection is over. Where it did not last, the next one is tried as after a failed try.
    fn part(&mut self, why: Loss) {
        let up = self.watch.now().saturating_sub(self.accepted);
        let lasted = self.tries.lose(up);
        let (address, pause) = (self.address, self.tries.pause());
        let parting = Parting { why, lasted, pause };
        self.hub.tell(Level::Warning, format_args!("broker {address}: {parting}"));
    }

    /// The connection is over. One that was not accepted was a failed try.
    fn lose(&mut self, why: Loss) -> ReadAnswer
        ensures { result ≡ gone_answer }
    {
        self.wire.close();
        if self.patience.is_accepted {
            self.part(why);
        } else {
            self.miss(why);
        }
        ReadAnswer::Gone
    }

    /// Until when a write waits for the broker to take something.
    fn write_end(&self) -> Duration {
        self.watch
            .now()
            .saturating_add(Duration::from_millis(WRITE_PATIENCE_MS))
    }

    /// Writes what is kept. Once the broker takes something it has its whole time again, unless the gateway
    /// stops.
    fn flush(&mut self) -> Result<(), Loss> {
        let mut end = self.write_end();
        for _ in 0..u64::MAX {
            match self.wire.send()? {
                Sent::All => break,
                Sent::Some if self.hub.stops() => {}
                Sent::Some => end = self.write_end(),
                Sent::Nothing => self.wait_to_write(end)?,
            }
        }
        if self.wire.take_ping() {
            let now = self.watch.now();
            self.patience.ask(now);
        }
        Ok(())
    }

    /// Waits until the broker takes something, and reads what it sends meanwhile.
    fn wait_to_write(&mut self, end: Duration) -> Result<(), Loss> {
        for _ in 0..u64::MAX {
            match self.wire.receive_ahead()? {
                Came::Some => {
                    let now = self.watch.now();
                    self.patience.hear(now);
                }
                Came::Nothing | Came::End => break,
            }
        }
        if end <= self.watch.now() {
            return Err(Loss::Stuck);
        }
        Ok(self.watch.wait_until(end)?)
    }

    /// Remembers the bytes of a CONNACK.
    fn notice(&mut self, bytes: &[u8]) {
        let count = bytes
            .len()
            .min(CONNACK_BYTES.saturating_sub(self.first.len()));
        if let Some(bytes) = bytes.get(..count) {
            let _ = self.first.extend_from_slice(bytes);
        }
    }

    /// Gives the next piece of what came.
    fn take(&mut self) -> ReadAnswer
        ensures { IsShort MAX_READ result }
    {
        match self.wire.piece(self.rt.alloc()) {
            Ok(piece) => {
                self.notice(piece.as_slice());
                ReadAnswer::Piece(Octets::from(piece))
            }
            Err(AllocError) => self.lose(Loss::Memory),
        }
    }

    /// Gives what came, or reads once. Where nothing is there, it answers nothing.
    fn look(&mut self) -> Option<ReadAnswer>
        ensures { IfSome result (λ answer. IsShort MAX_READ answer) }
    {
        if !self.wire.is_open() {
            return Some(ReadAnswer::Gone);
        }
        for _ in 0..u64::MAX {
            if !self.wire.is_drained() {
                return Some(self.take());
            }
            match self.wire.receive() {
                Ok(Came::Some) => {
                    let now = self.watch.now();
                    self.patience.hear(now);
                }
                Ok(Came::Nothing) => return None,
                Ok(Came::End) => return Some(self.lose(Loss::Closed)),
                Err(error) => return Some(self.lose(Loss::from(error))),
            }
        }
        None
    }

    /// Writes what is kept, and waits for bytes, or for something that is to be written.
    fn listen(&mut self) -> ReadAnswer
        ensures { IsShort MAX_READ result }
    {
        self.learn();
        if let Err(why) = self.flush() {
            return self.lose(why);
        }
        for _ in 0..u64::MAX {
            if let Some(answer) = self.look() {
                return answer;
            }
            if let Some(answer) = self.wait() {
                return answer;
            }
        }
        ReadAnswer::Nothing
    }

    /// Waits once for bytes, or for something that is to be written.
    fn wait(&mut self) -> Option<ReadAnswer>
        ensures { IfSome result (λ answer. IsShort MAX_READ answer) }
    {
        let (end, late) = self.patience.due();
        if end <= self.watch.now() {
            return Some(self.lose(Loss::Late(late)));
        }
        if self.hub.upstream.heard() || self.hub.stops() {
            return Some(ReadAnswer::Nothing);
        }
        match self.watch.wait_until(end) {
            Ok(()) => None,
            Err(error) => Some(self.lose(Loss::from(error))),
        }
    }

    /// The worker has acted since the connection was made, so the broker accepted it.
    fn learn(&mut self) {
        if !self.patience.is_accepted && self.hub.is_up() {
            self.patience.accept();
            self.tries.accept();
            self.accepted = self.watch.now();
            let address = self.address;
            self.hub
                .tell(Level::Info, format_args!("broker {address}: connected"));
        }
    }

    /// Why the worker closes a connection that is not lost.
    fn reason(&mut self) -> Loss {
        if let Some(fault) = self.fault.take() {
            return fault;
        }
        if self.hub.has_refused_upstream() {
            return match self.hub.halt() {
                Some(Halt::FullBook) => Loss::FullBook,
                _ => Loss::Memory,
            };
        }
        if self.patience.is_accepted {
            return Loss::NotMqtt;
        }
        match connack_code(self.first.as_slice()) {
            Some(code) => Refusal::of(code).map_or(Loss::NotMqtt, Loss::Refused),
            None => Loss::NotConnack,
        }
    }

    /// Passes on what is left, and takes leave of the broker (MQTT 3.1.1, 3.14).
    pub fn finish(&mut self) {
        if self.flush().is_ok()
            && let Ok(leave) = encode_disconnect(self.rt.alloc())
        {
            let _ = self.wire.keep(leave.as_slice());
            let _ = self.flush();
        }
        self.wire.shut();
    }

    /// No further connection comes.
    fn end(&mut self) -> Opening
        ensures { self.new.has_ended ≡ true }
    {
        self.has_ended = true;
        Opening::NoneLeft
    }
}

impl<'a, R: Clock + Net + Wait + AllocGlobal> Upstream for BrokerLink<'a, R> {
    ghost tells = { λ _. false };

    ghost did = { λ _. [] };

    ghost has_ended = { λ l. l.has_ended };

    fn connect(&mut self) -> Opening {
        if self.is_begun {
            let pause = Duration::from_millis(self.tries.pause());
            let end = self.watch.now().saturating_add(pause);
            self.watch.pause_until(end);
        }
        self.is_begun = true;
        self.hub.begin();
        self.first.clear();
        self.fault = None;
        if self.hub.stops() {
            return self.end();
        }
        match self.watch.dial(self.address) {
            Ok(stream) => {
                self.wire.open(stream);
                self.reach = Reach::new();
                self.patience = Patience::new(self.watch.now());
                Opening::Made
            }
            Err(_) if self.hub.stops() => self.end(),
            Err(why) => {
                self.miss(why);
                Opening::Missed
            }
        }
    }

    /// The worker has the token with what the broker sent to devices. Acknowledgements, a connection that is
    /// over, and a look at what waits for the broker send nothing to devices.
    fn read(&mut self) -> ReadAnswer {
        let answer = self.listen();
        if let ReadAnswer::Piece(piece) = &answer
            && self.reach.takes(piece.as_slice())
        {
            self.hub.token.take(self.rt, self.by);
        }
        answer
    }

    /// It keeps the bytes for the next read and does not wait, as the worker has the token.
    fn write(&mut self, bytes: &[u8]) -> Written {
        let written = self.wire.keep(bytes);
        if let Written::Failed = written {
            self.fault = Some(Loss::Memory);
        }
        written
    }

    fn close(&mut self) {
        if self.wire.is_open() {
            self.learn();
            let why = self.reason();
            let _ = self.lose(why);
        }
    }

    fn ended(&self) -> bool {
        self.has_ended
    }
}
