//! The clock of the gateway: a beat each second, told in ms of Unix time.
ghost use Rattle.std.specs.Prelude.{◌≡◌, ◌≢◌, ◌≤◌, ◌<◌, ◌↔◌, [], false};
ghost use Rattle.sng_desk.specs.declared.source.Got.TheVariants.{Ended as ended_answer};
ghost use Rattle.sng_desk.specs.declared.source.Got.TheVariants.{Failed as failed_answer};

use crate::hub::Hub;
use sng_bounds::drift::Drift;
use sng_bounds::unix_clock::UnixClock;
use sng_desk::{Beats, Got};
use sng_signals::bell::Ear;
use sng_signals::level::Level;
use std::rt::Clock;
use std::sync::Wait;
use std::time::Duration;
use std::{io, thread};

/// How long a beat is, in ms.
const BEAT_MS: u64 = 1000;

/// Where a beat comes so much too late, in ms, the gateway was stopped or starved.
const GAP_MS: u64 = 1500;

/// How long the workers have behind such a gap to read what lies in the socket, in ms.
const LOOK_MS: u64 = 2000;

/// How long one wait is until the socket was seen empty, in ms.
const LOOK_STEP_MS: u64 = 20;

/// The clock of a gateway that begins now.
pub fn unix_clock<R: Clock>(rt: &R) -> io::Result<UnixClock> {
    let wall = rt.since_1970()?;
    let begun = rt.monotonic()?;
    Ok(UnixClock { wall, begun })
}

/// Beats of the system's clock.
#[derive(Drop)]
pub struct SystemBeats<'a, R: Clock + Wait> {
    rt: &'a R,
    hub: &'a Hub,
    /// The worker that has these beats.
    by: u16,
    ear: Ear,
    clock: UnixClock,
    drift: Drift,
    due: Duration,
    /// Behind a gap: until when the beat is put off for what lies in the socket.
    held_until: Option<Duration>,
    failures: u64,
}

impl<'a, R: Clock + Wait> SystemBeats<'a, R> {
    /// The beats of the worker with this tag, whose gate has to give back the token. The first one comes a
    /// second after the clock has begun.
    pub fn new(rt: &'a R, hub: &'a Hub, ear: Ear, clock: UnixClock, by: u16) -> SystemBeats<'a, R> {
        SystemBeats {
            rt,
            hub,
            by,
            ear,
            clock,
            drift: Drift::new(),
            due: clock.begun.saturating_add(Duration::from_millis(BEAT_MS)),
            held_until: None,
            failures: 0,
        }
    }

    fn fail(&mut self) -> Got<u64>
        ensures failures { self.old.failures ≤ self.new.failures }
        ensures failed { (result ≡ failed_answer) ↔ (self.old.failures < self.new.failures) }
        ensures goes_on { result ≢ ended_answer }
    {
        if self.failures == u64::MAX {
            return Got::Nothing;
        }
        self.failures += 1;
        Got::Failed
    }

    /// The beat at this time, where one is due. Beats that were missed do not come any more.
    fn beat_at(&mut self, now: Duration) -> Got<u64>
        ensures failures { self.old.failures ≤ self.new.failures }
        ensures failed { (result ≡ failed_answer) ↔ (self.old.failures < self.new.failures) }
        ensures goes_on { result ≢ ended_answer }
    {
        if now < self.due {
            return Got::Nothing;
        }
        self.due = self.due.saturating_add(Duration::from_millis(BEAT_MS));
        if self.due < now {
            self.due = now.saturating_add(Duration::from_millis(BEAT_MS));
        }
        self.tell_drift(now);
        Got::Came(self.clock.ms(now))
    }
}

impl<'a, R: Clock + Wait> Beats for SystemBeats<'a, R> {
    ghost tells = { λ _. false };

    ghost gave = { λ _. [] };

    ghost failures = { λ b. b.failures };

    ghost has_ended = { λ _. false };

    /// The worker has the token with a beat.
    fn next(&mut self) -> Got<u64> {
        let got = self.wait();
        if let Got::Came(_) = &got {
            self.hub.token.take(self.rt, self.by);
        }
        got
    }

    fn ended(&self) -> bool {
        false
    }
}

impl<'a, R: Clock + Wait> SystemBeats<'a, R> {
    /// Tells where the wall clock is far off the clock of the gateway.
    fn tell_drift(&mut self, now: Duration)
        ensures failures { self.new.failures ≡ self.old.failures }
        ensures due { self.new.due ≡ self.old.due }
    {
        let Ok(wall) = self.rt.since_1970() else {
            return;
        };
        let off = self.clock.off(now, wall);
        if self.drift.tells(now, off) {
            let seconds = off.as_secs();
            self.hub.tell(
                Level::Warning,
                format_args!(
                    "the wall clock is {seconds} s off the clock of the gateway, by which scopes end"
                ),
            );
        }
    }

    /// Waits once for a beat.
    fn wait(&mut self) -> Got<u64>
        ensures failures { self.old.failures ≤ self.new.failures }
        ensures failed { (result ≡ failed_answer) ↔ (self.old.failures < self.new.failures) }
        ensures goes_on { result ≢ ended_answer }
    {
        let Ok(now) = self.rt.monotonic() else {
            return self.fail();
        };
        if now < self.due {
            let _ = self.hub.clock.heard();
            if self.hub.stops() || self.ear.wait(self.due.saturating_sub(now)).is_ok() {
                return self.later();
            }
            return self.fail();
        }
        self.beat_unless_held(now)
    }

    /// Whether the beat that is due waits a step longer: behind a gap a device's PINGREQ may lie in the
    /// socket that is read before its client is taken for lost.
    fn is_held(&mut self, now: Duration) -> bool
        ensures failures { self.new.failures ≡ self.old.failures }
    {
        let Some(until) = self.held_until else {
            return self.begin_to_hold(now);
        };
        if until <= now || self.hub.has_seen_empty_socket() {
            self.held_until = None;
            return false;
        }
        thread::sleep(self.rt, Duration::from_millis(LOOK_STEP_MS));
        true
    }

    /// The beat at this time, where one is due and not put off.
    fn beat_unless_held(&mut self, now: Duration) -> Got<u64>
        ensures failures { self.old.failures ≤ self.new.failures }
        ensures failed { (result ≡ failed_answer) ↔ (self.old.failures < self.new.failures) }
        ensures goes_on { result ≢ ended_answer }
    {
        if self.due <= now && self.is_held(now) {
            return Got::Nothing;
        }
        self.beat_at(now)
    }

    /// Puts the beat off where it is much too late.
    fn begin_to_hold(&mut self, now: Duration) -> bool
        ensures failures { self.new.failures ≡ self.old.failures }
    {
        let is_gap = Duration::from_millis(GAP_MS) <= now.saturating_sub(self.due);
        if is_gap {
            self.hub.look_again();
            self.held_until = Some(now.saturating_add(Duration::from_millis(LOOK_MS)));
        }
        is_gap
    }

    /// The beat that is due after a wait.
    fn later(&mut self) -> Got<u64>
        ensures failures { self.old.failures ≤ self.new.failures }
        ensures failed { (result ≡ failed_answer) ↔ (self.old.failures < self.new.failures) }
        ensures goes_on { result ≢ ended_answer }
    {
        match self.rt.monotonic() {
            Ok(now) => self.beat_unless_held(now),
            Err(_) => self.fail(),
        }
    }
}
