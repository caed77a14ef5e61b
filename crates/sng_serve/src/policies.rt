//! What an operator says while the gateway serves, a line of standard input each: policies, and the commands
//! of `commands.rt`; and the policy of the file, where that has changed.
ghost use Rattle.std.specs.Prelude.{◌≡◌, ◌≢◌, ◌≤◌, ◌<◌, ◌↔◌, ◌⊎◌, [], false, true};
ghost use Rattle.sng_desk.specs.Acts.{Moves};
ghost use Rattle.sng_desk.specs.Working.{given_by};
ghost use Rattle.sng_operator.specs.Commands.{ForReload, asked_by};
ghost use Rattle.sng_serve.specs.Readings.{CannotRead, IsAnswer, IsPolicyOf, IsTurn};
ghost use Rattle.sng_desk.specs.declared.source.Got.TheVariants.{Ended as ended_answer};
ghost use Rattle.sng_desk.specs.declared.source.Got.TheVariants.{Failed as failed_answer};
ghost use Rattle.sng_desk.specs.declared.source.Got.TheVariants.{Nothing as nothing_answer};

use crate::hub::Hub;
use crate::patient::PatientInput;
use crate::policy_source::PolicySource;
use crate::reports::tell_report;
use sng_desk::{Got, Policies};
use sng_grants::Policy;
use sng_operator::commands::{Command, HELP, command_of, push_unknown};
use sng_operator::fate::{Fate, fate_of};
use sng_operator::in_force::InForce;
use sng_operator::lists::Lists;
use sng_scope::PolicyFault;
use sng_script::input::read_line;
use sng_script::refused::push_refused;
use sng_signals::level::Level;
use sng_text::Octets;
use std::rt::{Clock, Files};
use std::str;

/// The policies of an operator, whose lines are those of an input.
#[derive(Drop)]
pub struct OperatorPolicies<'a, R: Files + Clock + AllocGlobal, I: PatientInput + Drop> {
    rt: &'a R,
    hub: &'a Hub,
    input: I,
    line: Vec<u8>,
    /// The file that is read again on `reload`. Where there is one, the end of the input stops nothing.
    file: Option<PolicySource>,
    /// That file is read again once it has changed, also behind the end of the input.
    is_watched: bool,
    is_input_over: bool,
    in_force: InForce,
    has_ended: bool,
    lost_input: bool,
}

impl<'a, R: Files + Clock + AllocGlobal, I: PatientInput + Drop> OperatorPolicies<'a, R, I> {
    /// The text is that of the policy in force, where there is one.
    pub fn new(
        rt: &'a R,
        hub: &'a Hub,
        input: I,
        file: Option<PolicySource>,
        text: Option<Vec<u8>>,
    ) -> OperatorPolicies<'a, R, I>
        ensures { result.input ≡ input }
    {
        let is_watched = match &file {
            Some(file) => file.is_watched(),
            None => false,
        };
        OperatorPolicies {
            rt,
            hub,
            input,
            line: Vec::new(rt.alloc()),
            file,
            is_watched,
            is_input_over: false,
            in_force: InForce::new(text.map(Octets::from)),
            has_ended: false,
            lost_input: false,
        }
    }

    /// Whether standard input could not be read.
    pub fn has_lost_input(&self) -> bool
        ensures { result ≡ self.now.lost_input }
    {
        self.lost_input
    }

    /// What the next line asks for: it is taken whole, and exactly what stands behind it is left. The end of
    /// the input stops all where no file has the policy, and so does an input that cannot be read. Behind the
    /// end a file that is watched is looked at still.
    fn read(&mut self) -> Got<Policy>
        ensures turn { IsTurn self.old.is_watched (I.remaining self.old.input) (I.remaining self.new.input)
            (I.given_up self.new.input) self.old.lost_input self.new.lost_input result }
        ensures ended { result ≡ ended_answer → self.new.has_ended ≡ true }
        ensures going { result ≢ failed_answer }
        ensures ends { self.new.has_ended ≡ true → (result ≡ ended_answer) ⊎ (self.old.has_ended ≡ true) }
    {
        let read = read_line(&mut self.input, &mut self.line);
        match read {
            Ok(true) => self.take_line(),
            Ok(false) => self.end_input(),
            Err(_) => self.lose_input(),
        }
    }

    /// Nothing more stands in the input.
    fn end_input(&mut self) -> Got<Policy>
        ensures over { (result ≡ ended_answer) ⊎ ((self.old.is_watched ≡ true) × (result ≡ nothing_answer)) }
        ensures ended { result ≡ ended_answer → self.new.has_ended ≡ true }
        ensures ends { self.new.has_ended ≡ true → (result ≡ ended_answer) ⊎ (self.old.has_ended ≡ true) }
        ensures input { self.new.input ≡ self.old.input }
        ensures lost { self.new.lost_input ≡ self.old.lost_input }
    {
        if self.is_watched && !self.hub.stops() {
            self.is_input_over = true;
            return Got::Nothing;
        }
        let stops = self.file.is_none();
        self.end(stops)
    }

    /// Waits for a line, and looks at the file meanwhile. Whether that is to be read.
    fn finds_change(&mut self) -> bool
        ensures watched { result ≡ true → self.old.is_watched ≡ true }
        ensures same { self.new.is_watched ≡ self.old.is_watched }
        ensures input { self.new.input ≡ self.old.input }
        ensures lost { self.new.lost_input ≡ self.old.lost_input }
        ensures ended { self.new.has_ended ≡ self.old.has_ended }
    {
        if !self.is_watched {
            return false;
        }
        let Some(file) = &mut self.file else {
            return false;
        };
        if self.input.has_buffered() {
            file.has_changed(self.rt, self.hub)
        } else {
            file.awaits_change(self.rt, self.hub, self.is_input_over)
        }
    }

    /// The policy of the file, which has changed. A text that is in force already is passed over.
    fn take_file(&mut self) -> Got<Policy>
        ensures answer { IsAnswer ForReload result }
        ensures input { self.new.input ≡ self.old.input }
        ensures lost { self.new.lost_input ≡ self.old.lost_input }
        ensures same { self.new.has_ended ≡ self.old.has_ended }
    {
        let Some(file) = &mut self.file else {
            return Got::Nothing;
        };
        let Some(text) = file.read_changed(self.rt, self.hub) else {
            return Got::Nothing;
        };
        if self.in_force.is(text.as_slice()) {
            return Got::Nothing;
        }
        give(self.rt, self.hub, &mut self.in_force, text.as_slice())
    }

    /// The input cannot be read, or was given up.
    fn lose_input(&mut self) -> Got<Policy>
        ensures lost { CannotRead (I.given_up self.new.input) self.old.lost_input self.new.lost_input result }
        ensures ended { self.new.has_ended ≡ true }
    {
        if !self.input.is_given_up() {
            self.hub.tell(Level::Error, "standard input cannot be read");
            self.lost_input = true;
        }
        self.end(true)
    }

    /// Does what the line asks for.
    fn take_line(&mut self) -> Got<Policy>
        ensures answer { IsAnswer (asked_by self.old.line.items) result }
        ensures input { self.new.input ≡ self.old.input }
        ensures lost { self.new.lost_input ≡ self.old.lost_input }
        ensures ended { result ≡ ended_answer → self.new.has_ended ≡ true }
        ensures going { result ≢ failed_answer }
        ensures ends { self.new.has_ended ≡ true → (result ≡ ended_answer) ⊎ (self.old.has_ended ≡ true) }
    {
        match command_of(self.line.as_slice()) {
            Command::Nothing => {}
            Command::Policy(text) => return give(self.rt, self.hub, &mut self.in_force, text),
            Command::Reload => return self.reload(),
            Command::Status => self.hub.ask_status(),
            Command::Verbose(verbosity) => self.hub.set_verbosity(verbosity),
            Command::Help => tell_help(self.hub),
            Command::Quit => return self.end(true),
            Command::Unknown(line) => tell_unknown(self.rt, self.hub, line),
        }
        Got::Nothing
    }

    /// The policy of the file, where there is one.
    fn reload(&mut self) -> Got<Policy>
        ensures answer { IsAnswer ForReload result }
        ensures input { self.new.input ≡ self.old.input }
        ensures lost { self.new.lost_input ≡ self.old.lost_input }
        ensures same { self.new.has_ended ≡ self.old.has_ended }
    {
        let Some(file) = &mut self.file else {
            self.hub.tell(Level::Warning, "nothing to reload: --policy names no file");
            return Got::Nothing;
        };
        match file.read(self.rt, self.hub) {
            Some(text) => give(self.rt, self.hub, &mut self.in_force, text.as_slice()),
            None => Got::Nothing,
        }
    }

    /// Nothing more comes, and all workers are stopped with it, or go on.
    fn end(&mut self, stops: bool) -> Got<Policy>
        ensures ended { self.new.has_ended ≡ true }
        ensures answer { result ≡ ended_answer }
        ensures input { self.new.input ≡ self.old.input }
        ensures lost { self.new.lost_input ≡ self.old.lost_input }
    {
        if stops {
            self.hub.stop();
        }
        self.has_ended = true;
        Got::Ended
    }

    /// Tells what came of the policy that was given last: the desk has acted on it since, or refused to.
    fn settle(&mut self)
        ensures watched { self.new.is_watched ≡ self.old.is_watched }
        ensures input { self.new.input ≡ self.old.input }
        ensures lost { self.new.lost_input ≡ self.old.lost_input }
        ensures ended { self.new.has_ended ≡ self.old.has_ended }
    {
        let is_refused = self.hub.takes_policy_refusal();
        let Some(lists) = self.in_force.settle(is_refused) else {
            return;
        };
        if is_refused {
            self.hub.tell(
                Level::Error,
                "policy refused: allocation failed: the one before stays",
            );
        } else {
            self.hub
                .tell(Level::Info, format_args!("policy in force: {lists}"));
        }
    }
}

impl<'a, R: Files + Clock + AllocGlobal, I: PatientInput + Drop> Policies
    for OperatorPolicies<'a, R, I> {
    ghost tells = { λ _. false };

    ghost gave = { λ _. [] };

    ghost failures = { λ _. 0 };

    ghost has_ended = { λ p. p.has_ended };

    fn next(&mut self) -> Got<Policy>
        ensures turn { IsTurn self.old.is_watched (I.remaining self.old.input) (I.remaining self.new.input)
            (I.given_up self.new.input) self.old.lost_input self.new.lost_input result }
        ensures given { Moves (λ _. false) (λ _. []) self.old self.new (given_by result) }
        ensures failures { 0 ≤ 0 }
        ensures failed { (result ≡ failed_answer) ↔ (0 < 0) }
        ensures ended { result ≡ ended_answer → self.new.has_ended ≡ true }
        ensures ends { self.new.has_ended ≡ true → (result ≡ ended_answer) ⊎ (self.old.has_ended ≡ true) }
    {
        self.settle();
        if self.finds_change() {
            return self.take_file();
        }
        self.read()
    }

    fn ended(&self) -> bool {
        self.has_ended
    }
}

/// The policy that the text is, with its warnings told. One that is refused is told, and replaces nothing;
/// one that is in force already makes no event.
fn give<R: AllocGlobal>(rt: &R, hub: &Hub, in_force: &mut InForce, text: &[u8]) -> Got<Policy>
    ensures { IsPolicyOf text.now result }
{
    match fate_of(rt.alloc(), in_force, text) {
        Fate::Unchanged => {
            hub.tell(Level::Info, "policy unchanged: nothing to do");
            Got::Nothing
        }
        Fate::Taken(policy) => {
            tell_report(rt, hub, text);
            in_force.propose(rt.alloc(), text, Lists::of(&policy));
            Got::Came(policy)
        }
        Fate::Refused(fault) => {
            refuse(rt, hub, text, fault);
            Got::Nothing
        }
    }
}

/// Prints the fault of a policy text, and tells it with its place.
fn refuse<R: AllocGlobal>(rt: &R, hub: &Hub, text: &[u8], fault: PolicyFault) {
    hub.refused_policies.add(1);
    let mut line = Vec::new(rt.alloc());
    if push_refused(&mut line, fault).is_ok() {
        hub.print(line);
    }
    let name = fault.name();
    hub.tell(
        Level::Error,
        format_args!("policy refused: {name}: the one before stays"),
    );
    tell_report(rt, hub, text);
}

/// Tells what a line can ask for.
fn tell_help(hub: &Hub) {
    for line in HELP {
        hub.tell(Level::Info, line);
    }
}

/// Tells that the line asks for nothing that is known.
fn tell_unknown<R: AllocGlobal>(rt: &R, hub: &Hub, line: &[u8]) {
    let mut text = Vec::new(rt.alloc());
    if push_unknown(&mut text, line).is_err() {
        return;
    }
    if let Ok(text) = str::from_utf8(text.as_slice()) {
        hub.tell(Level::Warning, text);
    }
}
