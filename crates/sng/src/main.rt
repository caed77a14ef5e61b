//! `sng`, a gateway from MQTT-SN 1.2 to MQTT 3.1.1.
#![tactic(auto)]

mod book;
mod checking;
mod file;
mod may;
mod policy;
mod serving;

use sng_command::{Chosen, filters_among, out_of_memory, read_command, report, texts, words};
use sng_gateway::play::play;
use sng_questions::covering::cover_words;
use sng_serve::End;
use sng_text::Octets;
use std::alloc::AllocError;
use std::io;
use std::process::ExitCode;
use std::rt::Env;

fn main(rt: HostRuntime) -> ExitCode {
    let end = match read_words(&rt) {
        Ok((words, texts)) => match read_command(rt.alloc(), texts.as_slice()) {
            Ok(Chosen::Play) => End::from(play(rt.alloc(), rt.reader(), io::writer(&rt))),
            Ok(Chosen::Check(script)) => {
                End::from(checking::answer(&rt, words.as_slice(), script))
            }
            Ok(Chosen::CheckBooks(paths)) => {
                End::from(book::check(&rt, words.as_slice(), paths.as_slice()))
            }
            Ok(Chosen::Book(asked)) => End::from(book::browse(&rt, words.as_slice(), &asked)),
            Ok(Chosen::Cover) => {
                let filters = filters_among(words);
                let status = cover_words(rt.alloc(), filters.as_slice(), io::writer(&rt));
                End::from(status)
            }
            Ok(Chosen::May(asked)) => End::from(may::answer(&rt, words.as_slice(), &asked)),
            Ok(Chosen::Policy(asked)) => End::from(policy::check(&rt, words.as_slice(), asked)),
            Ok(Chosen::Serve(asked)) => serving::serve(&rt, words.as_slice(), &asked),
            Ok(Chosen::Status(address)) => {
                End::from(serving::status(&rt, words.as_slice(), address))
            }
            Ok(Chosen::Broker(listen)) => {
                End::from(serving::broker(&rt, words.as_slice(), listen))
            }
            Err(error) => {
                let command = texts.get(1).map(String::as_str).unwrap_or("");
                End::from(report(&rt, &error, command))
            }
        },
        Err(AllocError) => End::from(out_of_memory(&rt)),
    };
    ExitCode::from(end.code())
}

/// The words of the command line, as they came and as texts.
fn read_words<R: Env + AllocGlobal>(rt: &R) -> Result<(Vec<Octets>, Vec<String>), AllocError> {
    let words = words(rt)?;
    let texts = texts(rt.alloc(), words.as_slice())?;
    Ok((words, texts))
}
