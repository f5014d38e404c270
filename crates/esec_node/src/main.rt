//! `esec run --admin SECRET` reads HTTP/1.1 from standard input and writes its responses to standard output;
//! `esec drill --admin SECRET` reads a schedule there and writes what its steps note.
#![tactic(auto)]

mod command;
mod given;
mod options;
#[cfg(test)]
mod tests;

pub use command::{Ended, esec, exit_of, words_of};
use es_edge::{StdSink, StdSource, SystemClock, random_device};
use std::process::ExitCode;
use std::{env, io};

fn main(rt: HostRuntime) -> ExitCode {
    let words = match all_words(&rt) {
        Ok(all) => words_of(all),
        Err(_) => return ExitCode::from(7),
    };
    let clock = match rt.clone() {
        Ok(system) => SystemClock::new(system),
        Err(_) => return ExitCode::from(7),
    };
    let mut chance = match random_device(&rt) {
        Ok(chance) => chance,
        Err(_) => return ExitCode::from(7),
    };
    let mut source = StdSource::new(rt.stdin());
    let mut sink = StdSink::new(rt.stdout());
    let ended = esec(
        rt.alloc(),
        &words,
        &mut source,
        &mut sink,
        &clock,
        &mut chance,
    );
    exit_of(&ended)
}

/// All words of the command line. Words that aren't UTF-8 are no words of the program, so then there are none.
fn all_words(rt: &HostRuntime) -> io::Result<Vec<String>> {
    let mut words = Vec::new(rt.alloc());
    match env::args(rt) {
        Ok(args) => {
            for word in args {
                words.push(word)?;
            }
        }
        Err(error) => {
            if error.kind() == io::ErrorKind::OutOfMemory {
                return Err(error);
            }
        }
    }
    Ok(words)
}
