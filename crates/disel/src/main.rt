//! The program: the words, standard input and standard output go to the top call, and the exit status is its answer.
#![tactic(auto)]

#[cfg(test)]
mod programs;
#[cfg(test)]
mod rows;
#[cfg(test)]
mod runs;
#[cfg(test)]
mod tests;

use dl_io::{StdSink, StdSource};
use dl_top::{Status, Word, plain};
use std::alloc::AllocError;
use std::process::ExitCode;
use std::{env, io};

fn main(rt: HostRuntime) -> ExitCode {
    match words(&rt) {
        Ok(words) => {
            let mut source = StdSource::make(rt.reader());
            let mut sink = StdSink::make(io::writer(&rt));
            let status = plain(rt.alloc(), words.as_slice(), &mut source, &mut sink);
            ExitCode::from(status.code())
        }
        Err(_) => ExitCode::from(Status::NoMemory.code()),
    }
}

/// The words after the program's name.
fn words(rt: &HostRuntime) -> io::Result<Vec<Word>> {
    let mut words = Vec::new(rt.alloc());
    for word in env::args(rt)?.skip(1) {
        words.push(Word::make(word))?;
    }
    Ok(words)
}
