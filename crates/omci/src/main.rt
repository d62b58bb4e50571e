//! The program `omci`: the top call over the words of the command line, standard input, standard
//! output, a file and a link over UDP. Where a run isn't done to its end, a line on stderr says why.
#![tactic(auto)]

use command_lines::words_after;
use omci_core::{NoMemory, StdSink, StdSource, Words};
use omci_link::UdpLink;
use omci_top::{Status, omci};
use slot_disk::FileDisk;
use status_words::{place_words, reason_words, status_words};
use std::alloc::{AllocError, Global};
use std::env;
use std::io::{self, ErrorKind};
use std::process::ExitCode;
use std::rt::Env;

/// Why there are no words.
enum NoWords {
    /// A word isn't UTF-8.
    NotText,
    NoMemory,
}

impl From<NoMemory> for NoWords {
    fn from(_error: NoMemory) -> NoWords {
        NoWords::NoMemory
    }
}

impl From<AllocError> for NoWords {
    fn from(_error: AllocError) -> NoWords {
        NoWords::NoMemory
    }
}

/// The words of the command line after the program's name.
fn words_of<R: Env + AllocGlobal>(rt: &R) -> Result<Words, NoWords> {
    let given = env::args(rt).map_err(|error| match error.kind() {
        ErrorKind::OutOfMemory => NoWords::NoMemory,
        _ => NoWords::NotText,
    })?;
    let mut arguments = Vec::new(rt.alloc());
    for argument in given {
        if arguments.push(argument).is_err() {
            return Err(NoWords::NoMemory);
        }
    }
    Ok(words_after(rt.alloc(), &arguments)?)
}

/// The top call over the words of the command line, standard input, standard output, a file and a
/// link over UDP.
fn run(rt: &HostRuntime) -> Result<Status, NoWords> {
    let words = words_of(rt)?;
    let mut source = StdSource::new(rt.reader());
    let mut sink = StdSink::new(io::writer(rt));
    let disk = FileDisk::new(rt.clone()?);
    let mut link = UdpLink::new(rt.clone()?);
    Ok(omci(rt.alloc(), &words, &mut source, &mut sink, disk, &mut link).status)
}

/// A line on stderr where the work wasn't done to its end: what happened, where, and what to do.
/// Where it can't be written, the exit status says it alone.
fn tell<R: Eprint>(rt: &R, status: Status) {
    let _ = match status {
        Status::Done => Ok(()),
        Status::Input { place, reason } => {
            let (what, why) = (place_words(reason), reason_words(reason));
            eprintln!(rt; "omci: {what} {place}: {why} (reason {reason})")
        }
        _ => eprintln!(rt; "omci: {}", status_words(status.number())),
    };
}

fn main(rt: HostRuntime) -> ExitCode {
    let status = match run(&rt) {
        Ok(status) => status,
        Err(NoWords::NotText) => Status::Usage,
        Err(NoWords::NoMemory) => Status::NoMemory,
    };
    tell(&rt, status);
    ExitCode::from(status.number())
}
