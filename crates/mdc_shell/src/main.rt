//! The program `mdc`. `run FILE` runs a script from standard input on a database file, with one reply a statement on standard
//! output, and `run -` on a scratch file. `create FILE EXTENTS PAGES` makes an empty database in a file. `check FILE` says whether
//! the database in a file is whole. For all other words it says a usage line.
//!
//! Its one call is `run` (`program`). Of a script on a file that is well it promises that the replies are those of plain lists of
//! rows, up to a stop, and that from the origin of the run on a crash leaves a well file, which stands for those lists after some of
//! the items, with each whose reply had begun; for a create, what the file holds, what was said, and what a crash leaves; for a check of any
//! file, that the verdict is exact, and that a crash leaves a file that stands for the same pages; for all other words, that nothing
//! is read. `main` only makes the real source and host, of which nothing is told, sees to it that no file is taken for a standard
//! stream, and says on standard error why a call stopped (`explaining`).
//!
//! It stands on `session` for scripts on files and for the law of what is made, on `file_verdict` for checks, on `page_store` for
//! making a file, on `host_edge` for the real source and host (`mdc_outside`), and on `clap` for the words.
#![tactic(auto)]

mod checking;
mod command;
mod create;
mod ending;
mod explaining;
#[cfg(test)]
mod explaining_tests;
mod grammar;
mod laws;
mod numeral;
mod plain;
mod program;
#[cfg(test)]
mod program_tests;
mod running;
mod status;

use explaining::{explain, say_error};
use host_edge::{FileHost, StandIns, StdinSource};
use page_store::Untold;
use program::run;
use status::Status;
use std::process::ExitCode;
use std::{env, io};

fn main(rt: HostRuntime) -> ExitCode {
    ExitCode::from(status_of_call(&rt).0)
}

// Calls the program once there is something under the number of each standard stream.
fn status_of_call(rt: &HostRuntime) -> Status {
    match StandIns::take(rt) {
        Ok(_stand_ins) => status_of_words(rt),
        Err(error) => begin_without(rt, "/dev/null", error),
    }
}

// Calls the program on the real words.
fn status_of_words(rt: &HostRuntime) -> Status {
    match words(rt) {
        Ok(words) => status_of_run(rt, &words),
        Err(error) => begin_without(rt, "command line", error),
    }
}

// Calls the program on words and on standard input and output, and says why it stopped. What can't be said changes no status.
fn status_of_run(rt: &HostRuntime, words: &Vec<String>) -> Status {
    let files = match rt.clone() {
        Ok(files) => files,
        Err(error) => return begin_without(rt, "files", error.into()),
    };
    let mut input = StdinSource::new(rt.reader());
    let host = FileHost::new(rt.alloc(), files, rt.stdout());
    let ended = run(rt.alloc(), words, &mut input, host, &mut Untold);
    let _ = explain(&mut rt.stderr(), ended.status, words, &ended.host, &input);
    ended.status
}

// Says what couldn't be had before the program began, for want of memory or of descriptors.
fn begin_without(rt: &HostRuntime, what: &str, error: io::Error) -> Status {
    let _ = say_error(&mut rt.stderr(), what, error);
    Status::MEMORY
}

// The words after the program's name, or none where one of them is no text: such a word is none of a command line.
fn words(rt: &HostRuntime) -> io::Result<Vec<String>> {
    match texts(rt) {
        Err(error) if error.kind() == io::ErrorKind::InvalidData => Ok(Vec::new(rt.alloc())),
        outcome => outcome,
    }
}

// The words after the program's name. A word that is no text is an error, of the kind `InvalidData`.
fn texts(rt: &HostRuntime) -> io::Result<Vec<String>> {
    let mut words = Vec::new(rt.alloc());
    for word in env::args(rt)?.skip(1) {
        words.push(word)?;
    }
    Ok(words)
}
