// What a run is to do, as its words say it.
use std::str::FromStr;
use std::{env, io};

/// What to do, of what size, and how often.
#[derive(Clone, Copy, Debug)]
pub struct Plan<W> {
    pub what: W,
    pub size: u32,
    pub times: u32,
}

/// A word that names no piece of work.
#[derive(Clone, Copy, Debug)]
pub struct NoWork;

/// The words after the program's name.
pub fn words(rt: &HostRuntime) -> io::Result<Vec<String>> {
    let mut words = Vec::new(rt.alloc());
    for word in env::args(rt)?.skip(1) {
        words.push(word)?;
    }
    Ok(words)
}

/// What the words ask for, or nothing where they ask for no work.
pub fn plan_of<W: Copy + FromStr<Err = NoWork>>(words: &[String]) -> Option<Plan<W>> {
    let [what, size, times] = words else {
        return None;
    };
    Some(Plan {
        what: what.parse().ok()?,
        size: size.parse().ok()?,
        times: times.parse().ok()?,
    })
}
