// What a reader gave of a script before it ended.
ghost use Rattle.std.specs.Prelude.{◌<◌};

use mdc_outside::{MemSource, Source};
use mdc_values::Memory;
use sql_reader::{Read, ReadStop, Statements};
use std::alloc::Global;

/// A refusal by its number, its place and the number that it keeps.
#[derive(Clone, Copy, Debug, PartialEq, Eq)]
pub struct Told {
    pub number: u16,
    pub place: u32,
    pub kept: u64,
}

/// How many statements and refusals there were, the last refusal, why the reader stopped, if it did, and the greatest
/// number of bytes that it kept after a call.
#[derive(Clone, Copy, Debug, PartialEq, Eq)]
pub struct Tally {
    pub statements: u64,
    pub refusals: u64,
    pub refusal: Option<Told>,
    pub stop: Option<ReadStop>,
    pub most_kept: usize,
}

impl Tally {
    fn new() -> Tally {
        Tally {
            statements: 0,
            refusals: 0,
            refusal: None,
            stop: None,
            most_kept: 0,
        }
    }

    /// Counts an item.
    fn note(&mut self, item: &Read) {
        match item {
            Read::Stmt(_) => self.statements = self.statements.saturating_add(1),
            Read::Refused(refusal) => {
                self.refusals = self.refusals.saturating_add(1);
                self.refusal = Some(Told {
                    number: refusal.number,
                    place: refusal.place,
                    kept: refusal.kept,
                });
            }
        }
    }

    /// Whether there was one statement and nothing else.
    pub fn is_understood(&self) -> bool {
        self.statements == 1 && self.refusals == 0 && self.stop.is_none()
    }

    /// Whether there was one refusal, which is this one, and nothing else.
    pub fn is_refused(&self, number: u16, place: u32, kept: u64) -> bool {
        let told = Told {
            number,
            place,
            kept,
        };
        self.statements == 0
            && self.refusals == 1
            && self.refusal == Some(told)
            && self.stop.is_none()
    }
}

/// Reads a source to its end, or to a stop.
pub fn read_all<I: Source>(alloc: Global, source: &mut I) -> Result<Tally, Memory> {
    let mut reader = Statements::new(alloc)?;
    let mut tally = Tally::new();
    for _ in 0..64 {
        let found = reader.next(source);
        tally.most_kept = tally.most_kept.max(reader.kept());
        match found {
            Ok(None) => return Ok(tally),
            Ok(Some(item)) => tally.note(&item),
            Err(stop) => {
                tally.stop = Some(stop);
                return Ok(tally);
            }
        }
    }
    Ok(tally)
}

/// Reads a script that comes in pieces of so many bytes.
pub fn read_script(alloc: Global, script: &[u8], step: usize) -> Result<Tally, Memory>
    requires { 0 < step }
{
    let mut source = MemSource::new(Vec::from_slice(alloc, script)?, step, Vec::new(alloc));
    read_all(alloc, &mut source)
}

/// A text with another so many times between two.
pub fn repeated(
    alloc: Global,
    front: &[u8],
    middle: &[u8],
    count: usize,
    back: &[u8],
) -> Result<Vec<u8>, Memory> {
    let mut bytes = Vec::from_slice(alloc, front)?;
    for _ in 0..count {
        bytes.extend_from_slice(middle)?;
    }
    bytes.extend_from_slice(back)?;
    Ok(bytes)
}
