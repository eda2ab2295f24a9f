// The items of a script, as its bytes come in.
ghost use Rattle.std.specs.Prelude.{◌≡◌, ◌<◌, ◌≤◌, [], ◌∷◌, ◌++◌, ◌+◌, List, ℕ, drop, length, slice_range, vec_len, vec_capacity, Some, None, true, false, ◌⊎◌, IfOk, IfErr, IfSome, IsErrOf};
ghost use Rattle.mdc_words.specs.Faults.{Rose};
ghost use Rattle.sql_reader.specs.Holding.{nothing_held, work_left};
ghost use Rattle.sql_reader.specs.Items.{IsItemIn};
ghost use Rattle.sql_reader.specs.Progress.{Progress, Took, at_start};
ghost use Rattle.sql_reader.specs.Scan.{place_after, place_behind};
ghost use Rattle.sql_reader.specs.Standing.{Covers, IsAt};
ghost use Rattle.sql_reader.specs.Step.{GoesOn};
ghost use Rattle.sql_reader.specs.declared.place.Place.TheVariants.{Outside};
ghost use Rattle.sql_reader.specs.declared.statements.ReadStop.TheVariants as stop;

use crate::item::{STATEMENT_LIMIT, item_in, too_long};
use crate::place::{Place, scan};
use crate::trim::needed;
use mdc_ast::{Refusal, Stmt};
use mdc_outside::{Failed, Source};
use mdc_values::{Boxed, Memory};
use std::alloc::{AllocError, Global};
use std::marker::Model;

/// The greatest number of bytes of a script.
pub const SCRIPT_LIMIT: usize = 67_108_864;

/// The greatest number of bytes that one read asks for.
const READ_SIZE: usize = 4_096;

/// An item of a script.
#[derive(Debug, Drop)]
pub enum Read {
    Stmt(Boxed<Stmt>),
    Refused(Refusal),
}

/// Why no item can be given.
#[derive(Clone, Copy, Debug, PartialEq, Eq)]
pub enum ReadStop {
    /// A read of the source failed.
    Source,
    /// The script has more bytes than its limit.
    TooLong,
    Memory,
}

impl From<Memory> for ReadStop {
    ghost from_gives = { λ _ e. e ≡ stop.Memory };

    fn from(_: Memory) -> Self {
        ReadStop::Memory
    }
}

impl From<AllocError> for ReadStop {
    ghost from_gives = { λ _ e. e ≡ stop.Memory };

    fn from(_: AllocError) -> Self {
        ReadStop::Memory
    }
}

impl From<Failed> for ReadStop {
    ghost from_gives = { λ _ e. e ≡ stop.Source };

    fn from(_: Failed) -> Self {
        ReadStop::Source
    }
}

/// A reader of a script, which keeps one statement at a time. Contracts see what it holds (`specs/Holding.antt`), and how far
/// it may be in a script that holds this (`specs/Standing.antt`).
#[derive(Debug, Drop)]
pub struct Statements {
    /// The bytes kept: first those that are done with, then those of the piece at hand, then those ahead.
    held: Vec<u8>,
    /// Where the piece at hand begins.
    start: usize,
    /// How far the piece at hand was scanned, and the place there. No byte is scanned twice.
    scanned: usize,
    place: Place,
    /// Whether the statement at hand is too long. Its bytes aren't kept.
    long: bool,
    /// How many bytes were taken in all.
    count: usize,
    /// Whether the last piece is done with.
    finished: bool,
    alloc: Global,
}

impl Model for Statements {
    ghost use Rattle.sql_reader.specs.Holding.{Holding};

    ghost Value = { Holding };

    ghost use Rattle.sql_reader.specs.Held.{holding_of, IsSoundReader};

    ghost view = { holding_of };

    ghost invariant = { IsSoundReader };
}

impl Statements {
    /// A reader that took nothing. Today it takes memory only from the first read on, so that this always succeeds; no
    /// clause promises it.
    pub fn new(alloc: Global) -> Result<Statements, Memory>
        ensures held { IfOk result (λ reader. reader ≡ nothing_held) }
        ensures at { IfOk result (λ reader. IsAt reader at_start) }
    {
        Ok(Statements {
            held: Vec::new(alloc),
            start: 0,
            scanned: 0,
            place: Place::Outside,
            long: false,
            count: 0,
            finished: false,
            alloc,
        })
    }

    /// How many bytes of the script are in memory.
    pub fn kept(&self) -> usize
        ensures kept { result ≡ self.now.kept }
        ensures few { result ≤ 69632 }
        ensures within { length self.now.scanned + length self.now.ahead ≤ result }
    {
        self.held.len()
    }

    /// The next item, or `None` at the end of the script. It reads on only where no closed statement waits in what
    /// it holds, and asks for the byte past the limit only then. A read that failed is answered `Source` at once. After
    /// `TooLong` it takes no further call.
    pub fn next<I: Source>(&mut self, source: &mut I) -> Result<Option<Read>, ReadStop>
        requires { self.old.count ≤ 67108864 }

        // From wherever it may be, it goes on to where it may be then.
        ensures goes { (old : Progress) → IsAt self.old old
            → (new : Progress) × IsAt self.new new × GoesOn I.left source.old source.new old new result }

        // It keeps one statement and one read.
        ensures kept { self.new.kept ≤ 69632 }

        // The limit is passed only where it is told, and by one byte. Once the script has ended nothing is read.
        ensures within { (self.new.count ≤ 67108864) ⊎ (IsErrOf result ReadStop.TooLong × (self.new.count ≡ 67108865)) }
        ensures finished { self.old.finished ≡ true → source.new ≡ source.old }

        // A read that failed is answered `Source` in that very call, and no other.
        ensures source { IsErrOf result ReadStop.Source → Rose (I.read_faults source.old) (I.read_faults source.new) }
        ensures no_fault { IsErrOf result ReadStop.Source ⊎ (I.read_faults source.new ≡ I.read_faults source.old) }
        ensures count { I.read_faults source.old ≤ I.read_faults source.new }

        // With each item less is left to go over.
        ensures progress { IfOk result (λ found. IfSome found (λ _. work_left self.new < work_left self.old)) }
    {
        if self.finished {
            return Ok(None);
        }
        loop {
            if self.find_end() {
                if let Some(read) = self.next_closed()? {
                    return Ok(Some(read));
                }
                continue;
            }
            self.shrink();
            if !self.fill(source)? {
                let last = self.next_last()?;
                return Ok(last);
            }
        }
    }

    /// Scans to the next semicolon that cuts, or over all that is ahead where there is none, and answers whether there is one.
    fn find_end(&mut self) -> bool
        ensures same { self.new ≡ record self.old { scanned = self.new.scanned; ahead = self.new.ahead; place = self.new.place } }
        ensures over { (piece : List ℕ) × (self.old.ahead ≡ piece ++ self.new.ahead) × (self.new.scanned ≡ self.old.scanned ++ piece)
            × (place_behind self.old.place piece ≡ Some self.new.place) }
        ensures found { result ≡ true → (rest : List ℕ) × (self.new.ahead ≡ 59 ∷ rest) × (place_after self.new.place 59 ≡ None) }
        ensures none { result ≡ false → self.new.ahead ≡ [] }
        ensures few { length self.new.ahead ≤ 4096 }
    {
        let reach = scan(&self.held[self.scanned..], self.place);
        self.scanned += reach.count;
        self.place = reach.place;
        self.scanned < self.held.len()
    }

    /// The item of the piece at hand, or `None` where it has no statement.
    fn item(&self) -> Result<Option<Read>, Memory>
        ensures { IfOk result (λ found. (piece : List ℕ) → Covers self.now.long self.now.scanned piece → IsItemIn piece found) }
    {
        if self.long {
            return Ok(Some(Read::Refused(too_long(self.alloc))));
        }
        item_in(self.alloc, &self.held[self.start..self.scanned])
    }

    /// The item of the piece that the semicolon ahead closes, or `None` where it has no statement. It goes to the piece
    /// behind it. An `Err` changes nothing.
    fn next_closed(&mut self) -> Result<Option<Read>, Memory>
        requires { 0 < length self.old.ahead }
        ensures item { IfOk result (λ found. (piece : List ℕ) → Covers self.old.long self.old.scanned piece → IsItemIn piece found) }
        ensures passed { IfOk result (λ _. self.new ≡ record self.old { scanned = []; ahead = drop 1 self.old.ahead; place = Outside; long = false }) }
        ensures err { IfErr result (λ _. self.new ≡ self.old) }
    {
        let found = self.item()?;
        self.pass();
        Ok(found)
    }

    /// Goes to the piece behind the semicolon ahead.
    fn pass(&mut self)
        requires { 0 < length self.old.ahead }
        ensures { self.new ≡ record self.old { scanned = []; ahead = drop 1 self.old.ahead; place = Outside; long = false } }
    {
        self.scanned += 1;
        self.start = self.scanned;
        self.place = Place::Outside;
        self.long = false;
    }

    /// Keeps what the item of the piece at hand may still need: no blank and no comment before its statement, and nothing
    /// of a statement that is too long.
    fn shrink(&mut self)
        requires { self.old.ahead ≡ [] }
        ensures same { self.new ≡ record self.old { scanned = self.new.scanned; long = self.new.long; kept = length self.new.scanned } }
        ensures few { length self.new.scanned ≤ 65536 }
        ensures covers { (bytes : List ℕ) → Covers self.old.long self.old.scanned bytes → Covers self.new.long self.new.scanned bytes }
    {
        let span = needed(&self.held[self.start..self.scanned]);
        if self.long || span.end - span.begin > STATEMENT_LIMIT {
            self.forget();
            return;
        }
        keep(
            &mut self.held,
            self.start + span.begin,
            self.start + span.end,
        );
        self.start = 0;
        self.scanned = self.held.len();
    }

    /// Keeps nothing of the piece at hand, whose statement is too long.
    fn forget(&mut self)
        requires { self.old.ahead ≡ [] }
        ensures { self.new ≡ record self.old { scanned = []; long = true; kept = 0 } }
    {
        self.held.clear();
        self.start = 0;
        self.scanned = 0;
        self.long = true;
    }

    /// The item of the last piece, or `None` where it has no statement. An `Err` changes nothing.
    fn next_last(&mut self) -> Result<Option<Read>, Memory>
        ensures item { IfOk result (λ found. (piece : List ℕ) → Covers self.old.long self.old.scanned piece → IsItemIn piece found) }
        ensures ended { IfOk result (λ _. self.new ≡ record self.old { finished = true }) }
        ensures err { IfErr result (λ _. self.new ≡ self.old) }
    {
        let found = self.item()?;
        self.finished = true;
        Ok(found)
    }

    /// Takes the next bytes off the source, and answers whether there were any. Once as many as the limit were taken it
    /// asks for one byte, to see whether the script goes on.
    fn fill<I: Source>(&mut self, source: &mut I) -> Result<bool, ReadStop>
        requires scanned { self.old.ahead ≡ [] }
        requires room { (self.old.kept ≡ length self.old.scanned) × (length self.old.scanned ≤ 65536) }
        requires within { self.old.count ≤ SCRIPT_LIMIT }
        ensures same { self.new ≡ record self.old { ahead = self.new.ahead; kept = self.old.kept + length self.new.ahead; count = self.old.count + length self.new.ahead } }
        ensures taken { Took (I.left source.old) [] (I.left source.new) self.new.ahead }
        ensures one_read { length self.new.ahead ≤ READ_SIZE }
        ensures more { result ≡ Ok true → (0 < length self.new.ahead) × (self.new.count ≤ SCRIPT_LIMIT) }
        ensures end { result ≡ Ok false → (self.new.ahead ≡ []) × IfSome (I.left source.new) (λ bytes. bytes ≡ []) }
        ensures source { IsErrOf result ReadStop.Source → (self.new.ahead ≡ []) × Rose (I.read_faults source.old) (I.read_faults source.new) }
        ensures too_long { IsErrOf result ReadStop.TooLong → (self.old.count ≡ SCRIPT_LIMIT) × (length self.new.ahead ≡ 1) }
        ensures memory { IsErrOf result ReadStop.Memory → self.new.ahead ≡ [] }
        ensures no_fault { IsErrOf result ReadStop.Source ⊎ (I.read_faults source.new ≡ I.read_faults source.old) }
        ensures count { I.read_faults source.old ≤ I.read_faults source.new }
    {
        // Room comes first, so that no byte is lost.
        self.held.reserve(READ_SIZE)?;
        let room = SCRIPT_LIMIT - self.count;
        let size = room.clamp(1, READ_SIZE);
        let mut buffer = [0; READ_SIZE];
        let count = source.read(&mut buffer[..size])?;
        append(&mut self.held, &buffer[..count]);
        self.count += count;
        if self.count > SCRIPT_LIMIT {
            return Err(ReadStop::TooLong);
        }
        Ok(count > 0)
    }
}

/// Appends bytes where there is room for them.
fn append(held: &mut Vec<u8>, bytes: &[u8])
    requires { vec_len held.old + length bytes.now ≤ vec_capacity held.old }
    ensures { held.new.items ≡ held.old.items ++ bytes.now }
{
    let _ = held.extend_from_slice(bytes);
}

/// Keeps the bytes from one place to another alone. They are moved only where others stand before them.
fn keep(held: &mut Vec<u8>, begin: usize, end: usize)
    requires { (begin ≤ end) × (end ≤ length held.old.items) }
    ensures { held.new.items ≡ slice_range held.old.items begin end }
{
    held.truncate(end);
    if begin > 0 {
        held.copy_within(begin.., 0);
        held.truncate(end - begin);
    }
}
