// A call of a host in memory, as the host records it.
ghost use Rattle.std.specs.Prelude.{◌≡◌};

use mdc_values::Chars;

/// A recorded call, with its place in the file.
#[derive(Clone, Copy, Debug, PartialEq, Eq)]
pub enum Call {
    Attach,
    Len,
    Read(u64),
    Write(u64),
    Sync,
    Say,
}

// What a call asked for: an attach has its path and `make`, a write its place and bytes, a say its piece.
#[derive(Debug, Drop)]
pub enum Event {
    Attach(Chars, bool),
    Len,
    Read(u64),
    Write(u64, Chars),
    Sync,
    Say(Chars),
}

// A call and whether it was done. One that wasn't answered `Failed`.
#[derive(Debug, Drop)]
pub struct Entry {
    pub event: Event,
    pub done: bool,
}

impl Entry {
    ghost use Rattle.mdc_outside.specs.Aftermath.{makes_file};
    ghost use Rattle.mdc_outside.specs.Calls.{call_of};

    // The call, with its place in the file.
    pub fn call(&self) -> Call
        ensures { result ≡ call_of self.now }
    {
        match &self.event {
            Event::Attach(_, _) => Call::Attach,
            Event::Len => Call::Len,
            Event::Read(at) => Call::Read(*at),
            Event::Write(at, _) => Call::Write(*at),
            Event::Sync => Call::Sync,
            Event::Say(_) => Call::Say,
        }
    }

    // Whether it makes the file where there is none: a write does so even if it fails.
    pub fn makes_file(&self) -> bool
        ensures { result ≡ makes_file self.now }
    {
        match &self.event {
            Event::Attach(_, _) => self.done,
            Event::Write(_, _) => true,
            Event::Len | Event::Read(_) | Event::Sync | Event::Say(_) => false,
        }
    }
}
