// The script on standard input.
ghost use Rattle.std.specs.Prelude.{◌≡◌, ◌↔◌, ◌<◌, ◌≤◌, None, IfOk, IsSome, length};

use crate::faults::Faults;
use mdc_outside::{Failed, Source};
use std::io::{self, ErrorKind, Read};

/// A script on standard input.
#[derive(Drop)]
pub struct StdinSource<R> {
    input: R,
    faults: Faults,
}

impl<R: Read + Drop> StdinSource<R> {
    /// A source that reads what the input has left, with no fault counted.
    pub fn new(input: R) -> StdinSource<R>
        ensures { ⟦<StdinSource<R> as Source>⟧.read_faults result ≡ 0 }
    {
        StdinSource {
            input,
            faults: Faults::new(),
        }
    }

    /// Why the last read that failed did: it is there exactly where one has failed.
    pub fn read_error(&self) -> Option<io::Error>
        ensures { IsSome result ↔ (0 < ⟦<StdinSource<R> as Source>⟧.read_faults self.now) }
    {
        self.faults.last()
    }
}

impl<R: Read + Drop> Source for StdinSource<R> {
    ghost left = { λ _. None };

    ghost read_faults = { λ source. source.faults.count };

    fn read(&mut self, out: &mut [u8]) -> Result<usize, Failed> {
        let outcome = read_through_signals(&mut self.input, out);
        self.faults.counted(outcome)
    }
}

// Reads again as often as a signal cuts a read short.
fn read_through_signals<R: Read>(input: &mut R, out: &mut [u8]) -> io::Result<usize>
    ensures { IfOk result (λ count. count ≤ length out.new) }
{
    for _ in 0..u64::MAX {
        match input.read(out) {
            Err(error) if error.kind() == ErrorKind::Interrupted => {}
            outcome => return outcome,
        }
    }
    Err(ErrorKind::Interrupted.into())
}
