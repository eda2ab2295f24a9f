// Stand-ins for standard streams that the program was started without.
ghost use Rattle.std.specs.Prelude.{◌↔◌, ◌≤ℤ◌, IfSome, IsSome};

use std::fs::{self, OpenOptions};
use std::io;
use std::os::fd::{AsRawFd, RawFd};
use std::rt::Files;

// A file of every system, which holds nothing.
const NULL: &str = "/dev/null";

// The numbers of standard input and of standard error, which is the last of the three streams.
const INPUT: RawFd = 0;

const ERROR: RawFd = 2;

/// Where the program was started without a standard stream, the next file that it opens gets that stream's number, and
/// replies would go into a database. So stand-ins take such numbers before any file is opened: one that can't be read for
/// standard input, and ones that can't be written for the outputs. They last until they are dropped.
#[derive(Drop)]
pub struct StandIns<F> {
    input: Option<F>,
    outputs: [Option<F>; 2],
}

impl<F: AsRawFd + Drop> StandIns<F> {
    /// Takes the numbers that no stream has. A file gets the lowest number that is free.
    pub fn take<R: Files<File = F>>(files: &R) -> io::Result<StandIns<F>> {
        let unread = OpenOptions::new().write(true).open(files, NULL)?;
        let input = kept(unread, INPUT);
        let first = kept(fs::open(files, NULL)?, ERROR);
        let second = kept(fs::open(files, NULL)?, ERROR);
        Ok(StandIns {
            input,
            outputs: [first, second],
        })
    }
}

// Keeps a file whose number is one of a stream, and closes any other.
fn kept<F: AsRawFd + Drop>(file: F, last: RawFd) -> Option<F>
    ensures { IfSome (F.raw_fd file) (λ number. IsSome result ↔ (number ≤ℤ last)) }
{
    (file.as_raw_fd() <= last).then_some(file)
}
