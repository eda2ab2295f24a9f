// The statuses of the program.
ghost use Rattle.std.specs.Prelude.{◌≡◌};
ghost use Rattle.mdc_shell.specs.Check.{status_of_verdict};
ghost use Rattle.mdc_shell.specs.Status.{status_of, status_of_created};

use crate::checking::stop_of;
use crate::create::Created;
use file_check::Verdict;
use file_verdict::Unjudged;
use session::{Served, Stop};

/// The status that the program ends with.
#[derive(Clone, Copy, Debug, PartialEq, Eq)]
pub struct Status(pub u8);

impl Status {
    /// All that was asked for is done.
    pub const DONE: Status = Status(0);

    /// The script was read to its end, and a statement was refused.
    pub const REFUSED: Status = Status(1);

    /// The words are no command line.
    pub const USAGE: Status = Status(2);

    /// The disk failed.
    pub const DISK_FAILED: Status = Status(3);

    /// A read of the source failed.
    pub const UNREAD: Status = Status(4);

    /// The host failed to take what was said.
    pub const UNSAID: Status = Status(5);

    /// The file is refused: to be made, it has a byte already; to be run or checked, it is no database of this version.
    pub const FILE_REFUSED: Status = Status(6);

    /// The script has more bytes than its limit.
    pub const TOO_LONG: Status = Status(7);

    /// Want of memory.
    pub const MEMORY: Status = Status(8);

    /// A page of the file breaks a rule.
    pub const DAMAGED: Status = Status(9);

    /// The status of a script that was read to its end, with a refusal or without, or stopped.
    pub fn of(end: &Result<Served, Stop>) -> Status
        ensures { result.0 ≡ status_of end.now }
    {
        match end {
            Ok(Served::AllDone) => Status::DONE,
            Ok(Served::SomeRefused) => Status::REFUSED,
            Err(Stop::Device) => Status::DISK_FAILED,
            Err(Stop::Unread) => Status::UNREAD,
            Err(Stop::Unsaid) => Status::UNSAID,
            Err(Stop::Unmade) | Err(Stop::NotMdc) | Err(Stop::Version(_)) => Status::FILE_REFUSED,
            Err(Stop::TooLong) => Status::TOO_LONG,
            Err(Stop::Memory) => Status::MEMORY,
            Err(Stop::Damaged(_)) => Status::DAMAGED,
        }
    }

    /// The status of a check.
    pub fn of_verdict(verdict: &Result<Verdict, Unjudged>) -> Status
        ensures { result.0 ≡ status_of_verdict verdict.now }
    {
        match verdict {
            Ok(Verdict::Sound) => Status::DONE,
            Ok(Verdict::Broken(_)) => Status::DAMAGED,
            Err(why) => Status::of(&Err(stop_of(*why))),
        }
    }

    /// The status of a create.
    pub fn of_created(created: Created) -> Status
        ensures { result.0 ≡ status_of_created created }
    {
        match created {
            Created::Made => Status::DONE,
            Created::DiskFailed => Status::DISK_FAILED,
            Created::Unsaid => Status::UNSAID,
            Created::Exists => Status::FILE_REFUSED,
        }
    }
}
