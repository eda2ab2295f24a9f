// Where replies go.
ghost use Rattle.std.specs.Prelude.{◌≡◌, ◌⊎◌, [], ℕ, List, Option, IsErr, OnOk, OnErr};
ghost use Rattle.mdc_outside.specs.Outside.{Takes, TakesPart};
ghost use Rattle.mdc_outside.specs.Moments.{IsWithinCall, LeavesEachPart};
ghost use Rattle.mdc_words.specs.Faults.{CountsFault};
ghost use Rattle.mdc_words.specs.Time.{OverTime};

use crate::{Disk, Failed};

/// What the engine speaks to: a disk, and a tape of replies beside it.
pub trait Host: Disk {
    /// The tape: all bytes said so far, where the host tells them.
    ghost tape: { Self → Option (List ℕ) };

    /// How many calls of `say` have failed. It never falls, and only a call that fails adds to it.
    ghost say_faults: { Self → ℕ };

    /// Appends all of the bytes to the tape. After `Failed` the tape has taken some first part of them.
    fn say(&mut self, bytes: &[u8]) -> Result<(), Failed>
        ensures said { OnOk result (Takes (tape self.old) bytes.now (tape self.new)) }
        ensures part { OnErr result (TakesPart (tape self.old) bytes.now (tape self.new)) }
        ensures cause { CountsFault (IsErr result) (say_faults self.old) (say_faults self.new) }
        ensures file { Self.file self.new ≡ Self.file self.old }
        ensures attached { Self.is_attached self.new ≡ Self.is_attached self.old }
        ensures listed { Self.attaches self.new ≡ Self.attaches self.old }
        ensures disk_count { Self.disk_faults self.new ≡ Self.disk_faults self.old }
        // A crash within it leaves at most a first part of the bytes on the tape,
        ensures time { OverTime Self.clock Self.moment (IsWithinCall (Self.file self.old) (tape self.old) bytes.now) self.old self.new }
        // and each of them may be left,
        ensures parts { OnOk result (LeavesEachPart (Self.file self.old) (tape self.old) bytes.now (Self.moment self.new (Self.clock self.old))) }
        // unless the call came to nothing.
        ensures parts_failed { OnErr result (LeavesEachPart (Self.file self.old) (tape self.old) bytes.now (Self.moment self.new (Self.clock self.old))
            ⊎ OverTime Self.clock Self.moment (IsWithinCall (Self.file self.old) (tape self.old) []) self.old self.new) };

    /// The tape is the one beside the disk, and so is its count of faults.
    ghost lies_beside: { (host : Self) → ((Self.beside host).tape ≡ tape host) × ((Self.beside host).say_faults ≡ say_faults host) };
}
