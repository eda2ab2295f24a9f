// The calls of a disk, by what they may tear.
ghost use Rattle.std.specs.Prelude.{◌≡◌, ◌≤◌, ◌+◌, length, take, drop, IsErr, IsTrue, OnOk, IfOk};
ghost use Rattle.std.specs.Option.{option_map, ForSome};
ghost use Rattle.mdc_outside.specs.Disk.{torn, written, settled};
ghost use Rattle.mdc_words.specs.Faults.{CountsFault};
ghost use Rattle.page_file.specs.Bound.{RunsOf};
ghost use Rattle.page_file.specs.Runs.{IsWithin, IsCovered};

use mdc_outside::{Disk, Failed};

/// Writes over what is there, and past the end. A crash may leave any bytes in what was written until `settle` answers.
///
/// It answers `Failed` only where the disk did. What was written may then hold any bytes, or the call came to nothing.
pub fn put<D: Disk>(disk: &mut D, at: u64, bytes: &[u8]) -> Result<(), Failed>
    requires attached { IsTrue (D.is_attached disk.old) }
    requires within { ForSome (D.file disk.old) (λ file. at ≤ length file.bytes) }
    ensures written { OnOk result (D.file disk.new ≡ option_map (written at bytes.now) (D.file disk.old)) }
    ensures runs { RunsOf D.Disk IsCovered (torn at (length bytes.now)) disk.old disk.new }
    ensures cause { CountsFault (IsErr result) (D.disk_faults disk.old) (D.disk_faults disk.new) }
{
    disk.write(at, bytes)
}

/// Has all that was written on the disk: from now on a crash leaves it as a read gives it.
///
/// It answers `Failed` only where the disk did. What was written before may then hold any bytes.
pub fn settle<D: Disk>(disk: &mut D) -> Result<(), Failed>
    requires { IsTrue (D.is_attached disk.old) }
    ensures settled { OnOk result (D.file disk.new ≡ option_map settled (D.file disk.old)) }
    ensures runs { RunsOf D.Disk IsWithin (λ since. since) disk.old disk.new }
    ensures cause { CountsFault (IsErr result) (D.disk_faults disk.old) (D.disk_faults disk.new) }
{
    disk.sync()
}

/// Answers where the file ends. It changes nothing in the file, and answers `Failed` only where the disk did.
pub fn end_of<D: Disk>(disk: &mut D) -> Result<u64, Failed>
    requires { IsTrue (D.is_attached disk.old) }
    ensures end { IfOk result (λ n. ForSome (D.file disk.old) (λ file. n ≡ length file.bytes)) }
    ensures same { D.file disk.new ≡ D.file disk.old }
    ensures runs { RunsOf D.Disk IsCovered (λ since. since) disk.old disk.new }
    ensures cause { CountsFault (IsErr result) (D.disk_faults disk.old) (D.disk_faults disk.new) }
{
    disk.len()
}

/// Fills `out` with the bytes from a place on. It changes nothing in the file, and answers `Failed` only where the disk
/// did.
pub fn get<D: Disk>(disk: &mut D, at: u64, out: &mut [u8]) -> Result<(), Failed>
    requires attached { IsTrue (D.is_attached disk.old) }
    requires within { ForSome (D.file disk.old) (λ file. at + length out.old ≤ length file.bytes) }
    ensures read { OnOk result (ForSome (D.file disk.old) (λ file. out.new ≡ take (length out.old) (drop at file.bytes))) }
    ensures same { D.file disk.new ≡ D.file disk.old }
    ensures runs { RunsOf D.Disk IsCovered (λ since. since) disk.old disk.new }
    ensures cause { CountsFault (IsErr result) (D.disk_faults disk.old) (D.disk_faults disk.new) }
{
    disk.read(at, out)
}
