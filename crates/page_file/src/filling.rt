// Zeros behind the end of a file.
ghost use Rattle.std.specs.Prelude.{◌≡◌, ◌-◌, ◌++◌, length, replicate, IsErr, IsTrue, OnOk};
ghost use Rattle.std.specs.Option.{ForSome};
ghost use Rattle.mdc_outside.specs.Disk.{torn};
ghost use Rattle.mdc_words.specs.Faults.{CountsFault};
ghost use Rattle.page_file.specs.Bound.{RunsOf};
ghost use Rattle.page_file.specs.Runs.{IsCovered, Between};

use crate::blank::zeros;
use crate::calls::put;
use crate::layout::PAGE_BYTES;
use mdc_outside::{Disk, Failed};

/// Writes zeros from the file's end up to a place, where the file ends before it. They are on the disk after a `settle`.
///
/// It answers `Failed` only where the disk did. A first part of the zeros may then be written.
pub fn fill<D: Disk>(disk: &mut D, from: u64, to: u64) -> Result<(), Failed>
    requires attached { IsTrue (D.is_attached disk.old) }
    requires end { ForSome (D.file disk.old) (λ file. from ≡ length file.bytes) }
    ensures filled { OnOk result (Between (D.file disk.old) (D.file disk.new) (λ old new. new ≡ old ++ replicate (to - from) 0)) }
    ensures runs { RunsOf D.Disk IsCovered (torn from (to - from)) disk.old disk.new }
    ensures cause { CountsFault (IsErr result) (D.disk_faults disk.old) (D.disk_faults disk.new) }
{
    let mut end = from;
    while end < to {
        let count = (to - end).min(PAGE_BYTES);
        put(disk, end, zeros(count as usize))?;
        end += count;
    }
    Ok(())
}
