// The home pages: where the pages of the store lie in the file.
ghost use Rattle.std.specs.Prelude.{◌≡◌, IsErr, IsTrue, OnOk};
ghost use Rattle.std.specs.Option.{ForSome};
ghost use Rattle.mdc_words.specs.Faults.{CountsFault};
ghost use Rattle.page_file.specs.Bound.{RunsOf, LeavesOf};
ghost use Rattle.page_file.specs.Layout.{IsReady, FrontStays};
ghost use Rattle.redo_journal.specs.Layout.{HoldsHome, torn_home};
ghost use Rattle.redo_journal.specs.Pieces.{homed};
ghost use Rattle.page_file.specs.Runs.{IsWithin, Between};

use crate::LentImages;
use mdc_outside::{Disk, Failed};
use page_file::{FIRST_PAGE, PAGE_BYTES, end_of, fill, put, settle};

/// Writes each image in its place, and has all on the disk. Where the file ends before a place, zeros stand up to it.
///
/// It answers `Failed` only where the disk did. Only the home pages of the images and what is behind the file's old end
/// may then be other than before.
pub fn home<D: Disk>(disk: &mut D, images: &LentImages<'_>) -> Result<(), Failed>
    requires attached { IsTrue (D.is_attached disk.old) }
    requires ready { ForSome (D.file disk.old) IsReady }
    ensures home { OnOk result (ForSome (D.file disk.new) (HoldsHome images.now)) }
    ensures written { OnOk result (Between (D.file disk.old) (D.file disk.new) (λ old new. new ≡ homed images.now old)) }
    ensures runs { RunsOf D.Disk IsWithin (torn_home images.now) disk.old disk.new }
    ensures front { LeavesOf D.Disk (λ before. FrontStays before.bytes) disk.old disk.new }
    ensures cause { CountsFault (IsErr result) (D.disk_faults disk.old) (D.disk_faults disk.new) }
{
    let mut end = end_of(disk)?;
    for i in 0..images.len() {
        let (number, page) = images.at(i);
        let place = (FIRST_PAGE + u64::from(number)) * PAGE_BYTES;
        fill(disk, end, place)?;
        put(disk, place, page)?;
        end = end.max(place + PAGE_BYTES);
    }
    settle(disk)
}
