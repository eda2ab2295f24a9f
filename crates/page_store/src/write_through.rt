// The calls by which images reach the file, whole or not at all.
ghost use Rattle.std.specs.Prelude.{◌≡◌, ◌≤◌, ◌<◌, [], IsTrue, length, IsOk, OnOk, IsErrOf, IsErr};
ghost use Rattle.std.specs.Option.{ForSome, option_map};
ghost use Rattle.std.specs.List.{All};
ghost use Rattle.mdc_words.specs.Faults.{CountsFault};
ghost use Rattle.page_file.specs.Bound.{LeavesOf};
ghost use Rattle.page_store.specs.Commit.{BothFiles, IsReadyFor, IsCounting, IsClosed, IsCommitted, IsJournaled, NoLonger, ReachesTo, StandsStill, StandsEither, HomeStays, RestsWith, pages_with};
ghost use Rattle.page_store.specs.Opened.{brought_home, file_bytes};
ghost use Rattle.page_store.specs.Standing.{IsFormed, Stands};
ghost use Rattle.page_file.specs.declared.layout.TheConstants.{FIRST_PAGE};

use mdc_outside::{Disk, Failed};
use redo_journal::{LentImages, close_gate, home, open_gate, write_journal};

/// How far a commit came that failed.
#[derive(Clone, Copy, Debug, PartialEq, Eq)]
pub(crate) enum Halt {
    /// The home pages are as they were.
    BeforeHome,
    /// The journal counts, whatever the home pages hold.
    BehindGate,
}

/// Writes images into the file by way of a journal that starts at this file page. Where there are none, it makes no call
/// of the disk. It takes no memory. The file then reaches no further than the journal does.
pub(crate) fn write_any<D: Disk>(
    disk: &mut D,
    start: u32,
    images: &LentImages<'_>,
) -> Result<(), Halt>
    requires attached { IsTrue (D.is_attached disk.old) }
    requires ready { ForSome (D.file disk.old) (IsReadyFor start images.now) }
    requires behind_gates { FIRST_PAGE ≤ start }
    requires named { All (λ image. image.0 < start) images.now }
    ensures quiet { images.now ≡ [] → IsOk result × (disk.new ≡ disk.old) }
    ensures committed { OnOk result (BothFiles (D.file disk.old) (D.file disk.new) (IsCommitted images.now)) }
    ensures stays { IsErrOf result Halt.BeforeHome → BothFiles (D.file disk.old) (D.file disk.new) (λ before after. HomeStays before.bytes after.bytes) }
    ensures counts { IsErrOf result Halt.BehindGate → BothFiles (D.file disk.old) (D.file disk.new) (RestsWith images.now) }
    ensures leaves { LeavesOf D.Disk (StandsEither images.now) disk.old disk.new }
    ensures reach { LeavesOf D.Disk (ReachesTo start (length images.now)) disk.old disk.new }
    ensures cause { CountsFault (IsErr result) (D.disk_faults disk.old) (D.disk_faults disk.new) }
{
    if images.len() == 0 {
        return Ok(());
    }
    write_through(disk, start, images)
}

// Writes images into the file by way of a journal, also where there are none.
fn write_through<D: Disk>(disk: &mut D, start: u32, images: &LentImages<'_>) -> Result<(), Halt>
    requires attached { IsTrue (D.is_attached disk.old) }
    requires ready { ForSome (D.file disk.old) (IsReadyFor start images.now) }
    requires behind_gates { FIRST_PAGE ≤ start }
    requires few { length images.now < 4294967296 }
    ensures committed { OnOk result (BothFiles (D.file disk.old) (D.file disk.new) (IsCommitted images.now)) }
    ensures stays { IsErrOf result Halt.BeforeHome → BothFiles (D.file disk.old) (D.file disk.new) (λ before after. HomeStays before.bytes after.bytes) }
    ensures counts { IsErrOf result Halt.BehindGate → BothFiles (D.file disk.old) (D.file disk.new) (RestsWith images.now) }
    ensures leaves { LeavesOf D.Disk (StandsEither images.now) disk.old disk.new }
    ensures reach { LeavesOf D.Disk (ReachesTo start (length images.now)) disk.old disk.new }
    ensures cause { CountsFault (IsErr result) (D.disk_faults disk.old) (D.disk_faults disk.new) }
{
    match commit_to_journal(disk, start, images) {
        Err(Failed) => Err(Halt::BeforeHome),
        Ok(()) => match bring_home(disk, images) {
            Err(Failed) => Err(Halt::BehindGate),
            Ok(()) => Ok(()),
        },
    }
}

// Writes the journal and opens its gate. The home pages stay as they are.
fn commit_to_journal<D: Disk>(
    disk: &mut D,
    start: u32,
    images: &LentImages<'_>,
) -> Result<(), Failed>
    requires attached { IsTrue (D.is_attached disk.old) }
    requires ready { ForSome (D.file disk.old) (IsReadyFor start images.now) }
    requires behind_gates { FIRST_PAGE ≤ start }
    requires few { length images.now < 4294967296 }
    ensures counts { OnOk result (BothFiles (D.file disk.old) (D.file disk.new)
        (λ before after. IsCounting images.now after × Stands before.bytes (pages_with images.now before.bytes) after.bytes)) }
    ensures leaves { LeavesOf D.Disk (λ before. IsJournaled images.now before.bytes) disk.old disk.new }
    ensures reach { LeavesOf D.Disk (ReachesTo start (length images.now)) disk.old disk.new }
    ensures cause { CountsFault (IsErr result) (D.disk_faults disk.old) (D.disk_faults disk.new) }
{
    write_journal(disk, start, images)?;
    open_gate(disk)
}

/// Writes home the images of a journal that counts, and closes its gate.
pub(crate) fn bring_home<D: Disk>(disk: &mut D, images: &LentImages<'_>) -> Result<(), Failed>
    requires attached { IsTrue (D.is_attached disk.old) }
    requires counts { ForSome (D.file disk.old) (IsCounting images.now) }
    requires formed { ForSome (D.file disk.old) (λ file. IsFormed file.bytes) }
    ensures closed { OnOk result (ForSome (D.file disk.new) IsClosed) }
    ensures brought { OnOk result (file_bytes (D.file disk.new) ≡ option_map (brought_home images.now) (file_bytes (D.file disk.old))) }
    ensures leaves { LeavesOf D.Disk StandsStill disk.old disk.new }
    ensures reach { LeavesOf D.Disk NoLonger disk.old disk.new }
    ensures cause { CountsFault (IsErr result) (D.disk_faults disk.old) (D.disk_faults disk.new) }
{
    home(disk, images)?;
    close_gate(disk)
}
