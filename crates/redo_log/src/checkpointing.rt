// The records are brought home, and gates are closed.
ghost use Rattle.std.specs.Prelude.{◌≡◌, ◌≤◌, ◌<◌, ◌+◌, length, min, IsErr, IsTrue, OnOk, OnErr};
ghost use Rattle.std.specs.Option.{ForSome};
ghost use Rattle.mdc_words.specs.Faults.{CountsFault};
ghost use Rattle.page_file.specs.Bound.{LeavesOf};
ghost use Rattle.mdc_outside.specs.Disk.{all_synced};
ghost use Rattle.redo_log.specs.Checkpointing.{AreOverlay, IsClosed, IsStill, LeavesStrays, OnlyHome, StandsStill};
ghost use Rattle.redo_log.specs.Layout.{HasRecords};
ghost use Rattle.redo_log.specs.declared.layout.TheConstants.{LOG_GATES, GATES_END};
ghost use Rattle.redo_log.specs.Log.{IsLogged, IsLogOf, BothFiles, end_page_of, records_of};

use crate::RedoLog;
use crate::gates::{close_above, set_gate};
use crate::layout::{CLOSED, FIRST_LOG_PAGE, GATES_END};
use mdc_outside::{Disk, Failed};
use redo_journal::{LentImages, home};

impl RedoLog {
    /// Brings the overlay of all records home and closes their gates: at each moment the file stands for what it stood for.
    /// Where no record counts it makes no call of the disk.
    ///
    /// It answers `Failed` only where the disk did. It takes no memory.
    pub fn checkpoint<D: Disk>(
        &mut self,
        disk: &mut D,
        overlay: &LentImages<'_>,
    ) -> Result<(), Failed>
        requires attached { IsTrue (D.is_attached disk.old) }
        requires log { ForSome (D.file disk.old) (IsLogOf self.old) }
        requires overlay { ForSome (D.file disk.old) (λ file. AreOverlay (records_of self.old) file.bytes overlay.now) }
        ensures emptied { OnOk result (BothFiles (D.file disk.old) (D.file disk.new) (IsStill (records_of self.old))) }
        ensures log { OnOk result (ForSome (D.file disk.new) (IsLogOf self.new)) }
        ensures counts { OnOk result ((records_of self.new ≡ 0) × (end_page_of self.new ≡ 2)) }
        ensures none { records_of self.old ≡ 0 → disk.new ≡ disk.old }
        ensures as_before { OnErr result (self.new ≡ self.old) }
        ensures leaves { LeavesOf D.Disk (StandsStill (records_of self.old)) disk.old disk.new }
        ensures only { LeavesOf D.Disk (OnlyHome (records_of self.old)) disk.old disk.new }
        ensures cause { CountsFault (IsErr result) (D.disk_faults disk.old) (D.disk_faults disk.new) }
    {
        let gates = u32::from(self.gates);
        if gates == 0 {
            return Ok(());
        }
        bring_home(disk, gates, overlay)?;
        *self = RedoLog {
            gates: 0,
            end: FIRST_LOG_PAGE,
        };
        Ok(())
    }
}

// Brings the images of all records home and closes the gates, the first one before the others: at each moment the file
// stands for what it stood for.
fn bring_home<D: Disk>(disk: &mut D, n: u32, images: &LentImages<'_>) -> Result<(), Failed>
    requires attached { IsTrue (D.is_attached disk.old) }
    requires logged { ForSome (D.file disk.old) (IsLogged n) }
    requires overlay { ForSome (D.file disk.old) (λ file. AreOverlay n file.bytes images.now) }
    requires some { 0 < n }
    ensures emptied { OnOk result (BothFiles (D.file disk.old) (D.file disk.new) (IsStill n)) }
    ensures leaves { LeavesOf D.Disk (StandsStill n) disk.old disk.new }
    ensures only { LeavesOf D.Disk (OnlyHome n) disk.old disk.new }
    ensures cause { CountsFault (IsErr result) (D.disk_faults disk.old) (D.disk_faults disk.new) }
{
    home(disk, images)?;
    set_gate(disk, 0, CLOSED)?;
    close_strays(disk, 0, GATES_END)
}

/// Closes all gates behind the first that isn't open, which is gate n, up to where they or the file end: at each moment as
/// many records count.
pub(crate) fn close_strays<D: Disk>(disk: &mut D, n: u32, end: u64) -> Result<(), Failed>
    requires attached { IsTrue (D.is_attached disk.old) }
    requires synced { ForSome (D.file disk.old) (λ file. file.since ≡ all_synced file.bytes) }
    requires has { ForSome (D.file disk.old) (λ file. HasRecords n file.bytes) }
    requires ends { ForSome (D.file disk.old) (λ file. end ≡ min (length file.bytes) GATES_END) }
    requires from { LOG_GATES + 1 + n ≤ end }
    requires to { end ≤ GATES_END }
    ensures closed { OnOk result (BothFiles (D.file disk.old) (D.file disk.new) (IsClosed n)) }
    ensures leaves { LeavesOf D.Disk (LeavesStrays n) disk.old disk.new }
    ensures cause { CountsFault (IsErr result) (D.disk_faults disk.old) (D.disk_faults disk.new) }
{
    close_above(disk, n, end)
}
