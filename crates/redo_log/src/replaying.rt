// What the log of a file holds.
ghost use Rattle.std.specs.Prelude.{◌≡◌, ◌≢◌, ◌≤◌, ◌<◌, ◌+◌, ℕ, length, slice_index, IsErr, IsErrOf, IsTrue, OnOk, IfOk, IfErr};
ghost use Rattle.std.specs.Option.{ForSome};
ghost use Rattle.mdc_words.specs.Faults.{CountsFault};
ghost use Rattle.page_file.specs.Bound.{LeavesOf, RunsOf};
ghost use Rattle.mdc_outside.specs.Disk.{all_synced};
ghost use Rattle.page_file.specs.Runs.{IsCovered};
ghost use Rattle.redo_journal.specs.Faults.{IsDamaged};
ghost use Rattle.redo_log.specs.Bounds.{IsInLog};
ghost use Rattle.redo_log.specs.Checkpointing.{AreOverlay, HasClosed, LeavesClosing};
ghost use Rattle.redo_log.specs.declared.layout.TheConstants.{LOG_GATES};
ghost use Rattle.redo_log.specs.Layout.{leading, log_end, records_in, AreGates, AreLaid};
ghost use Rattle.redo_log.specs.Log.{BothFiles};
ghost use Rattle.redo_log.specs.Replaying.{FindsLog, LeavesLog};

use crate::checkpointing::close_strays;
use crate::counting::{count_open, has_open};
use crate::gates::read_gates;
use crate::layout::{FIRST_LOG_PAGE, GATES_END};
use crate::reading::lay_record;
use crate::{Overlay, RedoLog};
use mdc_outside::{Disk, Failed};
use page_file::end_of;
use redo_journal::ReplayFault;
use std::alloc::Global;

/// The log of a file, and the overlay of the records that count: of each page the newest image. Where gates stand open
/// behind one that doesn't, it closes all behind that one in one write: at each moment as many records count. Where none
/// does, it changes nothing.
///
/// It answers `Damaged` exactly where a record that counts doesn't lie within the log, behind those below it and within the
/// file, or its numbers don't rise. Whether the numbers name pages is judged above, where the count of pages is known. It
/// takes memory only where a record counts. But for `Device`, a fault leaves the file as it was.
///
/// The file may be of any length: a gate behind its end is closed. All of it is on the disk.
pub fn replay<D: Disk>(alloc: Global, disk: &mut D) -> Result<(RedoLog, Overlay), ReplayFault>
    requires attached { IsTrue (D.is_attached disk.old) }
    requires synced { ForSome (D.file disk.old) (λ file. file.since ≡ all_synced file.bytes) }
    ensures found { IfOk result (λ found. BothFiles (D.file disk.old) (D.file disk.new) (FindsLog found.0 found.1)) }
    ensures damaged { IfErr result (λ fault. IsDamaged fault → (fault ≡ ReplayFault.Damaged (record { page = 0; rule = 1 })) × ForSome (D.file disk.old) (λ file. ¬ AreLaid (records_in file.bytes) file.bytes)) }
    ensures memory { IfErr result (λ fault. fault ≡ ReplayFault.Memory → ForSome (D.file disk.old) (λ file. 0 < records_in file.bytes)) }
    ensures as_it_was { IfErr result (λ fault. fault ≢ ReplayFault.Device → D.file disk.new ≡ D.file disk.old) }
    ensures leaves { LeavesOf D.Disk LeavesLog disk.old disk.new }
    ensures cause { CountsFault (IsErrOf result ReplayFault.Device) (D.disk_faults disk.old) (D.disk_faults disk.new) }
{
    let size = end_of(disk)?;
    let gates = read_gates(disk, size)?;
    let n = count_open(&gates);
    let (end, overlay) = match lay_records(alloc, disk, size, n) {
        Ok(found) => found,
        Err(fault) => return Err(fault),
    };
    close_open(disk, size, &gates, n)?;
    let log = RedoLog {
        gates: n as u8,
        end,
    };
    Ok((log, overlay))
}

// The overlay of the first n records of a file that has so many bytes, and the file page behind them. It changes nothing in
// the file.
fn lay_records<D: Disk>(
    alloc: Global,
    disk: &mut D,
    size: u64,
    n: u32,
) -> Result<(u32, Overlay), ReplayFault>
    requires attached { IsTrue (D.is_attached disk.old) }
    requires size { ForSome (D.file disk.old) (λ file. size ≡ length file.bytes) }
    requires few { n ≤ 32 }
    ensures ends { IfOk result (λ found. ForSome (D.file disk.old) (λ file. log_end n file.bytes ≡ found.0)) }
    ensures in_log { IfOk result (λ found. IsInLog n found.0) }
    ensures laid { OnOk result (ForSome (D.file disk.old) (λ file. AreLaid n file.bytes)) }
    ensures overlay { IfOk result (λ found. ForSome (D.file disk.old) (λ file. AreOverlay n file.bytes found.1)) }
    ensures damaged { IfErr result (λ fault. IsDamaged fault → (fault ≡ ReplayFault.Damaged (record { page = 0; rule = 1 })) × ForSome (D.file disk.old) (λ file. ¬ AreLaid n file.bytes)) }
    ensures memory { IfErr result (λ fault. fault ≡ ReplayFault.Memory → 0 < n) }
    ensures cause { CountsFault (IsErrOf result ReplayFault.Device) (D.disk_faults disk.old) (D.disk_faults disk.new) }
    ensures same { D.file disk.new ≡ D.file disk.old }
    ensures runs { RunsOf D.Disk IsCovered (λ since. since) disk.old disk.new }
{
    let mut end = FIRST_LOG_PAGE;
    let mut overlay = Overlay::new(alloc);
    for k in 0..n {
        match lay_record(alloc, disk, k, end, size, &mut overlay) {
            Ok(behind) => end = behind,
            Err(fault) => return Err(fault),
        }
    }
    Ok((end, overlay))
}

// Where one of the gates stands open behind the n records that count, it closes all behind these, in a file that has so many
// bytes.
fn close_open<D: Disk>(disk: &mut D, size: u64, gates: &[u8], n: u32) -> Result<(), Failed>
    requires attached { IsTrue (D.is_attached disk.old) }
    requires synced { ForSome (D.file disk.old) (λ file. file.since ≡ all_synced file.bytes) }
    requires size { ForSome (D.file disk.old) (λ file. size ≡ length file.bytes) }
    requires read { ForSome (D.file disk.old) (λ file. AreGates gates.now file.bytes) }
    requires behind { (k : ℕ) → size ≤ LOG_GATES + k → slice_index gates.now k ≡ 0 }
    requires few { length gates.now ≡ 32 }
    requires count { n ≡ leading gates.now }
    ensures closed { OnOk result (BothFiles (D.file disk.old) (D.file disk.new) (HasClosed n)) }
    ensures leaves { LeavesOf D.Disk (LeavesClosing n) disk.old disk.new }
    ensures cause { CountsFault (IsErr result) (D.disk_faults disk.old) (D.disk_faults disk.new) }
{
    if has_open(gates, n) {
        return close_strays(disk, n, size.min(GATES_END));
    }
    Ok(())
}
