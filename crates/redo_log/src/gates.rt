// The gates of the log: one byte each, which says whether a record counts.
ghost use Rattle.std.specs.Prelude.{◌≡◌, ◌≤◌, ◌<◌, ◌+◌, ◌-◌, ◌∷◌, ℕ, [], length, replicate, slice_index, IsErr, IsTrue, OnOk, IfOk};
ghost use Rattle.std.specs.Option.{option_map, ForSome};
ghost use Rattle.mdc_outside.specs.Disk.{torn, written, settled};
ghost use Rattle.mdc_words.specs.Faults.{CountsFault};
ghost use Rattle.page_file.specs.Bound.{RunsOf};
ghost use Rattle.page_file.specs.Layout.{IsReady};
ghost use Rattle.page_file.specs.Runs.{IsWithin, IsCovered};
ghost use Rattle.redo_log.specs.declared.layout.TheConstants.{LOG_GATES, GATE_COUNT, GATES_END};
ghost use Rattle.redo_log.specs.Layout.{AreGates};

use crate::layout::LOG_GATES;
use mdc_outside::{Disk, Failed};
use page_file::{get, put, settle, zeros};

/// The gates of a file that has so many bytes. Where it ends before one, that one is closed. It changes nothing in the file.
pub(crate) fn read_gates<D: Disk>(disk: &mut D, size: u64) -> Result<[u8; 32], Failed>
    requires attached { IsTrue (D.is_attached disk.old) }
    requires size { ForSome (D.file disk.old) (λ file. size ≡ length file.bytes) }
    ensures gates { IfOk result (λ gates. ForSome (D.file disk.old) (λ file. AreGates gates file.bytes)) }
    ensures behind { IfOk result (λ gates. (k : ℕ) → size ≤ LOG_GATES + k → slice_index gates k ≡ 0) }
    ensures same { D.file disk.new ≡ D.file disk.old }
    ensures runs { RunsOf D.Disk IsCovered (λ since. since) disk.old disk.new }
    ensures cause { CountsFault (IsErr result) (D.disk_faults disk.old) (D.disk_faults disk.new) }
{
    let mut gates = [0; 32];
    let there = size.saturating_sub(LOG_GATES).min(32) as usize;
    if there > 0 {
        get(disk, LOG_GATES, &mut gates[..there])?;
    }
    Ok(gates)
}

/// Writes the byte of gate k, and has it on the disk.
pub(crate) fn set_gate<D: Disk>(disk: &mut D, k: u32, state: u8) -> Result<(), Failed>
    requires attached { IsTrue (D.is_attached disk.old) }
    requires ready { ForSome (D.file disk.old) IsReady }
    requires few { k < GATE_COUNT }
    ensures written { OnOk result (D.file disk.new ≡ option_map (λ file. settled (written (LOG_GATES + k) (state ∷ []) file)) (D.file disk.old)) }
    ensures runs { RunsOf D.Disk IsWithin (torn (LOG_GATES + k) 1) disk.old disk.new }
    ensures cause { CountsFault (IsErr result) (D.disk_faults disk.old) (D.disk_faults disk.new) }
{
    put(disk, LOG_GATES + u64::from(k), &[state])?;
    settle(disk)
}

/// Closes all gates behind gate n in one write, up to a place in the file, and has them on the disk. The write begins above
/// gate n: a crash within it may leave any bytes in its range, so one that covers a closed gate could open it again.
pub(crate) fn close_above<D: Disk>(disk: &mut D, n: u32, end: u64) -> Result<(), Failed>
    requires attached { IsTrue (D.is_attached disk.old) }
    requires within { ForSome (D.file disk.old) (λ file. end ≤ length file.bytes) }
    requires from { LOG_GATES + 1 + n ≤ end }
    requires to { end ≤ GATES_END }
    ensures written { OnOk result (D.file disk.new ≡ option_map (λ file. settled (written (LOG_GATES + 1 + n) (replicate (end - (LOG_GATES + 1 + n)) 0) file)) (D.file disk.old)) }
    ensures runs { RunsOf D.Disk IsWithin (torn (LOG_GATES + 1 + n) (end - (LOG_GATES + 1 + n))) disk.old disk.new }
    ensures cause { CountsFault (IsErr result) (D.disk_faults disk.old) (D.disk_faults disk.new) }
{
    let above = LOG_GATES + u64::from(n) + 1;
    put(disk, above, zeros((end - above) as usize))?;
    settle(disk)
}
