// The gate of the journal: one byte, which says whether the journal counts.
ghost use Rattle.std.specs.Prelude.{◌≡◌, [], ◌∷◌, IsErr, IsTrue, IsFalse, OnOk};
ghost use Rattle.std.specs.Option.{option_map, ForSome};
ghost use Rattle.mdc_outside.specs.Disk.{torn, written, settled};
ghost use Rattle.mdc_words.specs.Faults.{CountsFault};
ghost use Rattle.page_file.specs.Bound.{RunsOf, LeavesOf};
ghost use Rattle.page_file.specs.Layout.{IsReady, FrontStays};
ghost use Rattle.page_file.specs.declared.layout.TheConstants.{GATE};
ghost use Rattle.redo_journal.specs.Layout.{is_open};
ghost use Rattle.page_file.specs.Runs.{IsWithin};

use mdc_outside::{Disk, Failed};
use page_file::{GATE, put, settle};

pub(crate) const OPEN: u8 = 0x4f;

const CLOSED: u8 = 0;

/// Opens the gate: from now on the journal counts.
pub fn open_gate<D: Disk>(disk: &mut D) -> Result<(), Failed>
    requires attached { IsTrue (D.is_attached disk.old) }
    requires ready { ForSome (D.file disk.old) IsReady }
    ensures written { OnOk result (D.file disk.new ≡ option_map (λ file. settled (written GATE (79 ∷ []) file)) (D.file disk.old)) }
    ensures open { OnOk result (ForSome (D.file disk.new) (λ file. IsTrue (is_open file.bytes))) }
    ensures runs { RunsOf D.Disk IsWithin (torn GATE 1) disk.old disk.new }
    ensures front { LeavesOf D.Disk (λ before. FrontStays before.bytes) disk.old disk.new }
    ensures cause { CountsFault (IsErr result) (D.disk_faults disk.old) (D.disk_faults disk.new) }
{
    set_gate(disk, OPEN)
}

/// Closes the gate: from now on the home pages count.
pub fn close_gate<D: Disk>(disk: &mut D) -> Result<(), Failed>
    requires attached { IsTrue (D.is_attached disk.old) }
    requires ready { ForSome (D.file disk.old) IsReady }
    ensures written { OnOk result (D.file disk.new ≡ option_map (λ file. settled (written GATE (0 ∷ []) file)) (D.file disk.old)) }
    ensures closed { OnOk result (ForSome (D.file disk.new) (λ file. IsFalse (is_open file.bytes))) }
    ensures runs { RunsOf D.Disk IsWithin (torn GATE 1) disk.old disk.new }
    ensures front { LeavesOf D.Disk (λ before. FrontStays before.bytes) disk.old disk.new }
    ensures cause { CountsFault (IsErr result) (D.disk_faults disk.old) (D.disk_faults disk.new) }
{
    set_gate(disk, CLOSED)
}

// Writes the byte of the gate, and has it on the disk.
fn set_gate<D: Disk>(disk: &mut D, state: u8) -> Result<(), Failed>
    requires attached { IsTrue (D.is_attached disk.old) }
    requires ready { ForSome (D.file disk.old) IsReady }
    ensures written { OnOk result (D.file disk.new ≡ option_map (λ file. settled (written GATE (state ∷ []) file)) (D.file disk.old)) }
    ensures runs { RunsOf D.Disk IsWithin (torn GATE 1) disk.old disk.new }
    ensures front { LeavesOf D.Disk (λ before. FrontStays before.bytes) disk.old disk.new }
    ensures cause { CountsFault (IsErr result) (D.disk_faults disk.old) (D.disk_faults disk.new) }
{
    put(disk, GATE, &[state])?;
    settle(disk)
}
