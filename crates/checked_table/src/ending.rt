// How a change begins and ends: it is kept, or all goes back to the mark.
ghost use Rattle.std.specs.Prelude.{◌≡◌, ◌<◌, false, IsSome, None, OnErr, OnOk, Some};
ghost use Rattle.mdc_words.specs.Faults.{CountsFault};
ghost use Rattle.store_api.specs.Causes.{fault_of};
ghost use Rattle.store_api.specs.declared.fault.Damage.{Damage};
ghost use Rattle.store_api.specs.declared.fault.StoreFault.TheVariants as store;
ghost use Rattle.extent_map.specs.Damages.{IfFull, store_part_of};
ghost use Rattle.extent_map.specs.declared.fault.SpaceFault.TheVariants as space;
ghost use Rattle.mdc_ast.specs.TableLimits.{IsTableDef};
ghost use Rattle.checked_table.specs.ExactDamage.{CountsAnswer, JudgesFault};
ghost use Rattle.checked_table.specs.WholeChanges.{BeginsChange, ForgetsNotes, KeepsChange, UndoesChange};

use crate::judging::exact_fault;
use extent_map::{SpaceFault, SpaceNotes};
use free_space::Rooms;
use mdc_ast::TableDef;
use std::alloc::Global;
use store_api::{Pages, Shape, StoreFault};

/// Marks the pages that a change begins with.
pub(crate) fn begin_change<P: Pages>(pages: &mut P)
    requires going { (P.state pages.old).ended ≡ false }
    requires unmarked { (P.state pages.old).marked ≡ None }
    ensures { BeginsChange P.Pages pages.old pages.new }
{
    pages.mark();
}

/// Drops the mark of a change that was made. Where that fails, the pages go back to it.
pub(crate) fn keep_or_undo<P: Pages>(pages: &mut P) -> Result<(), StoreFault>
    requires going { (P.state pages.old).ended ≡ false }
    requires marked { IsSome (P.state pages.old).marked }
    ensures keeps { OnOk result (KeepsChange P.Pages pages.old pages.new) }
    ensures undoes { OnErr result (UndoesChange P.Pages pages.old pages.new) }
    ensures device { CountsFault (fault_of result ≡ Some store.Device) (P.disk_faults pages.old) (P.disk_faults pages.new) }
    ensures damaged { (damage : Damage) → fault_of result ≡ Some (store.Damaged damage) → ⊥ }
{
    match pages.keep() {
        Ok(()) => Ok(()),
        Err(fault) => {
            pages.undo();
            Err(StoreFault::from(fault))
        }
    }
}

/// Forgets what is noted of free space and of the rooms, which isn't known to be right where the pages went back.
pub(crate) fn forget_notes(notes: &mut SpaceNotes, rooms: &mut Rooms)
    ensures { ForgetsNotes notes.new rooms.new }
{
    notes.forget();
    rooms.forget();
}

/// Goes back to the mark after a fault, and answers the fault: damage is made exact.
pub(crate) fn undo_change<P: Pages>(
    alloc: Global,
    def: &TableDef,
    shape: Shape,
    notes: &mut SpaceNotes,
    rooms: &mut Rooms,
    pages: &mut P,
    fault: StoreFault,
) -> StoreFault
    requires defined { IsTableDef def.now.number def.now }
    requires place { def.now.number < 16 }
    requires going { (P.state pages.old).ended ≡ false }
    requires marked { IsSome (P.state pages.old).marked }
    ensures exact { JudgesFault P.Pages shape def.now pages.new (Some fault) (Some result) }
    ensures undoes { UndoesChange P.Pages pages.old pages.new }
    ensures device { CountsAnswer P.Pages pages.old pages.new (Some fault) (Some result) }
    ensures forgets { ForgetsNotes notes.new rooms.new }
{
    pages.undo();
    forget_notes(notes, rooms);
    exact_fault(alloc, def, shape, pages, fault)
}

/// The same for a change that may run full.
pub(crate) fn undo_space_change<P: Pages>(
    alloc: Global,
    def: &TableDef,
    shape: Shape,
    notes: &mut SpaceNotes,
    rooms: &mut Rooms,
    pages: &mut P,
    fault: SpaceFault,
) -> SpaceFault
    requires defined { IsTableDef def.now.number def.now }
    requires place { def.now.number < 16 }
    requires going { (P.state pages.old).ended ≡ false }
    requires marked { IsSome (P.state pages.old).marked }
    ensures exact { JudgesFault P.Pages shape def.now pages.new (store_part_of fault) (store_part_of result) }
    ensures full { IfFull result (λ cap. fault ≡ space.Full cap) }
    ensures undoes { UndoesChange P.Pages pages.old pages.new }
    ensures device { CountsAnswer P.Pages pages.old pages.new (store_part_of fault) (store_part_of result) }
    ensures forgets { ForgetsNotes notes.new rooms.new }
{
    match fault {
        SpaceFault::Store(fault) => {
            SpaceFault::Store(undo_change(alloc, def, shape, notes, rooms, pages, fault))
        }
        SpaceFault::Full(extents) => {
            pages.undo();
            forget_notes(notes, rooms);
            SpaceFault::Full(extents)
        }
    }
}
