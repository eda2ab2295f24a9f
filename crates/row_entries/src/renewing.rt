// A row in a place became another.
ghost use Rattle.std.specs.Prelude.{◌≡◌, ◌++◌, List, false, IfErr, OnOk};
ghost use Rattle.store_api.specs.Causes.{store_fault_in};
ghost use Rattle.store_api.specs.RunsOverPages.{RunsOverPages};
ghost use Rattle.extent_map.specs.Damages.{IfFull, store_part_of};
ghost use Rattle.extent_map.specs.Owners.{AreRightNotes};
ghost use Rattle.extent_map.specs.declared.kind.Kind.{Kind};
ghost use Rattle.mdc_ast.specs.TableLimits.{IsTableDef};
ghost use Rattle.table_trees.specs.SpaceChanges.{MakesChanges, RunsFull, added_entries, removed_entries};
ghost use Rattle.mdc_sound.specs.RunningFull.{differing_indexes, listings_in};
ghost use Rattle.mdc_sound.specs.StandingTable.{BreaksExpected, IsTreeSpaceOfTable, StandsTable, TableForests, pages_of};
ghost use Rattle.row_entries.specs.ChosenIndexes.{HasRecordKeys, LacksOrHasEntry, differing_chosen};
ghost use Rattle.row_entries.specs.ChosenTrees.{BreaksIndexes, IfDamaged};
ghost use Rattle.row_entries.specs.RowEntries.{HasRowEntriesOnly, RenewsRow};

use crate::choosing::differing_indexes;
use crate::entering::enter_chosen;
use crate::leaving::leave_chosen;
use extent_map::{SpaceFault, SpaceNotes};
use mdc_ast::{Row, TableDef};
use mdc_values::Rid;
use std::alloc::Global;
use store_api::{Pages, Shape};

/// A row in a place became another. In the record indexes in which their keys differ the entry of the first is taken out, of each
/// in their order, and then that of the second is put into each. An index in which their keys are the same isn't touched. It claims
/// no more pages than these entries ask for, and `Full` says that one of them asks for more than there are. All other trees, the
/// blocks and the rows stay. Where an index hasn't the entry that goes, or has the one that comes, its root is damaged by rule 11:
/// no other damage is named where the indexes stand, and else only that of the extent map or of an index. After a fault `undo`
/// goes back, and the notes are to be forgotten.
pub fn renew_row<P: Pages>(
    alloc: Global,
    def: &TableDef,
    shape: Shape,
    notes: &mut SpaceNotes,
    pages: &mut P,
    was: &Row,
    is: &Row,
    rid: Rid,
) -> Result<(), SpaceFault>
    requires defined { IsTableDef def.now.number def.now }
    requires was { HasRecordKeys def.now was.now.values }
    requires is { HasRecordKeys def.now is.now.values }
    requires going { (P.state pages.old).ended ≡ false }
    ensures renews { OnOk result ((owners : List Kind) (forests : TableForests) → StandsTable P.Pages shape pages.old def.now owners forests
        → RenewsRow P.Pages shape notes.old notes.new pages.old pages.new def.now was.now is.now rid owners forests) }
    ensures makes { OnOk result ((owners : List Kind) (forests : TableForests) → StandsTable P.Pages shape pages.old def.now owners forests → AreRightNotes shape notes.old owners
        → MakesChanges shape (pages_of P.Pages pages.old) (removed_entries (listings_in def.now (differing_indexes def.now was.now is.now) was.now rid)
        ++ added_entries (listings_in def.now (differing_indexes def.now was.now is.now) is.now rid)) (pages_of P.Pages pages.new)) }
    ensures full { IfErr result (λ fault. IfFull fault (λ cap. (cap ≡ shape.extents) × ((owners : List Kind) (forests : TableForests) → StandsTable P.Pages shape pages.old def.now owners forests → AreRightNotes shape notes.old owners
        → RunsFull shape (pages_of P.Pages pages.old) (removed_entries (listings_in def.now (differing_indexes def.now was.now is.now) was.now rid)
        ++ added_entries (listings_in def.now (differing_indexes def.now was.now is.now) is.now rid))))) }
    ensures runs { RunsOverPages P.Pages (IsTreeSpaceOfTable P.Pages shape pages.old def.now) (IsTreeSpaceOfTable P.Pages shape pages.old def.now)
        (BreaksExpected P.Pages shape pages.old def.now (HasRowEntriesOnly def.now was.now is.now rid)) pages.old pages.new (store_fault_in store_part_of result) }
    ensures names { IfDamaged (store_fault_in store_part_of result)
        (BreaksIndexes P.Pages shape pages.old def.now (differing_chosen def.now was.now is.now) (LacksOrHasEntry def.now was.now is.now rid)) }
{
    let differing = differing_indexes(def, was, is);
    let chosen = &differing[..def.indexes.len()];
    leave_chosen(alloc, def, chosen, shape, notes, pages, was, rid)?;
    enter_chosen(alloc, def, chosen, shape, notes, pages, is, rid)
}
