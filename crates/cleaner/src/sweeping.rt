// A step of a pass: one leaf of one record index.
ghost use Rattle.std.specs.Prelude.{◌≡◌, ◌<◌, ◌∷◌, [], List, false, length, IfErr, IfOk, IsTrue};
ghost use Rattle.mdc_ast.specs.TableLimits.{IsTableDef};
ghost use Rattle.store_api.specs.Causes.{fault_of};
ghost use Rattle.store_api.specs.RunsOverPages.{RunsOverPages};
ghost use Rattle.extent_map.specs.declared.kind.Kind.{Kind};
ghost use Rattle.entry_tree.specs.Forest.{Forest};
ghost use Rattle.entry_tree.specs.Reading.{BoundFits};
ghost use Rattle.table_trees.specs.TreesBeside.{IsTreesOrMapPage};
ghost use Rattle.record_index.specs.OneIndex.{AmongTrees, BreaksSweepingIndex, ChangesOneTree};
ghost use Rattle.record_index.specs.RecordIndexes.{place_of_record_index};
ghost use Rattle.record_index.specs.SweptLeaf.{TakesNoSpace};
ghost use Rattle.row_entries.specs.ChosenTrees.{StandIndexes};
ghost use Rattle.cleaner.specs.Passes.{BeginsAt, GoesOn, PassSweeps, StepsInTree, goes_on};

use crate::Pass;
use entry_tree::Entry;
use extent_map::SpaceNotes;
use mdc_ast::TableDef;
use record_index::{first_bound, sweep_step};
use std::alloc::Global;
use store_api::{Pages, Shape, StoreFault};

/// Takes the entries that name a block of the pass out of the next leaf of the record index that it works on, and answers how many
/// they were. The pass goes on behind that leaf, or to the next index where nothing is left. It claims no page, and all other trees
/// stay. After a fault the pass is the one that it was, `undo` goes back, and the notes are to be forgotten.
pub fn sweep<P: Pages>(
    alloc: Global,
    def: &TableDef,
    shape: Shape,
    notes: &mut SpaceNotes,
    pages: &mut P,
    pass: &mut Pass,
) -> Result<u32, StoreFault>
    requires defined { IsTableDef def.now.number def.now }
    requires there { pass.old.index < length def.now.indexes }
    requires width { let place = place_of_record_index def.now pass.old.index in BoundFits place.width pass.old.bound }
    requires going { (P.state pages.old).ended ≡ false }
    ensures sweeps { IfOk result (λ removed. (owners : List Kind) (trees : List Forest) → StandIndexes P.Pages shape pages.old def.now owners trees
        → PassSweeps P.Pages shape notes.old notes.new pages.new def.now pass.old pass.new removed owners trees) }
    ensures among { IfOk result (λ removed. AmongTrees P.Pages shape pages.old (place_of_record_index def.now pass.old.index)
        (ChangesOneTree P.Pages shape notes.old notes.new pages.new (StepsInTree def.now pass.old pass.new removed))) }
    ensures frees { IfOk result (λ removed. AmongTrees P.Pages shape pages.old (place_of_record_index def.now pass.old.index) (λ owners places trees i. IsTrue (P.state pages.old).is_told
        → TakesNoSpace shape (P.state pages.old).work (P.state pages.new).work)) }
    ensures not { IfOk result (λ removed. removed ≡ 0 → (P.state pages.new).work ≡ (P.state pages.old).work) }
    ensures not_notes { IfOk result (λ removed. removed ≡ 0 → notes.new ≡ notes.old) }
    ensures on { IfOk result (λ removed. GoesOn def.now pass.old pass.new) }
    ensures stays { IfErr result (λ fault. pass.new ≡ pass.old) }
    ensures count { length (P.state pages.new).work ≡ length (P.state pages.old).work }
    ensures runs { RunsOverPages P.Pages (IsTreesOrMapPage P.Pages shape pages.old (place_of_record_index def.now pass.old.index ∷ [])) (IsTreesOrMapPage P.Pages shape pages.old (place_of_record_index def.now pass.old.index ∷ []))
        (BreaksSweepingIndex P.Pages shape pages.old (place_of_record_index def.now pass.old.index)) pages.old pages.new (fault_of result) }
{
    let bound = begins_at(alloc, def, pass);
    let swept = sweep_step(
        alloc,
        def,
        pass.index,
        shape,
        notes,
        pages,
        bound.bytes(),
        &pass.blocks,
    )?;
    go_on(pass, swept.next);
    Ok(swept.removed)
}

/// The bound at which the next step begins.
fn begins_at(alloc: Global, def: &TableDef, pass: &Pass) -> Entry
    requires defined { IsTableDef def.now.number def.now }
    requires there { pass.now.index < length def.now.indexes }
    requires width { let place = place_of_record_index def.now pass.now.index in BoundFits place.width pass.now.bound }
    ensures begins { BeginsAt def.now pass.now result }
    ensures width { let place = place_of_record_index def.now pass.now.index in length result ≡ place.width }
{
    let Some(bound) = &pass.bound else {
        return first_bound(alloc, def, pass.index);
    };
    Entry::of(bound.bytes())
}

/// The pass goes on at a bound, or with the next index where there is none.
fn go_on(pass: &mut Pass, next: Option<Entry>)
    requires few { pass.old.index < 8 }
    ensures { pass.new ≡ goes_on pass.old next }
{
    if next.is_none() {
        pass.index += 1;
    }
    pass.bound = next;
}
