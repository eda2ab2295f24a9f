// A record index more.
ghost use Rattle.std.specs.Prelude.{◌≡◌, ◌+◌, ◌<◌, [], ◌∷◌, List, ℕ, length, map, false, None, Some, IfErr, IfOk, IfSome, IsSome, IsTrue, OnErr, OnOk};
ghost use Rattle.mdc_ast.specs.Database.{Database, changed_at};
ghost use Rattle.mdc_ast.specs.Definitions.{def_at, index_place_of, with_def, with_index};
ghost use Rattle.mdc_ast.specs.TableLimits.{IsTableDef};
ghost use Rattle.store_api.specs.Causes.{store_fault_in};
ghost use Rattle.store_api.specs.RunsOverPages.{RunsOverPages};
ghost use Rattle.extent_map.specs.Damages.{IfFull, store_part_of};
ghost use Rattle.extent_map.specs.Map.{HoldsMap};
ghost use Rattle.extent_map.specs.Owners.{AreRightNotes};
ghost use Rattle.extent_map.specs.declared.kind.Kind.{Kind};
ghost use Rattle.entry_tree.specs.Standing.{IsMapSpace};
ghost use Rattle.table_trees.specs.SpaceChanges.{AsksTooMuch};
ghost use Rattle.table_trees.specs.SpaceChanges.SpaceChange.{MakeTree};
ghost use Rattle.table_trees.specs.TableTrees.{TreePlace, record_place};
ghost use Rattle.block_rows.specs.HeldRows.{HaveReadValues, placed_row};
ghost use Rattle.mdc_sound.specs.RunningFull.{IndexRunsFull};
ghost use Rattle.mdc_sound.specs.SoundDatabase.{KeepAllRules};
ghost use Rattle.mdc_sound.specs.SpaceRules.{DatabaseView};
ghost use Rattle.mdc_sound.specs.StandsForDatabase.{PagesStandFor};
ghost use Rattle.stored_catalog.specs.StoredDefinitions.{AreStored, AreWithinLimits};
ghost use Rattle.stored_catalog.specs.TreeRuns.{BreaksMaking, IsMakingPage, MakesTrees};
ghost use Rattle.index_building.specs.IndexSteps.{AddsIndex, AreRowsOf, BreaksIndexing, ByRowNumber};
ghost use Rattle.index_building.specs.IndexViews.{TakesIndex, plain_with_index, rooted_index};

use crate::copying::copy_of;
use crate::filling::fill_index;
use block_rows::Hit;
use catalog::Catalog;
use extent_map::{SpaceFault, SpaceNotes};
use key_codec::key_width;
use mdc_ast::{IndexDef, TableDef};
use std::alloc::Global;
use store_api::layout::ROW_PLACE_BYTES;
use store_api::{Pages, Shape};
use stored_catalog::{make_tree, write_def};

/// Makes a record index behind those of the table in a place, over the rows of the table, which are given by rising row number:
/// its tree, an entry for each row, and its place on the table page. It answers that place. It claims no more pages than its tree
/// and the entries ask for. `Full` says that a CREATE INDEX of it runs full. Damaged names a part of the table, or of the tree that
/// was begun. After a fault the catalog is as it was, `undo` goes back to a mark, and the notes of the extents are to be forgotten.
pub fn add_index<P: Pages>(
    alloc: Global,
    catalog: &mut Catalog,
    shape: Shape,
    notes: &mut SpaceNotes,
    pages: &mut P,
    table: u8,
    index: IndexDef,
    rows: &[Hit],
) -> Result<u8, SpaceFault>
    requires place { table < 16 }
    requires there { IsSome (def_at catalog.old table) }
    requires takes { IfSome (def_at catalog.old table) (λ def. TakesIndex def index) }
    requires free { index_place_of catalog.old index.name ≡ None }
    requires read { IfSome (def_at catalog.old table) (λ def. HaveReadValues def.columns rows.now) }
    requires catalog { AreWithinLimits catalog.old }
    requires going { (P.state pages.old).ended ≡ false }
    ensures place { IfOk result (λ place. IfSome (def_at catalog.old table) (λ def. place ≡ length def.indexes)) }
    ensures entered { OnOk result (IfSome (def_at catalog.old table) (λ def. (root : ℕ) × (catalog.new ≡ with_def catalog.old table (with_index def (rooted_index index root))))) }
    ensures kept { OnErr result (catalog.new ≡ catalog.old) }
    ensures limits { OnOk result (AreWithinLimits catalog.new) }
    ensures stored { OnOk result ((owners : List Kind) → HoldsMap P.Pages shape pages.old owners → AreStored (P.state pages.old).work catalog.old → AreStored (P.state pages.new).work catalog.new) }
    ensures adds { OnOk result (IsTrue (P.state pages.old).is_told → AreStored (P.state pages.old).work catalog.old → (view : DatabaseView) → KeepAllRules shape (P.state pages.old).work view
        → AreRowsOf shape (P.state pages.old).work view table (map placed_row rows.now)
        → IfSome (def_at catalog.old table) (λ def. (root : ℕ) × (catalog.new ≡ with_def catalog.old table (with_index def (rooted_index index root)))
        × AddsIndex shape notes.old notes.new (P.state pages.old).work (P.state pages.new).work table (rooted_index index root) (map placed_row rows.now) view)) }
    ensures stands_for { OnOk result (IsTrue (P.state pages.old).is_told → AreStored (P.state pages.old).work catalog.old → (view : DatabaseView) → KeepAllRules shape (P.state pages.old).work view
        → (db : Database) → PagesStandFor shape (P.state pages.old).work db → PagesStandFor shape (P.state pages.new).work (changed_at db table (plain_with_index index))) }
    ensures full { IfErr result (λ fault. IfFull fault (λ cap. (cap ≡ shape.extents) × (IsTrue (P.state pages.old).is_told → AreStored (P.state pages.old).work catalog.old → (view : DatabaseView) → KeepAllRules shape (P.state pages.old).work view
        → AreRightNotes shape notes.old view.owners → AreRowsOf shape (P.state pages.old).work view table (map placed_row rows.now) → ByRowNumber (map placed_row rows.now)
        → IfSome (def_at catalog.old table) (λ def. IndexRunsFull shape (P.state pages.old).work def index)))) }
    ensures runs { RunsOverPages P.Pages (IsMakingPage P.Pages shape pages.old table) (IsMapSpace P.Pages shape pages.old)
        (BreaksIndexing P.Pages shape pages.old catalog.old table index (map placed_row rows.now)) pages.old pages.new (store_fault_in store_part_of result) }
{
    let Some(def) = catalog.def(table) else {
        unreachable!()
    };
    let place = def.indexes.len() as u8;
    let now = with_index(alloc, shape, notes, pages, def, index)?;
    fill_index(alloc, &now, place, shape, notes, pages, rows)?;
    write_def(pages, table, &now)?;
    catalog.put(table, now);
    Ok(place)
}

/// Makes the tree of a record index, without entries, and answers a copy of the definition with this index and its root.
fn with_index<P: Pages>(
    alloc: Global,
    shape: Shape,
    notes: &mut SpaceNotes,
    pages: &mut P,
    def: &TableDef,
    index: IndexDef,
) -> Result<TableDef, SpaceFault>
    requires defined { IsTableDef def.now.number def.now }
    requires takes { TakesIndex def.now index }
    requires going { (P.state pages.old).ended ≡ false }
    ensures copy { IfOk result (λ now. (root : ℕ) × (root < 4294967296) × (now ≡ with_index def.now (rooted_index index root))
        × ((owners : List Kind) → HoldsMap P.Pages shape pages.old owners → MakesTrees P.Pages shape notes.old notes.new pages.old pages.new owners (record_place def.now (rooted_index index root) ∷ []))) }
    ensures full { IfErr result (λ fault. IfFull fault (λ cap. (cap ≡ shape.extents) × ((owners : List Kind) → HoldsMap P.Pages shape pages.old owners → AreRightNotes shape notes.old owners
        → (place : TreePlace) → AsksTooMuch shape (P.state pages.old).work (MakeTree place)))) }
    ensures runs { RunsOverPages P.Pages (IsMapSpace P.Pages shape pages.old) (IsMapSpace P.Pages shape pages.old)
        (BreaksMaking P.Pages shape pages.old) pages.old pages.new (store_fault_in store_part_of result) }
{
    let mut now = copy_of(alloc, def)?;
    let width = key_width(&def.columns, &index.parts) + ROW_PLACE_BYTES;
    let root = make_tree(alloc, shape, notes, pages, width)?;
    let mut index = index;
    index.root = root;
    now.indexes.push(index)?;
    Ok(now)
}
