// A table more.
ghost use Rattle.std.specs.Prelude.{◌≡◌, ◌+◌, ◌<◌, ◌≤◌, ◌^◌, [], ◌∷◌, ◌++◌, ℕ, List, length, map, false, Some, None, IsTrue, IsSome, IfErr, IfOk, IfSome, OnErr, OnOk};
ghost use Rattle.std.specs.List.{AllByRecursion};
ghost use Rattle.mdc_ast.specs.declared.definition.Roots.{Roots};
ghost use Rattle.mdc_ast.specs.Database.{Database, with_place};
ghost use Rattle.mdc_ast.specs.Definitions.{def_at, empty_place, place_of, with_def};
ghost use Rattle.store_api.specs.Causes.{store_fault_in};
ghost use Rattle.store_api.specs.RunsOverPages.{RunsOverPages};
ghost use Rattle.store_api.specs.StoreState.{zero_page};
ghost use Rattle.extent_map.specs.Damages.{IfFull, store_part_of};
ghost use Rattle.extent_map.specs.Map.{HoldsMap};
ghost use Rattle.extent_map.specs.Owners.{AreRightNotes};
ghost use Rattle.extent_map.specs.declared.kind.Kind.{Kind};
ghost use Rattle.entry_tree.specs.Standing.{IsMapSpace};
ghost use Rattle.mdc_ast.specs.TableLimits.{AreRootsFor};
ghost use Rattle.table_page.specs.TablePage.{table_page};
ghost use Rattle.table_trees.specs.SpaceChanges.{AsksTooMuch, RunsFull};
ghost use Rattle.table_trees.specs.SpaceChanges.SpaceChange.{MakeTree};
ghost use Rattle.table_trees.specs.TableTrees.{AreIndexParts, TreePlace, cell_parts, rising_parts};
ghost use Rattle.mdc_sound.specs.RunningFull.{CreateRunsFull};
ghost use Rattle.mdc_sound.specs.SoundDatabase.{KeepAllRules};
ghost use Rattle.mdc_sound.specs.SpaceRules.{DatabaseView};
ghost use Rattle.mdc_sound.specs.StandsForDatabase.{PagesStandFor};
ghost use Rattle.mdc_sound.specs.TablePages.{table_page_at};
ghost use Rattle.stored_catalog.specs.NewTables.{IsNewTableDef, own_places, places_with_roots, rooted};
ghost use Rattle.stored_catalog.specs.StoredDefinitions.{AreStored, AreWithinLimits};
ghost use Rattle.stored_catalog.specs.TableSteps.{AddsTable, IsNameFree, plain_empty};
ghost use Rattle.stored_catalog.specs.TreeRuns.{BreaksMaking, IsAddingPage, IsMakingPage, MakesTrees};

use crate::saving::write_def;
use catalog::Catalog;
use entry_tree::Tree;
use extent_map::{SpaceFault, SpaceNotes};
use mdc_ast::{Roots, TableDef};
use mdc_values::List;
use std::alloc::Global;
use store_api::layout::{BLOCK_BYTES, BLOCK_MAP_WIDTH};
use store_api::{Pages, Shape, StoreFault};
use table_trees::{cell_width, places_width};

/// Makes a table of this definition in the lowest empty place, and answers that place: its trees, without entries, and its table
/// page. It claims no more pages than its trees ask for. `Full` says that a CREATE TABLE of it runs full. After a fault the
/// catalog is as it was, `undo` goes back to a mark, and the notes of the extents are to be forgotten.
pub fn add_table<P: Pages>(
    alloc: Global,
    catalog: &mut Catalog,
    shape: Shape,
    notes: &mut SpaceNotes,
    pages: &mut P,
    def: TableDef,
) -> Result<u8, SpaceFault>
    requires room { IsSome (empty_place catalog.old) }
    requires free { place_of catalog.old def.name ≡ None }
    requires limits { IsNewTableDef def }
    requires catalog { AreWithinLimits catalog.old }
    requires going { (P.state pages.old).ended ≡ false }
    ensures place { IfOk result (λ place. empty_place catalog.old ≡ Some place) }
    ensures entered { IfOk result (λ place. (roots : Roots) × (catalog.new ≡ with_def catalog.old place (rooted def roots))) }
    ensures kept { OnErr result (catalog.new ≡ catalog.old) }
    ensures limits { OnOk result (AreWithinLimits catalog.new) }
    ensures stored { OnOk result ((owners : List Kind) → HoldsMap P.Pages shape pages.old owners → AreStored (P.state pages.old).work catalog.old → AreStored (P.state pages.new).work catalog.new) }
    ensures adds { IfOk result (λ place. IsTrue (P.state pages.old).is_told → AreStored (P.state pages.old).work catalog.old → (view : DatabaseView) → KeepAllRules shape (P.state pages.old).work view
        → IfSome (def_at catalog.new place) (λ now. AddsTable shape notes.old notes.new (P.state pages.old).work (P.state pages.new).work now view)) }
    ensures stands_for { IfOk result (λ place. IsTrue (P.state pages.old).is_told → AreStored (P.state pages.old).work catalog.old → (view : DatabaseView) → KeepAllRules shape (P.state pages.old).work view
        → (db : Database) → PagesStandFor shape (P.state pages.old).work db
        → IfSome (def_at catalog.new place) (λ now. PagesStandFor shape (P.state pages.new).work (with_place db place (Some (plain_empty now))))) }
    ensures full { IfErr result (λ fault. IfFull fault (λ cap. (cap ≡ shape.extents) × ((owners : List Kind) → HoldsMap P.Pages shape pages.old owners → AreRightNotes shape notes.old owners
        → CreateRunsFull shape (P.state pages.old).work def))) }
    ensures runs { RunsOverPages P.Pages (IsAddingPage P.Pages shape pages.old catalog.old) (IsMapSpace P.Pages shape pages.old)
        (BreaksMaking P.Pages shape pages.old) pages.old pages.new (store_fault_in store_part_of result) }
{
    let place = catalog.enter(def);
    let Some(mut def) = catalog.take(place) else {
        unreachable!()
    };
    make_table(alloc, shape, notes, pages, &mut def)?;
    catalog.put(place, def);
    Ok(place)
}

/// Makes the trees and the table page of a definition that has its number, and gives it its roots.
fn make_table<P: Pages>(
    alloc: Global,
    shape: Shape,
    notes: &mut SpaceNotes,
    pages: &mut P,
    def: &mut TableDef,
) -> Result<(), SpaceFault>
    requires place { def.old.number < 16 }
    requires limits { IsNewTableDef def.old }
    requires going { (P.state pages.old).ended ≡ false }
    ensures rooted { OnOk result (def.new ≡ rooted def.old def.new.roots) }
    ensures roots { OnOk result (AreRootsFor def.old.dims def.new.roots) }
    ensures writes { OnOk result (IsTrue (P.state pages.old).is_told → table_page_at (P.state pages.new).work def.old.number ≡ table_page def.new) }
    ensures adds { OnOk result (IsTrue (P.state pages.old).is_told → (view : DatabaseView) → KeepAllRules shape (P.state pages.old).work view
        → table_page_at (P.state pages.old).work def.old.number ≡ zero_page → IsNameFree view def.old.name
        → AddsTable shape notes.old notes.new (P.state pages.old).work (P.state pages.new).work def.new view) }
    ensures stands_for { OnOk result (IsTrue (P.state pages.old).is_told → (view : DatabaseView) → KeepAllRules shape (P.state pages.old).work view
        → table_page_at (P.state pages.old).work def.old.number ≡ zero_page → IsNameFree view def.old.name
        → (db : Database) → PagesStandFor shape (P.state pages.old).work db
        → PagesStandFor shape (P.state pages.new).work (with_place db def.old.number (Some (plain_empty def.new)))) }
    ensures full { IfErr result (λ fault. IfFull fault (λ cap. (cap ≡ shape.extents) × ((owners : List Kind) → HoldsMap P.Pages shape pages.old owners → AreRightNotes shape notes.old owners
        → CreateRunsFull shape (P.state pages.old).work def.old))) }
    ensures runs { RunsOverPages P.Pages (IsMakingPage P.Pages shape pages.old def.old.number) (IsMapSpace P.Pages shape pages.old)
        (BreaksMaking P.Pages shape pages.old) pages.old pages.new (store_fault_in store_part_of result) }
{
    let roots = make_trees(alloc, shape, notes, pages, def)?;
    def.next = 0;
    def.roots = roots;
    write_def(pages, def.number, def)?;
    Ok(())
}

/// Makes the block map and the block indexes of a table, in this order, and answers their roots.
fn make_trees<P: Pages>(
    alloc: Global,
    shape: Shape,
    notes: &mut SpaceNotes,
    pages: &mut P,
    def: &TableDef,
) -> Result<Roots, SpaceFault>
    requires composite { AreIndexParts def.now.columns (cell_parts def.now) }
    requires dimensions { AllByRecursion (λ dim. AreIndexParts def.now.columns (rising_parts dim)) def.now.dims }
    requires going { (P.state pages.old).ended ≡ false }
    ensures makes { IfOk result (λ roots. (owners : List Kind) → HoldsMap P.Pages shape pages.old owners
        → MakesTrees P.Pages shape notes.old notes.new pages.old pages.new owners (own_places (rooted def.now roots))) }
    ensures roots { IfOk result (AreRootsFor def.now.dims) }
    ensures full { IfErr result (λ fault. IfFull fault (λ cap. (cap ≡ shape.extents) × ((owners : List Kind) → HoldsMap P.Pages shape pages.old owners → AreRightNotes shape notes.old owners
        → CreateRunsFull shape (P.state pages.old).work def.now))) }
    ensures runs { RunsOverPages P.Pages (IsMapSpace P.Pages shape pages.old) (IsMapSpace P.Pages shape pages.old)
        (BreaksMaking P.Pages shape pages.old) pages.old pages.new (store_fault_in store_part_of result) }
{
    let map = make_tree(alloc, shape, notes, pages, BLOCK_MAP_WIDTH)?;
    let composite = make_tree(alloc, shape, notes, pages, cell_width(def) + BLOCK_BYTES)?;
    let dims = make_dimensions(alloc, shape, notes, pages, def)?;
    Ok(Roots {
        map,
        composite,
        dims,
    })
}

/// Makes the index of each dimension of a table, in order, and answers their roots.
fn make_dimensions<P: Pages>(
    alloc: Global,
    shape: Shape,
    notes: &mut SpaceNotes,
    pages: &mut P,
    def: &TableDef,
) -> Result<List<u32>, SpaceFault>
    requires dimensions { AllByRecursion (λ dim. AreIndexParts def.now.columns (rising_parts dim)) def.now.dims }
    requires going { (P.state pages.old).ended ≡ false }
    ensures makes { IfOk result (λ roots. (owners : List Kind) → HoldsMap P.Pages shape pages.old owners
        → MakesTrees P.Pages shape notes.old notes.new pages.old pages.new owners (places_with_roots def.now roots)) }
    ensures one_each { IfOk result (λ roots. length roots ≡ length def.now.dims) }
    ensures small { IfOk result (AllByRecursion (λ root. root < 2 ^ 32)) }
    ensures full { IfErr result (λ fault. IfFull fault (λ cap. (cap ≡ shape.extents) × ((owners : List Kind) → HoldsMap P.Pages shape pages.old owners → AreRightNotes shape notes.old owners
        → (roots : List ℕ) × (length roots ≡ length def.now.dims) × RunsFull shape (P.state pages.old).work (map MakeTree (places_with_roots def.now roots))))) }
    ensures runs { RunsOverPages P.Pages (IsMapSpace P.Pages shape pages.old) (IsMapSpace P.Pages shape pages.old)
        (BreaksMaking P.Pages shape pages.old) pages.old pages.new (store_fault_in store_part_of result) }
{
    let mut roots = List::new(alloc);
    for dim in def.dims.as_slice() {
        let width = places_width(&def.columns, dim) + BLOCK_BYTES;
        let root = make_tree(alloc, shape, notes, pages, width)?;
        push_root(&mut roots, root)?;
    }
    Ok(roots)
}

/// Makes a tree without entries, and answers its root. `Full` says that it asks for more than there is.
pub fn make_tree<P: Pages>(
    alloc: Global,
    shape: Shape,
    notes: &mut SpaceNotes,
    pages: &mut P,
    width: u16,
) -> Result<u32, SpaceFault>
    requires wide { 5 ≤ width }
    requires narrow { width ≤ 134 }
    requires going { (P.state pages.old).ended ≡ false }
    ensures makes { IfOk result (λ root. (owners : List Kind) → HoldsMap P.Pages shape pages.old owners
        → MakesTrees P.Pages shape notes.old notes.new pages.old pages.new owners (record { root = root; width = width } ∷ [])) }
    ensures small { IfOk result (λ root. root < 2 ^ 32) }
    ensures full { IfErr result (λ fault. IfFull fault (λ cap. (cap ≡ shape.extents) × ((owners : List Kind) → HoldsMap P.Pages shape pages.old owners → AreRightNotes shape notes.old owners
        → (place : TreePlace) → AsksTooMuch shape (P.state pages.old).work (MakeTree place)))) }
    ensures runs { RunsOverPages P.Pages (IsMapSpace P.Pages shape pages.old) (IsMapSpace P.Pages shape pages.old)
        (BreaksMaking P.Pages shape pages.old) pages.old pages.new (store_fault_in store_part_of result) }
{
    let tree = Tree::make(alloc, shape, notes, pages, width)?;
    Ok(tree.root)
}

/// Puts a root last.
fn push_root(roots: &mut List<u32>, root: u32) -> Result<(), SpaceFault>
    ensures pushed { OnOk result (roots.new ≡ roots.old ++ root ∷ []) }
    ensures memory { IfErr result (λ fault. fault ≡ SpaceFault.Store StoreFault.Memory) }
{
    Ok(roots.push(root)?)
}
