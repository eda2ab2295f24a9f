// A record index less.
ghost use Rattle.std.specs.Prelude.{◌≡◌, ◌+◌, ◌<◌, [], ◌∷◌, List, ℕ, length, false, Some, IfOk, IfErr, IfSome, IsSome, IsTrue, OnErr, OnOk, slice_get};
ghost use Rattle.mdc_ast.specs.Database.{Database, changed_at};
ghost use Rattle.mdc_ast.specs.Definitions.{def_at, with_def, without_index};
ghost use Rattle.mdc_ast.specs.TableLimits.{IsTableDef};
ghost use Rattle.store_api.specs.Causes.{fault_of};
ghost use Rattle.store_api.specs.RunsOverPages.{RunsOverPages};
ghost use Rattle.extent_map.specs.Map.{IsMapPage};
ghost use Rattle.extent_map.specs.declared.kind.Kind.{Kind};
ghost use Rattle.entry_tree.specs.Forest.{Forest};
ghost use Rattle.entry_tree.specs.Freeing.{FreesTree};
ghost use Rattle.table_trees.specs.TableTrees.{TreePlace, record_places};
ghost use Rattle.table_trees.specs.TreesBeside.{IsTreesOrMapPage, StandTrees};
ghost use Rattle.mdc_sound.specs.SoundDatabase.{KeepAllRules};
ghost use Rattle.mdc_sound.specs.SpaceRules.{DatabaseView};
ghost use Rattle.mdc_sound.specs.StandsForDatabase.{PagesStandFor};
ghost use Rattle.stored_catalog.specs.StoredDefinitions.{AreStored, AreWithinLimits};
ghost use Rattle.stored_catalog.specs.TreeRuns.{IsDroppingPage};
ghost use Rattle.index_building.specs.IndexSteps.{BreaksDroppingIndex, BreaksIndexTree, DropsIndex, IsDroppedIndexPage, IsIndexTreePage};
ghost use Rattle.index_building.specs.IndexViews.{plain_without_index};

use crate::copying::copy_of;
use catalog::Catalog;
use extent_map::SpaceNotes;
use mdc_ast::TableDef;
use std::alloc::Global;
use store_api::{Pages, Shape, StoreFault};
use stored_catalog::write_def;
use table_trees::record_tree;

/// Drops a record index of the table in a place: the pages of its tree are given back, and the table page has one index less.
/// Damaged names a part of the table. After a fault the catalog is as it was, `undo` goes back to a mark, and the notes of the
/// extents are to be forgotten.
pub fn drop_index<P: Pages>(
    alloc: Global,
    catalog: &mut Catalog,
    shape: Shape,
    notes: &mut SpaceNotes,
    pages: &mut P,
    table: u8,
    index: u8,
) -> Result<(), StoreFault>
    requires place { table < 16 }
    requires there { IsSome (def_at catalog.old table) }
    requires index { IfSome (def_at catalog.old table) (λ def. index < length def.indexes) }
    requires catalog { AreWithinLimits catalog.old }
    requires going { (P.state pages.old).ended ≡ false }
    ensures left { OnOk result (IfSome (def_at catalog.old table) (λ def. catalog.new ≡ with_def catalog.old table (without_index def index))) }
    ensures kept { OnErr result (catalog.new ≡ catalog.old) }
    ensures limits { OnOk result (AreWithinLimits catalog.new) }
    ensures stored { OnOk result (IsTrue (P.state pages.old).is_told → AreStored (P.state pages.old).work catalog.old → AreStored (P.state pages.new).work catalog.new) }
    ensures drops { OnOk result (IsTrue (P.state pages.old).is_told → AreStored (P.state pages.old).work catalog.old → (view : DatabaseView) → KeepAllRules shape (P.state pages.old).work view
        → DropsIndex shape notes.old notes.new (P.state pages.new).work table index view) }
    ensures stands_for { OnOk result (IsTrue (P.state pages.old).is_told → AreStored (P.state pages.old).work catalog.old → (view : DatabaseView) → KeepAllRules shape (P.state pages.old).work view
        → (db : Database) → PagesStandFor shape (P.state pages.old).work db → PagesStandFor shape (P.state pages.new).work (changed_at db table (plain_without_index index))) }
    ensures count { length (P.state pages.new).work ≡ length (P.state pages.old).work }
    ensures runs { RunsOverPages P.Pages (IsDroppingPage shape table) (IsDroppedIndexPage P.Pages shape pages.old catalog.old table index)
        (BreaksDroppingIndex P.Pages shape pages.old catalog.old table index) pages.old pages.new (fault_of result) }
{
    let Some(def) = catalog.def(table) else {
        unreachable!()
    };
    let now = without_index(alloc, def, index)?;
    free_index(alloc, shape, notes, pages, def, index)?;
    write_def(pages, table, &now)?;
    catalog.put(table, now);
    Ok(())
}

/// A copy of a definition without one of its record indexes.
fn without_index(alloc: Global, def: &TableDef, index: u8) -> Result<TableDef, StoreFault>
    requires defined { IsTableDef def.now.number def.now }
    requires there { index < length def.now.indexes }
    ensures copy { IfOk result (λ copy. copy ≡ without_index def.now index) }
    ensures memory { IfErr result (λ fault. fault ≡ StoreFault.Memory) }
{
    let mut copy = copy_of(alloc, def)?;
    copy.indexes.remove(usize::from(index));
    Ok(copy)
}

/// Gives all pages of the tree of a record index back.
fn free_index<P: Pages>(
    alloc: Global,
    shape: Shape,
    notes: &mut SpaceNotes,
    pages: &mut P,
    def: &TableDef,
    index: u8,
) -> Result<(), StoreFault>
    requires defined { IsTableDef def.now.number def.now }
    requires there { index < length def.now.indexes }
    requires going { (P.state pages.old).ended ≡ false }
    ensures frees { OnOk result ((owners : List Kind) (at : TreePlace) (tree : Forest) → slice_get (record_places def.now) index ≡ Some at → StandTrees P.Pages shape pages.old owners (at ∷ []) (tree ∷ [])
        → FreesTree P.Pages shape notes.old notes.new pages.new owners tree) }
    ensures count { length (P.state pages.new).work ≡ length (P.state pages.old).work }
    ensures runs { RunsOverPages P.Pages (IsMapPage shape) (IsIndexTreePage P.Pages shape pages.old def.now index)
        (BreaksIndexTree P.Pages shape pages.old def.now index) pages.old pages.new (fault_of result) }
{
    record_tree(alloc, def, usize::from(index)).free_all(shape, notes, pages)
}
