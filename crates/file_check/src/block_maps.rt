// Rule 6: the block maps.
ghost use Rattle.std.specs.Prelude.{◌≡◌, None, length, true, false, IfOk, IfErr, IsTrue};
ghost use Rattle.store_api.specs.Causes.{fault_of};
ghost use Rattle.store_api.specs.Frame.{NoPage};
ghost use Rattle.store_api.specs.RunsOverPages.{RunsOverPages};
ghost use Rattle.entry_tree.specs.Entries.{AreOfWidth};
ghost use Rattle.entry_tree.specs.EntryBounds.{Rises};
ghost use Rattle.entry_tree.specs.Forest.{Forest};
ghost use Rattle.table_trees.specs.TableTrees.{map_place};
ghost use Rattle.table_trees.specs.TreesBeside.{BreaksTreeAt, HoldsTreeAt};
ghost use Rattle.stored_catalog.specs.StoredDefinitions.{AreWithinLimits};
ghost use Rattle.mdc_sound.specs.SpaceRules.{AreBlockMapsSound, DatabaseView};
ghost use Rattle.file_check.specs.Judging.{JudgesRule};
ghost use Rattle.file_check.specs.Known.{ViewHasTrees};
ghost use Rattle.file_check.specs.Looking.{AnyPage, Unless};
ghost use Rattle.file_check.specs.BlockMapsJudged.{JudgesMap, ListBlocksOf, ListOthers};

use crate::entries::entries_of;
use crate::kinds::kinds_of;
use crate::lowest::lower;
use crate::map_lines::blocks_named;
use crate::named_blocks::are_blocks_of;
use entry_tree::Entries;
use extent_map::Kind;
use mdc_ast::TableDef;
use std::alloc::Global;
use store_api::{Pages, Shape, StoreFault};
use table_trees::block_map_tree;

/// Judges the block maps: each has lines of the three states, and names exactly the blocks of its table, each once. Else the lowest
/// root of one that doesn't.
pub(crate) fn judge_block_maps<P: Pages>(
    alloc: Global,
    shape: Shape,
    pages: &mut P,
    defs: &[Option<TableDef>],
) -> Result<Option<u32>, StoreFault>
    requires limits { AreWithinLimits defs.now }
    requires going { (P.state pages.old).ended ≡ false }
    ensures judged { IfOk result (λ found. IsTrue (P.state pages.old).is_told → (view : DatabaseView) → ViewHasTrees shape (P.state pages.old).work defs.now view
        → JudgesRule shape (P.state pages.old).work 6 (AreBlockMapsSound shape view) found) }
    ensures same { (P.state pages.new).work ≡ (P.state pages.old).work }
    ensures runs { RunsOverPages P.Pages NoPage AnyPage
        (Unless P.Pages pages.old (λ told. (view : DatabaseView) × ViewHasTrees shape told defs.now view)) pages.old pages.new (fault_of result) }
{
    let kinds = kinds_of(alloc, shape, pages)?;
    let mut lowest = None;
    for def in defs {
        let Some(def) = def else {
            continue;
        };
        let here = judge_block_map(alloc, shape, pages, &kinds, def)?;
        lowest = lower(lowest, here);
    }
    Ok(lowest)
}

/// Judges the block map of a table, where these are the kinds of all extents: None, or its root.
fn judge_block_map<P: Pages>(
    alloc: Global,
    shape: Shape,
    pages: &mut P,
    kinds: &[Kind],
    def: &TableDef,
) -> Result<Option<u32>, StoreFault>
    requires count { length kinds.now ≡ shape.extents }
    requires going { (P.state pages.old).ended ≡ false }
    ensures judged { IfOk result (λ found. (map_tree : Forest) → HoldsTreeAt P.Pages pages.old (map_place def.now) map_tree → JudgesMap shape kinds.now def.now map_tree found) }
    ensures same { (P.state pages.new).work ≡ (P.state pages.old).work }
    ensures runs { RunsOverPages P.Pages NoPage AnyPage (BreaksTreeAt P.Pages pages.old (map_place def.now)) pages.old pages.new (fault_of result) }
{
    let entries = entries_of(alloc, pages, &block_map_tree(alloc, def))?;
    if list_blocks_of(alloc, kinds, def.number, &entries)? {
        return Ok(None);
    }
    Ok(Some(def.roots.map))
}

/// Whether these are the entries of a block map of a table.
fn list_blocks_of(
    alloc: Global,
    kinds: &[Kind],
    table: u8,
    entries: &Entries,
) -> Result<bool, StoreFault>
    requires { AreOfWidth 7 entries.now }
    ensures are { IfOk result (λ are. are ≡ true → ListBlocksOf kinds.now table entries.now) }
    ensures not { IfOk result (λ are. are ≡ false → Rises None None entries.now → ListOthers kinds.now table entries.now) }
    ensures memory { IfErr result (λ fault. fault ≡ StoreFault.Memory) }
{
    let Some(blocks) = blocks_named(alloc, entries)? else {
        return Ok(false);
    };
    Ok(are_blocks_of(kinds, table, &blocks))
}
