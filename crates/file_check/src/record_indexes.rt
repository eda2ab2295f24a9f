// Rule 11: the record indexes.
ghost use Rattle.std.specs.Prelude.{◌≡◌, ◌↔◌, ◌⊎◌, ◌≤◌, ◌-◌, length, false, Contains, IsTrue, IfOk, MatchBool, ℕ, List};
ghost use Rattle.store_api.specs.Causes.{fault_of};
ghost use Rattle.store_api.specs.Frame.{NoPage};
ghost use Rattle.store_api.specs.RunsOverPages.{RunsOverPages};
ghost use Rattle.key_codec.specs.Keys.{width_of_parts};
ghost use Rattle.node_page.specs.Node.{number_within};
ghost use Rattle.entry_tree.specs.Entries.{AreOfWidth};
ghost use Rattle.entry_tree.specs.Forest.{Forest, leaf_entries};
ghost use Rattle.block_map.specs.MapLines.{pending_blocks};
ghost use Rattle.mdc_ast.specs.TableLimits.{IsTableDef};
ghost use Rattle.table_trees.specs.TableTrees.{place_of_tree};
ghost use Rattle.table_trees.specs.ToldPages.{HasTree};
ghost use Rattle.file_check.specs.Looking.{AnyPage, Unless};
ghost use Rattle.file_check.specs.TableIndexes.{AreReadable, AreSoundEntries, FitsTable, HasIndexes, JudgesIndexes, LacksOne, NotesEntries, UnlessMap, UnlessReadable, bytes_behind_key, entries_of_blocks, noted_entries};
ghost use Rattle.file_check.specs.declared.table_index.IndexKind.TheVariants.{Rows};

use crate::blocks::no_extent;
use crate::entries::entries_of;
use crate::entry_set::EntrySet;
use crate::lowest::lower;
use crate::row_entries::note_entries;
use crate::rows::rows_of_block;
use crate::table_index::{IndexKind, TableIndex};
use block_map::{BlockMap, BlockState};
use byteorder::{BigEndian, ByteOrder};
use entry_tree::Entries;
use mdc_ast::TableDef;
use mdc_values::Blocks;
use std::alloc::Global;
use store_api::layout::BLOCK_BYTES;
use store_api::{Pages, Shape, StoreFault};

/// Judges the record indexes of a table: each has the entry of each row, and no other but those that name Pending blocks. Else the
/// lowest root of one that isn't so.
pub(crate) fn judge_record_indexes<P: Pages>(
    alloc: Global,
    shape: Shape,
    pages: &mut P,
    def: &TableDef,
) -> Result<Option<u32>, StoreFault>
    requires limits { IsTableDef def.now.number def.now }
    requires going { (P.state pages.old).ended ≡ false }
    ensures judged { IfOk result (λ found. IsTrue (P.state pages.old).is_told → (map_tree : Forest) → HasIndexes Rows shape (P.state pages.old).work def.now map_tree
        → JudgesIndexes Rows shape (P.state pages.old).work def.now map_tree found) }
    ensures same { (P.state pages.new).work ≡ (P.state pages.old).work }
    ensures runs { RunsOverPages P.Pages NoPage AnyPage
        (Unless P.Pages pages.old (λ told. (map_tree : Forest) × HasIndexes Rows shape told def.now map_tree)) pages.old pages.new (fault_of result) }
{
    let kind = IndexKind::Rows;
    let map = BlockMap::at(alloc, def.roots.map);
    let used = map.list(pages, BlockState::Used)?;
    let spare = pending_blocks_of(pages, map)?;
    let mut lowest = None;
    for place in 0..kind.count(def) {
        let index = TableIndex::at(alloc, def, kind, place)?;
        if is_sound(alloc, shape, pages, def, &index, &used, &spare)? {
            continue;
        }
        lowest = lower(lowest, Some(index.tree.root));
    }
    Ok(lowest)
}

/// The blocks that were rolled out, which any entry may name.
fn pending_blocks_of<P: Pages>(pages: &mut P, map: BlockMap) -> Result<Blocks, StoreFault>
    requires width { map.tree.width ≡ 7 }
    requires going { (P.state pages.old).ended ≡ false }
    ensures spare { IfOk result (λ spare. IsTrue (P.state pages.old).is_told → (map_tree : Forest) → HasTree (P.state pages.old).work (place_of_tree map.tree) map_tree
        → spare ≡ pending_blocks map_tree) }
    ensures same { (P.state pages.new).work ≡ (P.state pages.old).work }
    ensures runs { RunsOverPages P.Pages NoPage AnyPage (UnlessMap P.Pages pages.old (place_of_tree map.tree)) pages.old pages.new (fault_of result) }
{
    map.list(pages, BlockState::Pending)
}

/// Whether an index has the entry of each row in these blocks, and no other but those that name spare blocks.
fn is_sound<P: Pages>(
    alloc: Global,
    shape: Shape,
    pages: &mut P,
    def: &TableDef,
    index: &TableIndex,
    used: &Blocks,
    spare: &Blocks,
) -> Result<bool, StoreFault>
    requires limits { IsTableDef def.now.number def.now }
    requires index { FitsTable def.now index.now }
    requires going { (P.state pages.old).ended ≡ false }
    ensures sound { IfOk result (λ sound. IsTrue (P.state pages.old).is_told → AreReadable shape (P.state pages.old).work def.now used.now
        → (tree : Forest) → HasTree (P.state pages.old).work (place_of_tree index.now.tree) tree
        → IsTrue sound ↔ AreSoundEntries (entries_of_blocks index.now.kind shape (P.state pages.old).work def.now index.now.parts used.now) spare.now
        (width_of_parts def.now.columns index.now.parts) (leaf_entries tree)) }
    ensures same { (P.state pages.new).work ≡ (P.state pages.old).work }
    ensures runs { RunsOverPages P.Pages NoPage AnyPage (UnlessReadable P.Pages shape pages.old def.now used.now (place_of_tree index.now.tree)) pages.old pages.new (fault_of result) }
{
    let mut noted = EntrySet::new(alloc);
    if !note_rows(alloc, shape, pages, def, index, used, &mut noted)? {
        return Ok(false);
    }
    let entries = entries_of(alloc, pages, &index.tree)?;
    Ok(has_no_others(&entries, index, &noted, spare))
}

/// Notes the entries of the rows in these blocks, where the index has each of them. Else it answers false.
fn note_rows<P: Pages>(
    alloc: Global,
    shape: Shape,
    pages: &mut P,
    def: &TableDef,
    index: &TableIndex,
    used: &Blocks,
    noted: &mut EntrySet,
) -> Result<bool, StoreFault>
    requires limits { IsTableDef def.now.number def.now }
    requires index { FitsTable def.now index.now }
    requires going { (P.state pages.old).ended ≡ false }
    ensures notes { IfOk result (λ has. IsTrue (P.state pages.old).is_told → AreReadable shape (P.state pages.old).work def.now used.now
        → (tree : Forest) → HasTree (P.state pages.old).work (place_of_tree index.now.tree) tree
        → ((entry : List ℕ) → Contains (noted_entries noted.old) entry → Contains (leaf_entries tree) entry)
        → MatchBool has (NotesEntries (entries_of_blocks index.now.kind shape (P.state pages.old).work def.now index.now.parts used.now) (leaf_entries tree) noted.old noted.new)
        (LacksOne (entries_of_blocks index.now.kind shape (P.state pages.old).work def.now index.now.parts used.now) (leaf_entries tree))) }
    ensures same { (P.state pages.new).work ≡ (P.state pages.old).work }
    ensures runs { RunsOverPages P.Pages NoPage AnyPage (UnlessReadable P.Pages shape pages.old def.now used.now (place_of_tree index.now.tree)) pages.old pages.new (fault_of result) }
{
    for block in used.as_slice() {
        if *block >= shape.extents {
            return Err(no_extent(def));
        }
        let hits = rows_of_block(alloc, shape, pages, def, *block)?;
        if !note_entries(alloc, pages, def, index, &hits, noted)? {
            return Ok(false);
        }
    }
    Ok(true)
}

/// Whether each entry of an index was noted, or names a spare block.
fn has_no_others(entries: &Entries, index: &TableIndex, noted: &EntrySet, spare: &Blocks) -> bool
    requires width { AreOfWidth index.now.tree.width entries.now }
    requires wide { bytes_behind_key index.now.kind ≤ index.now.tree.width }
    ensures { IsTrue result ↔ ((entry : List ℕ) → Contains entries.now entry
        → Contains (noted_entries noted.now) entry ⊎ Contains spare.now (number_within (index.now.tree.width - bytes_behind_key index.now.kind) 4 entry)) }
{
    for i in 0..entries.len() {
        let entry = entries.at(i);
        if noted.has(entry) {
            continue;
        }
        if !has_block(spare, block_in_entry(index, entry)) {
            return false;
        }
    }
    true
}

/// The block that an entry of an index names behind its key.
fn block_in_entry(index: &TableIndex, entry: &[u8]) -> u32
    requires width { length entry.now ≡ index.now.tree.width }
    requires wide { bytes_behind_key index.now.kind ≤ index.now.tree.width }
    ensures { result ≡ number_within (index.now.tree.width - bytes_behind_key index.now.kind) 4 entry.now }
{
    let key = entry.len() - index.kind.bytes_behind_key();
    BigEndian::read_u32(&entry[key..key + usize::from(BLOCK_BYTES)])
}

/// Whether a block is one of these.
fn has_block(blocks: &Blocks, block: u32) -> bool
    ensures { IsTrue result ↔ Contains blocks.now block }
{
    blocks.as_slice().binary_search(&block).is_ok()
}
