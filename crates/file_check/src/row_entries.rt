// The entries of rows in an index.
ghost use Rattle.std.specs.Prelude.{◌≡◌, ◌<◌, ◌++◌, map, false, Contains, IsTrue, IfErr, IfOk, OnOk, MatchBool, ℕ, List};
ghost use Rattle.store_api.specs.Causes.{fault_of};
ghost use Rattle.store_api.specs.Frame.{NoPage};
ghost use Rattle.store_api.specs.RunsOverPages.{RunsOverPages};
ghost use Rattle.key_codec.specs.Keys.{ArePartsOf, key_bytes};
ghost use Rattle.entry_tree.specs.Forest.{Forest, leaf_entries};
ghost use Rattle.table_trees.specs.TableTrees.{place_of_tree};
ghost use Rattle.table_trees.specs.ToldPages.{HasTree};
ghost use Rattle.block_rows.specs.HeldRows.{HasReadValues, HaveReadValues, placed_row};
ghost use Rattle.file_check.specs.Looking.{AnyPage};
ghost use Rattle.file_check.specs.TableIndexes.{FitsTable, LacksOne, NotesEntries, UnlessTree, entry_of_kind, noted_entries};

use crate::entry_set::EntrySet;
use crate::table_index::{IndexKind, TableIndex};
use block_rows::Hit;
use key_codec::push_key_part;
use mdc_ast::{ColumnDef, KeyPart, Row, TableDef};
use mdc_values::List;
use std::alloc::Global;
use store_api::{Pages, StoreFault};

/// Notes the entries of these rows, where the index has each of them. Else it answers false.
pub(crate) fn note_entries<P: Pages>(
    alloc: Global,
    pages: &mut P,
    def: &TableDef,
    index: &TableIndex,
    hits: &[Hit],
    noted: &mut EntrySet,
) -> Result<bool, StoreFault>
    requires index { FitsTable def.now index.now }
    requires read { HaveReadValues def.now.columns hits.now }
    requires going { (P.state pages.old).ended ≡ false }
    ensures notes { IfOk result (λ has. IsTrue (P.state pages.old).is_told → (tree : Forest) → HasTree (P.state pages.old).work (place_of_tree index.now.tree) tree
        → ((entry : List ℕ) → Contains (noted_entries noted.old) entry → Contains (leaf_entries tree) entry)
        → MatchBool has (NotesEntries (map (entry_of_kind index.now.kind def.now index.now.parts) (map placed_row hits.now)) (leaf_entries tree) noted.old noted.new)
        (LacksOne (map (entry_of_kind index.now.kind def.now index.now.parts) (map placed_row hits.now)) (leaf_entries tree))) }
    ensures same { (P.state pages.new).work ≡ (P.state pages.old).work }
    ensures runs { RunsOverPages P.Pages NoPage AnyPage (UnlessTree P.Pages pages.old (place_of_tree index.now.tree)) pages.old pages.new (fault_of result) }
{
    for hit in hits {
        let entry = entry_of_row(alloc, def, index, hit)?;
        if noted.has(&entry) {
            continue;
        }
        if !index.tree.has(pages, &entry)? {
            return Ok(false);
        }
        noted.add(entry)?;
    }
    Ok(true)
}

/// The entry of a row in an index.
pub(crate) fn entry_of_row(
    alloc: Global,
    def: &TableDef,
    index: &TableIndex,
    hit: &Hit,
) -> Result<Vec<u8>, StoreFault>
    requires index { FitsTable def.now index.now }
    requires read { HasReadValues def.now.columns hit.now.row }
    ensures entry { IfOk result (λ entry. entry.items ≡ entry_of_kind index.now.kind def.now index.now.parts (placed_row hit.now)) }
    ensures memory { IfErr result (λ fault. fault ≡ StoreFault.Memory) }
{
    let mut entry = Vec::with_capacity(alloc, usize::from(index.tree.width))?;
    push_key(&mut entry, &def.columns, &index.parts, &hit.row)?;
    entry.extend_from_slice(&hit.rid.block.to_be_bytes())?;
    match index.kind {
        IndexKind::Blocks => Ok(entry),
        IndexKind::Rows => {
            entry.extend_from_slice(&hit.rid.slot.to_be_bytes())?;
            Ok(entry)
        }
    }
}

/// Puts the key of a row that was read last.
fn push_key(
    key: &mut Vec<u8>,
    columns: &List<ColumnDef>,
    parts: &List<KeyPart>,
    row: &Row,
) -> Result<(), StoreFault>
    requires parts { ArePartsOf columns.now parts.now }
    requires read { HasReadValues columns.now row.now }
    ensures key { OnOk result (key.new.items ≡ key.old.items ++ key_bytes columns.now parts.now row.now.values) }
    ensures memory { IfErr result (λ fault. fault ≡ StoreFault.Memory) }
{
    for part in parts.as_slice() {
        let place = usize::from(part.column);
        let ty = columns.at(place).ty;
        push_key_part(key, ty, part.descending, row.values.at(place))?;
    }
    Ok(())
}
