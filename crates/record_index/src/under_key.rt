// The rows under one key of a record index.
ghost use Rattle.std.specs.Prelude.{◌≡◌, ◌≤◌, ◌<◌, ◌+◌, ◌^◌, ◌++◌, ◌∷◌, [], false, length, IfErr, IfOk, IfSome, OnOk};
ghost use Rattle.mdc_values.specs.Rising.{IsEarlier, LastIsBefore};
ghost use Rattle.store_api.specs.Causes.{fault_of};
ghost use Rattle.store_api.specs.Frame.{NoPage};
ghost use Rattle.store_api.specs.RunsOverPages.{RunsOverPages};
ghost use Rattle.entry_tree.specs.Forest.{Forest, leaf_entries};
ghost use Rattle.entry_tree.specs.HeldTrees.{BreaksTree, HoldsTree, IsTreePage};
ghost use Rattle.table_trees.specs.TreesBeside.{BreaksTreeAt, HoldsTreeAt, IsTreePageAt};
ghost use Rattle.record_index.specs.FoundRids.{AreRidsUnder, FindsRidUnder, rid_number, rid_of_number};
ghost use Rattle.record_index.specs.RecordIndexes.{HasRecordIndexes, HaveKeysIn, key_in_record_index, parts_of_record_index, place_of_record_index};

use crate::entries::tree_and_key;
use crate::places::{RID_BYTES, rid_number, rid_of_number};
use block_index::next_number;
use entry_tree::Tree;
use mdc_ast::TableDef;
use mdc_values::{List, Rid, Rids, Value};
use std::alloc::Global;
use store_api::{Pages, StoreFault};

/// The highest number of a place: six bytes.
const LAST_RID_NUMBER: u64 = 281_474_976_710_655;

/// The places of all rows that a record index has under the key of these values, in the order of their entries: by rising block,
/// and in a block by rising slot. A place may be one of a row that is gone, whose block waits for its cleanup. It changes no page,
/// brings pages of that index alone to hand, and names its root by rule 4 only where it hasn't the form of a tree.
pub fn rids_under<P: Pages>(
    alloc: Global,
    def: &TableDef,
    index: u8,
    pages: &mut P,
    values: &List<Value>,
) -> Result<Rids, StoreFault>
    requires indexes { HasRecordIndexes def.now }
    requires there { index < length def.now.indexes }
    requires values { HaveKeysIn def.now.columns (parts_of_record_index def.now index) values.now }
    requires going { (P.state pages.old).ended ≡ false }
    ensures found { IfOk result (λ rids. (t : Forest) → HoldsTreeAt P.Pages pages.old (place_of_record_index def.now index) t
        → AreRidsUnder (key_in_record_index def.now index values.now) (leaf_entries t) rids) }
    ensures same { (P.state pages.new).work ≡ (P.state pages.old).work }
    ensures runs { RunsOverPages P.Pages NoPage (IsTreePageAt P.Pages pages.old (place_of_record_index def.now index)) (BreaksTreeAt P.Pages pages.old (place_of_record_index def.now index)) pages.old pages.new (fault_of result) }
{
    let (tree, key) = tree_and_key(alloc, def, index, values);
    rids_under_key(alloc, &tree, pages, key.bytes())
}

/// The first place from one on that a record index has under the key of these values, by rising block, and in a block by rising
/// slot. None where there is none. As with `rids_under`, a place may be one of a row that is gone, no page changes, pages of that
/// index alone come to hand, and damage names its root by rule 4.
pub fn rid_under<P: Pages>(
    alloc: Global,
    def: &TableDef,
    index: u8,
    pages: &mut P,
    values: &List<Value>,
    from: Rid,
) -> Result<Option<Rid>, StoreFault>
    requires indexes { HasRecordIndexes def.now }
    requires there { index < length def.now.indexes }
    requires values { HaveKeysIn def.now.columns (parts_of_record_index def.now index) values.now }
    requires going { (P.state pages.old).ended ≡ false }
    ensures found { IfOk result (λ rid. (t : Forest) → HoldsTreeAt P.Pages pages.old (place_of_record_index def.now index) t
        → FindsRidUnder (key_in_record_index def.now index values.now) (leaf_entries t) from rid) }
    ensures reached { IfOk result (λ rid. IfSome rid (λ rid. rid_number from ≤ rid_number rid)) }
    ensures same { (P.state pages.new).work ≡ (P.state pages.old).work }
    ensures runs { RunsOverPages P.Pages NoPage (IsTreePageAt P.Pages pages.old (place_of_record_index def.now index)) (BreaksTreeAt P.Pages pages.old (place_of_record_index def.now index)) pages.old pages.new (fault_of result) }
{
    let (tree, key) = tree_and_key(alloc, def, index, values);
    first_rid_under(&tree, pages, key.bytes(), from)
}

/// The first place from one on that an index has under a key.
fn first_rid_under<P: Pages>(
    tree: &Tree,
    pages: &mut P,
    key: &[u8],
    from: Rid,
) -> Result<Option<Rid>, StoreFault>
    requires width { length key.now + 6 ≡ tree.now.width }
    requires going { (P.state pages.old).ended ≡ false }
    ensures found { IfOk result (λ rid. (t : Forest) → HoldsTree P.Pages pages.old tree.now t → FindsRidUnder key.now (leaf_entries t) from rid) }
    ensures reached { IfOk result (λ rid. IfSome rid (λ rid. rid_number from ≤ rid_number rid)) }
    ensures same { (P.state pages.new).work ≡ (P.state pages.old).work }
    ensures runs { RunsOverPages P.Pages NoPage (IsTreePage P.Pages pages.old tree.now) (BreaksTree P.Pages pages.old tree.now) pages.old pages.new (fault_of result) }
{
    match next_number(tree, pages, key, RID_BYTES, rid_number(from))? {
        Some(found) => Ok(Some(rid_of_number(found))),
        None => Ok(None),
    }
}

/// The places of the rows that an index has under a key.
fn rids_under_key<P: Pages>(
    alloc: Global,
    tree: &Tree,
    pages: &mut P,
    key: &[u8],
) -> Result<Rids, StoreFault>
    requires width { length key.now + 6 ≡ tree.now.width }
    requires going { (P.state pages.old).ended ≡ false }
    ensures found { IfOk result (λ rids. (t : Forest) → HoldsTree P.Pages pages.old tree.now t → AreRidsUnder key.now (leaf_entries t) rids) }
    ensures same { (P.state pages.new).work ≡ (P.state pages.old).work }
    ensures runs { RunsOverPages P.Pages NoPage (IsTreePage P.Pages pages.old tree.now) (BreaksTree P.Pages pages.old tree.now) pages.old pages.new (fault_of result) }
{
    let mut rids = Rids::new(alloc);
    let mut from = 0;
    'finding: loop {
        let Some(rid_number) = next_number(tree, pages, key, RID_BYTES, from)? else {
            return Ok(rids);
        };
        push_rid(&mut rids, rid_number)?;
        if rid_number == LAST_RID_NUMBER {
            return Ok(rids);
        }
        from = rid_number + 1;
    }
}

/// Puts the place of a number last.
pub(crate) fn push_rid(rids: &mut Rids, rid_number: u64) -> Result<(), StoreFault>
    requires small { rid_number < 2 ^ 48 }
    requires behind { LastIsBefore IsEarlier (rid_of_number rid_number) rids.old }
    ensures pushed { OnOk result (rids.new ≡ rids.old ++ rid_of_number rid_number ∷ []) }
    ensures memory { IfErr result (λ fault. fault ≡ StoreFault.Memory) }
{
    Ok(rids.push(rid_of_number(rid_number))?)
}
