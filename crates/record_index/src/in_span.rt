// The rows of a span of values in the first part of a record index.
ghost use Rattle.std.specs.Prelude.{◌≡◌, ◌+◌, ◌≤◌, ◌<◌, ◌↔◌, ◌^◌, ◌++◌, List, false, true, length, map, Contains, IfErr, IfOk, IsTrue, OnOk};
ghost use Rattle.std.specs.List.{AllByRecursion};
ghost use Rattle.mdc_words.specs.ByteOrder.{Entry};
ghost use Rattle.mdc_values.specs.declared.rid.Rid.{Rid};
ghost use Rattle.store_api.specs.Causes.{fault_of};
ghost use Rattle.store_api.specs.Frame.{NoPage};
ghost use Rattle.store_api.specs.RunsOverPages.{RunsOverPages};
ghost use Rattle.key_codec.specs.Keys.{part_width, type_of_column};
ghost use Rattle.key_codec.specs.Spans.{IsRangeOf, first_column, is_first_descending, span_has_kind_of};
ghost use Rattle.entry_tree.specs.Forest.{Forest, leaf_entries};
ghost use Rattle.entry_tree.specs.HeldTrees.{BreaksTree, HoldsTree, IsTreePage};
ghost use Rattle.table_trees.specs.TableTrees.{AreIndexParts};
ghost use Rattle.table_trees.specs.TreesBeside.{BreaksTreeAt, HoldsTreeAt, IsTreePageAt};
ghost use Rattle.block_index.specs.PartRanges.{entries_until, walked};
ghost use Rattle.record_index.specs.FoundRids.{FindsRids, IsRid, rid_in_entry, rid_of_number};
ghost use Rattle.record_index.specs.RecordIndexes.{HasRecordIndexes, parts_of_record_index, place_of_record_index};

use crate::under_key::push_rid;
use block_index::{PartRange, read_leaf};
use byteorder::{BigEndian, ByteOrder};
use entry_tree::{Entries, Leaf, Tree};
use key_codec::key_range;
use mdc_ast::{ColumnDef, KeyPart, Span, TableDef};
use mdc_values::{List, Rids};
use mdc_words::Steps;
use std::alloc::Global;
use std::sync::ledger::Ledger;
use store_api::{Pages, StoreFault};
use table_trees::record_tree;

/// The places of all rows that a record index has with a value in a span in its first part, by rising block and slot, each once.
/// The span's values are of the kind of that part's column. A place may be one of a row that is gone, whose block waits for its
/// cleanup, and `entries` rises by the number of all entries of the span, those included. It changes no page, brings pages of that
/// index alone to hand, and names its root by rule 4 only where it hasn't the form of a tree.
pub fn rids_in<P: Pages, E: Ledger>(
    alloc: Global,
    def: &TableDef,
    index: u8,
    pages: &mut P,
    span: &Span,
    entries: &mut Steps<E>,
) -> Result<Rids, StoreFault>
    requires indexes { HasRecordIndexes def.now }
    requires there { index < length def.now.indexes }
    requires kind { IsTrue (span_has_kind_of (type_of_column def.now.columns (first_column (parts_of_record_index def.now index))) span.now) }
    requires going { (P.state pages.old).ended ≡ false }
    ensures found { IfOk result (λ rids. (t : Forest) → HoldsTreeAt P.Pages pages.old (place_of_record_index def.now index) t
        → FindsRids def.now.columns (parts_of_record_index def.now index) span.now (leaf_entries t) rids entries.old entries.new) }
    ensures same { (P.state pages.new).work ≡ (P.state pages.old).work }
    ensures runs { RunsOverPages P.Pages NoPage (IsTreePageAt P.Pages pages.old (place_of_record_index def.now index)) (BreaksTreeAt P.Pages pages.old (place_of_record_index def.now index)) pages.old pages.new (fault_of result) }
{
    let index = usize::from(index);
    let range = first_part_range(alloc, &def.columns, &def.indexes.at(index).parts, span)?;
    let tree = record_tree(alloc, def, index);
    let numbers = walk_range(alloc, &tree, pages, &range, entries)?;
    rising(alloc, numbers)
}

/// The numbers of the places that the entries in a range name, in the order of the index.
fn walk_range<P: Pages, E: Ledger>(
    alloc: Global,
    tree: &Tree,
    pages: &mut P,
    range: &PartRange,
    entries: &mut Steps<E>,
) -> Result<Vec<u64>, StoreFault>
    requires within { length range.now.low + 6 ≤ tree.now.width }
    requires going { (P.state pages.old).ended ≡ false }
    ensures numbers { IfOk result (λ numbers. (t : Forest) → HoldsTree P.Pages pages.old tree.now t → map rid_of_number numbers.items ≡ map rid_in_entry (walked tree.now.width range.now (leaf_entries t))) }
    ensures small { IfOk result (λ numbers. AllByRecursion (λ rid_number. rid_number < 2 ^ 48) numbers.items) }
    ensures counted { OnOk result ((t : Forest) → HoldsTree P.Pages pages.old tree.now t → entries.new ≡ entries.old + length (walked tree.now.width range.now (leaf_entries t))) }
    ensures same { (P.state pages.new).work ≡ (P.state pages.old).work }
    ensures runs { RunsOverPages P.Pages NoPage (IsTreePage P.Pages pages.old tree.now) (BreaksTree P.Pages pages.old tree.now) pages.old pages.new (fault_of result) }
{
    let mut numbers = Vec::new(alloc);
    let mut leaf = Leaf::new(alloc);
    let mut bound = Some(range.start(tree.width));
    'leaves: loop {
        let Some(low) = bound else {
            return Ok(numbers);
        };
        bound = read_leaf(tree, pages, low.bytes(), &mut leaf)?;
        if take_rids(range, &leaf.entries, &mut numbers, entries)? {
            return Ok(numbers);
        }
    }
}

/// The range of the entries with a value of a span in the first part.
fn first_part_range(
    alloc: Global,
    columns: &List<ColumnDef>,
    parts: &List<KeyPart>,
    span: &Span,
) -> Result<PartRange, StoreFault>
    requires parts { AreIndexParts columns.now parts.now }
    requires kind { IsTrue (span_has_kind_of (type_of_column columns.now (first_column parts.now)) span.now) }
    ensures values { IfOk result (λ range. IsRangeOf (type_of_column columns.now (first_column parts.now)) (is_first_descending parts.now) span.now range.low range.high) }
    ensures first { IfOk result (λ range. range.at ≡ 0) }
    ensures short { IfOk result (λ range. length range.low ≤ part_width (type_of_column columns.now (first_column parts.now))) }
    ensures memory { IfErr result (λ fault. fault ≡ StoreFault.Memory) }
{
    match key_range(alloc, columns, parts, span) {
        Ok((low, high)) => Ok(PartRange { at: 0, low, high }),
        Err(_) => Err(StoreFault::Memory),
    }
}

/// Takes the numbers of the places of the entries of a leaf, up to where the range ends. Says whether it ended.
fn take_rids<L: Ledger>(
    range: &PartRange,
    leaf: &Entries,
    numbers: &mut Vec<u64>,
    entries: &mut Steps<L>,
) -> Result<bool, StoreFault>
    requires long { AllByRecursion (λ entry. 6 ≤ length entry) leaf.now }
    requires small { AllByRecursion (λ rid_number. rid_number < 2 ^ 48) numbers.old.items }
    ensures numbers { OnOk result (map rid_of_number numbers.new.items ≡ map rid_of_number numbers.old.items ++ map rid_in_entry (entries_until range.now leaf.now)) }
    ensures small { OnOk result (AllByRecursion (λ rid_number. rid_number < 2 ^ 48) numbers.new.items) }
    ensures counted { OnOk result (entries.new ≡ entries.old + length (entries_until range.now leaf.now)) }
    ensures ended { IfOk result (λ ended. ended ≡ true → (rest : List Entry) → entries_until range.now (leaf.now ++ rest) ≡ entries_until range.now leaf.now) }
    ensures goes_on { IfOk result (λ ended. ended ≡ false → (rest : List Entry) → entries_until range.now (leaf.now ++ rest) ≡ entries_until range.now leaf.now ++ entries_until range.now rest) }
    ensures memory { IfErr result (λ fault. fault ≡ StoreFault.Memory) }
{
    for i in 0..leaf.len() {
        let entry = leaf.at(i);
        if range.ends_at(entry) {
            return Ok(true);
        }
        entries.tick();
        numbers.push(rid_number_in(entry))?;
    }
    Ok(false)
}

/// The number of the place that an entry names: its last six bytes.
fn rid_number_in(entry: &[u8]) -> u64
    requires { 6 ≤ length entry.now }
    ensures place { rid_of_number result ≡ rid_in_entry entry.now }
    ensures small { result < 2 ^ 48 }
{
    BigEndian::read_u48(&entry[entry.len() - 6..])
}

/// The places of these numbers, by rising number, each once.
fn rising(alloc: Global, mut numbers: Vec<u64>) -> Result<Rids, StoreFault>
    requires small { AllByRecursion (λ rid_number. rid_number < 2 ^ 48) numbers.items }
    ensures same { IfOk result (λ rids. (rid : Rid) → Contains rids rid ↔ Contains (map rid_of_number numbers.items) rid) }
    ensures places { IfOk result (λ rids. (rid : Rid) → Contains rids rid → IsRid rid) }
    ensures memory { IfErr result (λ fault. fault ≡ StoreFault.Memory) }
{
    numbers.sort_unstable();
    let mut rids = Rids::new(alloc);
    let mut from: u64 = 0;
    for rid_number in numbers.as_slice() {
        let rid_number = *rid_number;
        if rid_number >= from {
            push_rid(&mut rids, rid_number)?;
            from = rid_number + 1;
        }
    }
    Ok(rids)
}
