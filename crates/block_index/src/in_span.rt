// The blocks that are listed with a value in a span.
ghost use Rattle.std.specs.Prelude.{◌≡◌, ◌+◌, ◌≤◌, ◌<◌, ◌↔◌, ℕ, false, length, Contains, IfErr, IfOk, IsTrue, OnOk};
ghost use Rattle.store_api.specs.Causes.{fault_of};
ghost use Rattle.store_api.specs.Frame.{NoPage};
ghost use Rattle.store_api.specs.RunsOverPages.{RunsOverPages};
ghost use Rattle.entry_tree.specs.Forest.{Forest, leaf_entries};
ghost use Rattle.entry_tree.specs.HeldTrees.{BreaksTree, HoldsTree, IsTreePage};
ghost use Rattle.entry_tree.specs.Reading.{entries_from};
ghost use Rattle.key_codec.specs.Keys.{type_of_column};
ghost use Rattle.key_codec.specs.Spans.{span_has_kind_of};
ghost use Rattle.table_trees.specs.TableTrees.{HasBlockIndexes, place_of_dimension, places_of_dimension};
ghost use Rattle.table_trees.specs.TreesBeside.{BreaksTreeAt, HoldsTreeAt, IsTreePageAt};
ghost use Rattle.block_index.specs.PartRanges.{blocks_in_range, entries_until, start_of_walk};
ghost use Rattle.block_index.specs.Reading.{AreBlocksInSpan, CountsEntries};

use crate::leaves::read_leaf;
use crate::part_range::PartRange;
use crate::under_key::push_block;
use entry_tree::{Leaf, Tree};
use mdc_ast::{Span, TableDef};
use mdc_values::Blocks;
use mdc_words::Steps;
use std::alloc::Global;
use std::sync::ledger::Ledger;
use store_api::{Pages, StoreFault};
use table_trees::dimension_tree;

/// The blocks that the index of a dimension lists with a value of one of its columns in a span, by rising number, each once.
/// On the first column of the dimension it goes over the entries of the span, else over all entries; `entries` counts them.
pub fn blocks_in<P: Pages, E: Ledger>(
    alloc: Global,
    def: &TableDef,
    pages: &mut P,
    dim: u8,
    column: u8,
    span: &Span,
    entries: &mut Steps<E>,
) -> Result<Blocks, StoreFault>
    requires indexes { HasBlockIndexes def.now }
    requires there { dim < length def.now.dims }
    requires column { Contains (places_of_dimension def.now dim) column }
    requires kind { IsTrue (span_has_kind_of (type_of_column def.now.columns column) span.now) }
    requires going { (P.state pages.old).ended ≡ false }
    ensures found { IfOk result (λ blocks. (t : Forest) → HoldsTreeAt P.Pages pages.old (place_of_dimension def.now dim) t
        → AreBlocksInSpan def.now.columns (places_of_dimension def.now dim) column span.now (leaf_entries t) blocks) }
    ensures counted { OnOk result ((t : Forest) → HoldsTreeAt P.Pages pages.old (place_of_dimension def.now dim) t
        → CountsEntries def.now.columns (places_of_dimension def.now dim) column span.now (leaf_entries t) entries.old entries.new) }
    ensures same { (P.state pages.new).work ≡ (P.state pages.old).work }
    ensures runs { RunsOverPages P.Pages NoPage (IsTreePageAt P.Pages pages.old (place_of_dimension def.now dim)) (BreaksTreeAt P.Pages pages.old (place_of_dimension def.now dim)) pages.old pages.new (fault_of result) }
{
    let dim = usize::from(dim);
    let range = PartRange::of(alloc, &def.columns, def.dims.at(dim), column, span)?;
    let tree = dimension_tree(alloc, def, dim);
    let blocks = walk_range(alloc, &tree, pages, &range, entries)?;
    rising(alloc, blocks)
}

/// The blocks of the entries in a range, in the order of the index.
fn walk_range<P: Pages, E: Ledger>(
    alloc: Global,
    tree: &Tree,
    pages: &mut P,
    range: &PartRange,
    entries: &mut Steps<E>,
) -> Result<Vec<u32>, StoreFault>
    requires within { range.now.at + length range.now.low + 4 ≤ tree.now.width }
    requires going { (P.state pages.old).ended ≡ false }
    ensures blocks { IfOk result (λ blocks. (t : Forest) → HoldsTree P.Pages pages.old tree.now t
        → blocks.items ≡ blocks_in_range range.now (entries_until range.now (entries_from (start_of_walk tree.now.width range.now) (leaf_entries t)))) }
    ensures counted { OnOk result ((t : Forest) → HoldsTree P.Pages pages.old tree.now t
        → entries.new ≡ entries.old + length (entries_until range.now (entries_from (start_of_walk tree.now.width range.now) (leaf_entries t)))) }
    ensures same { (P.state pages.new).work ≡ (P.state pages.old).work }
    ensures runs { RunsOverPages P.Pages NoPage (IsTreePage P.Pages pages.old tree.now) (BreaksTree P.Pages pages.old tree.now) pages.old pages.new (fault_of result) }
{
    let mut blocks = Vec::new(alloc);
    let mut leaf = Leaf::new(alloc);
    let mut bound = Some(range.start(tree.width));
    'leaves: loop {
        let Some(low) = bound else {
            return Ok(blocks);
        };
        bound = read_leaf(tree, pages, low.bytes(), &mut leaf)?;
        if range.take_blocks(&leaf.entries, &mut blocks, entries)? {
            return Ok(blocks);
        }
    }
}

/// These blocks by rising number, each once.
fn rising(alloc: Global, mut numbers: Vec<u32>) -> Result<Blocks, StoreFault>
    ensures same { IfOk result (λ blocks. (block : ℕ) → Contains blocks block ↔ Contains numbers.items block) }
    ensures memory { IfErr result (λ fault. fault ≡ StoreFault.Memory) }
{
    numbers.sort_unstable();
    let mut blocks = Blocks::new(alloc);
    let mut from: u64 = 0;
    for number in numbers.as_slice() {
        if u64::from(*number) >= from {
            push_block(&mut blocks, *number)?;
            from = u64::from(*number) + 1;
        }
    }
    Ok(blocks)
}
