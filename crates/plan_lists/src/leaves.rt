// The lists of one part of a plan.
ghost use Rattle.std.specs.Prelude.{◌≡◌, false, true, IfOk, IsTrue};
ghost use Rattle.mdc_ast.specs.TableLimits.{IsTableDef};
ghost use Rattle.mdc_ast.specs.Truth.{value_at};
ghost use Rattle.key_codec.specs.Spans.{lies_in_span};
ghost use Rattle.store_api.specs.Causes.{fault_of};
ghost use Rattle.store_api.specs.Frame.{NoPage};
ghost use Rattle.store_api.specs.RunsOverPages.{RunsOverPages};
ghost use Rattle.table_trees.specs.TableTrees.{map_place, place_of_dimension};
ghost use Rattle.table_trees.specs.TreesBeside.{IsTreePageAt};
ghost use Rattle.mdc_sound.specs.StandingTable.{BreaksTable};
ghost use Rattle.record_index.specs.RecordIndexes.{place_of_record_index};
ghost use Rattle.plan_chooser.specs.PlanRows.{fits_dimension, fits_index, index_column};
ghost use Rattle.plan_lists.specs.PlanTrees.{StandsFor};

use block_index::blocks_in;
use block_lists::{ListTree, from_blocks, from_rids, leaf};
use mdc_ast::{Span, TableDef};
use mdc_table::used_blocks;
use mdc_words::Steps;
use record_index::rids_in;
use std::alloc::Global;
use std::sync::ledger::Ledger;
use store_api::{Pages, Shape, StoreFault};

/// The tree of all rows: the Used blocks.
pub(crate) fn whole_tree<P: Pages>(
    alloc: Global,
    def: &TableDef,
    shape: Shape,
    pages: &mut P,
) -> Result<ListTree, StoreFault>
    requires going { (P.state pages.old).ended ≡ false }
    ensures stands { IfOk result (StandsFor P.Pages shape pages.old def.now (λ values. true)) }
    ensures same { (P.state pages.new).work ≡ (P.state pages.old).work }
    ensures runs { RunsOverPages P.Pages NoPage (IsTreePageAt P.Pages pages.old (map_place def.now)) (BreaksTable P.Pages shape pages.old def.now) pages.old pages.new (fault_of result) }
{
    let blocks = used_blocks(alloc, def, shape, pages)?;
    Ok(leaf(from_blocks(alloc, blocks)))
}

/// The tree of the rows with a value of a column in a span: the blocks that the index of a dimension lists so.
pub(crate) fn dimension_tree<P: Pages, E: Ledger>(
    alloc: Global,
    def: &TableDef,
    shape: Shape,
    pages: &mut P,
    dim: u8,
    column: u8,
    span: &Span,
    entries: &mut Steps<E>,
) -> Result<ListTree, StoreFault>
    requires defined { IsTableDef def.now.number def.now }
    requires fits { IsTrue (fits_dimension def.now dim column span.now) }
    requires going { (P.state pages.old).ended ≡ false }
    ensures stands { IfOk result (StandsFor P.Pages shape pages.old def.now (λ values. lies_in_span span.now (value_at values column))) }
    ensures same { (P.state pages.new).work ≡ (P.state pages.old).work }
    ensures runs { RunsOverPages P.Pages NoPage (IsTreePageAt P.Pages pages.old (place_of_dimension def.now dim)) (BreaksTable P.Pages shape pages.old def.now) pages.old pages.new (fault_of result) }
{
    let _shape = shape;
    let blocks = blocks_in(alloc, def, pages, dim, column, span, entries)?;
    Ok(leaf(from_blocks(alloc, blocks)))
}

/// The tree of the rows with a value in a span in the first column of a record index: the places that the index names so.
pub(crate) fn record_tree<P: Pages, E: Ledger>(
    alloc: Global,
    def: &TableDef,
    shape: Shape,
    pages: &mut P,
    index: u8,
    span: &Span,
    entries: &mut Steps<E>,
) -> Result<ListTree, StoreFault>
    requires defined { IsTableDef def.now.number def.now }
    requires fits { IsTrue (fits_index def.now index span.now) }
    requires going { (P.state pages.old).ended ≡ false }
    ensures stands { IfOk result (StandsFor P.Pages shape pages.old def.now (λ values. lies_in_span span.now (value_at values (index_column def.now index)))) }
    ensures same { (P.state pages.new).work ≡ (P.state pages.old).work }
    ensures runs { RunsOverPages P.Pages NoPage (IsTreePageAt P.Pages pages.old (place_of_record_index def.now index)) (BreaksTable P.Pages shape pages.old def.now) pages.old pages.new (fault_of result) }
{
    let _shape = shape;
    let _tree = table_trees::record_tree(alloc, def, usize::from(index));
    let rids = rids_in(alloc, def, index, pages, span, entries)?;
    Ok(leaf(from_rids(alloc, rids)))
}
