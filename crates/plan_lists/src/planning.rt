// The tree of lists of a plan.
ghost use Rattle.std.specs.Prelude.{◌≡◌, false, IfOk, IsTrue};
ghost use Rattle.mdc_ast.specs.TableLimits.{IsTableDef};
ghost use Rattle.store_api.specs.Causes.{fault_of};
ghost use Rattle.store_api.specs.Frame.{NoPage};
ghost use Rattle.store_api.specs.RunsOverPages.{RunsOverPages};
ghost use Rattle.mdc_sound.specs.StandingTable.{BreaksTable};
ghost use Rattle.plan_chooser.specs.PlanRows.{fits_plan};
ghost use Rattle.plan_lists.specs.PlanTrees.{IsListPage, StandsForPlan};

use crate::leaves::{dimension_tree, record_tree, whole_tree};
use crate::parts::{joined, push_tree, tree_of_no_part};
use block_lists::ListTree;
use mdc_ast::TableDef;
use mdc_values::List;
use mdc_words::Steps;
use plan_chooser::Plan;
use std::alloc::Global;
use std::sync::ledger::Ledger;
use store_api::{Pages, Shape, StoreFault};

/// The tree of lists that stands for a plan, by what the indexes say that the plan names. It changes no page, and looks at no row page;
/// `entries` rises by the number of index entries that were gone over.
pub fn tree_of_plan<P: Pages, E: Ledger>(
    alloc: Global,
    def: &TableDef,
    shape: Shape,
    pages: &mut P,
    plan: &Plan,
    entries: &mut Steps<E>,
) -> Result<ListTree, StoreFault>
    requires defined { IsTableDef def.now.number def.now }
    requires fits { IsTrue (fits_plan def.now plan.now) }
    requires going { (P.state pages.old).ended ≡ false }
    ensures stands { IfOk result (StandsForPlan P.Pages shape pages.old def.now plan.now) }
    ensures same { (P.state pages.new).work ≡ (P.state pages.old).work }
    ensures runs { RunsOverPages P.Pages NoPage (IsListPage P.Pages pages.old def.now plan.now) (BreaksTable P.Pages shape pages.old def.now) pages.old pages.new (fault_of result) }
{
    match plan {
        Plan::Scan => whole_tree(alloc, def, shape, pages),
        Plan::Blocks(dim, column, span) => {
            dimension_tree(alloc, def, shape, pages, *dim, *column, span, entries)
        }
        Plan::Rids(index, span) => record_tree(alloc, def, shape, pages, *index, span, entries),
        Plan::All(parts) | Plan::Any(parts) => {
            if parts.len() == 0 {
                return tree_of_no_part(alloc, def, shape, pages, plan);
            }
            let mut trees = List::new(alloc);
            for part in parts.as_slice() {
                let tree = tree_of_plan(alloc, def, shape, pages, part, entries)?;
                push_tree(&mut trees, tree)?;
            }
            Ok(joined(plan, trees))
        }
    }
}
