// The trees of a plan's parts, joined.
ghost use Rattle.std.specs.Prelude.{◌≡◌, ◌++◌, ◌∷◌, ℕ, IsTrue, [], false, true, IfErr, IfOk, OnOk, List};
ghost use Rattle.store_api.specs.Causes.{fault_of};
ghost use Rattle.store_api.specs.Frame.{NoPage};
ghost use Rattle.store_api.specs.RunsOverPages.{RunsOverPages};
ghost use Rattle.table_trees.specs.TableTrees.{map_place};
ghost use Rattle.table_trees.specs.TreesBeside.{IsTreePageAt};
ghost use Rattle.mdc_sound.specs.StandingTable.{BreaksTable};
ghost use Rattle.mdc_values.specs.declared.rid.Rid.{Rid};
ghost use Rattle.block_lists.specs.Trees.{each_has_members, tree_holds, tree_lists_block};
ghost use Rattle.block_lists.specs.declared.tree.ListTree.TheVariants as list_tree;
ghost use Rattle.plan_chooser.specs.declared.plan.Plan.{Plan};
ghost use Rattle.plan_chooser.specs.declared.plan.Plan.TheVariants as plans;
ghost use Rattle.plan_lists.specs.PlanTrees.{StandsFor};

use crate::leaves::whole_tree;
use block_lists::{ListTree, empty, leaf};
use mdc_ast::TableDef;
use mdc_values::List;
use plan_chooser::Plan;
use std::alloc::Global;
use store_api::{Pages, Shape, StoreFault};

/// The tree of a plan without a part: all rows, or none.
pub(crate) fn tree_of_no_part<P: Pages>(
    alloc: Global,
    def: &TableDef,
    shape: Shape,
    pages: &mut P,
    plan: &Plan,
) -> Result<ListTree, StoreFault>
    requires going { (P.state pages.old).ended ≡ false }
    ensures all { plan.now ≡ plans.All [] → IfOk result (StandsFor P.Pages shape pages.old def.now (λ values. true)) }
    ensures none { plan.now ≡ plans.Any [] → IfOk result (StandsFor P.Pages shape pages.old def.now (λ values. false)) }
    ensures same { (P.state pages.new).work ≡ (P.state pages.old).work }
    ensures runs { RunsOverPages P.Pages NoPage (IsTreePageAt P.Pages pages.old (map_place def.now)) (BreaksTable P.Pages shape pages.old def.now) pages.old pages.new (fault_of result) }
{
    if let Plan::Any(_) = plan {
        return Ok(no_rows(alloc));
    }
    whole_tree(alloc, def, shape, pages)
}

/// The tree of no row.
fn no_rows(alloc: Global) -> ListTree
    ensures members { IsTrue (each_has_members result) }
    ensures rows { (rid : Rid) → tree_holds result rid ≡ false }
    ensures blocks { (block : ℕ) → tree_lists_block result block ≡ false }
{
    leaf(empty(alloc))
}

/// Trees joined as the parts of a plan are.
pub(crate) fn joined(plan: &Plan, trees: List<ListTree>) -> ListTree
    ensures all { (parts : List Plan) → plan.now ≡ plans.All parts → result ≡ list_tree.All trees }
    ensures any { (parts : List Plan) → plan.now ≡ plans.Any parts → result ≡ list_tree.Any trees }
{
    match plan {
        Plan::Any(_) => ListTree::Any(trees),
        _ => ListTree::All(trees),
    }
}

/// Puts a tree last.
pub(crate) fn push_tree(trees: &mut List<ListTree>, tree: ListTree) -> Result<(), StoreFault>
    ensures pushed { OnOk result (trees.new ≡ trees.old ++ tree ∷ []) }
    ensures memory { IfErr result (λ fault. fault ≡ StoreFault.Memory) }
{
    trees.push(tree)?;
    Ok(())
}
