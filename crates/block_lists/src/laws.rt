// What holds of all lists.
ghost use Rattle.std.specs.Prelude.{◌≡◌};
ghost use Rattle.mdc_values.specs.declared.rid.Rid.{Rid};
ghost use Rattle.block_lists.specs.Lists.{AreLists, holds};

use crate::lists::Lists;

/// Blocks rise, places rise, and no place lies in a listed block.
pub fn lists_rise_apart(lists: &Lists)
    ensures { AreLists lists.now.blocks lists.now.rids }
{
    let _ = lists.blocks.as_slice();
    let _ = lists.rids.as_slice();
}

/// Lists that stand for the same rows are the same.
pub fn same_rows_same_lists(a: &Lists, b: &Lists)
    ensures { ((rid : Rid) → holds a.now rid ≡ holds b.now rid) → (a.now.blocks ≡ b.now.blocks) × (a.now.rids ≡ b.now.rids) }
{
    lists_rise_apart(a);
    lists_rise_apart(b);
}
