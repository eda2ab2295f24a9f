// Several index pages that are claimed before a tree changes.
ghost use Rattle.std.specs.Prelude.{◌≡◌, ◌<◌, List, length, false, IfOk, IfErr, All};
ghost use Rattle.store_api.specs.Causes.{store_fault_in};
ghost use Rattle.store_api.specs.RunsOverPages.{RunsOverPages};
ghost use Rattle.extent_map.specs.Damages.{BreaksSpace, IfFull, store_part_of};
ghost use Rattle.extent_map.specs.Map.{HoldsMap, IsSpacePage, KeepsRoot, BringsZeros, KeepsMapForm};
ghost use Rattle.extent_map.specs.declared.kind.Kind.{Kind};
ghost use Rattle.entry_tree.specs.Standing.{ClaimsPages, GrowsWith, MeetsFull};

use extent_map::{SpaceFault, SpaceNotes};
use std::alloc::Global;
use store_api::{Pages, Shape};

/// Claims n index pages, one after the other.
pub(crate) fn claim_pages<P: Pages>(
    alloc: Global,
    shape: Shape,
    notes: &mut SpaceNotes,
    pages: &mut P,
    n: usize,
) -> Result<Vec<u32>, SpaceFault>
    requires going { (P.state pages.old).ended ≡ false }
    ensures many { IfOk result (λ claimed. length claimed.items ≡ n) }
    ensures there { IfOk result (λ claimed. All (λ p. p < length (P.state pages.new).work) claimed.items) }
    ensures grows { IfOk result (λ claimed. GrowsWith P.Pages shape pages.old pages.new claimed.items) }
    ensures claims { IfOk result (λ claimed. (owners : List Kind) → HoldsMap P.Pages shape pages.old owners → ClaimsPages P.Pages shape notes.old notes.new pages.new owners claimed.items) }
    ensures full { IfErr result (λ fault. IfFull fault (λ cap. (cap ≡ shape.extents) × ((owners : List Kind) → HoldsMap P.Pages shape pages.old owners → MeetsFull P.Pages shape notes.old notes.new pages.old pages.new owners n))) }
    ensures root { KeepsRoot P.Pages pages.old pages.new }
    ensures zeros { BringsZeros P.Pages (IsSpacePage shape) pages.old pages.new }
    ensures forms { KeepsMapForm P.Pages shape pages.old pages.new }
    ensures runs { RunsOverPages P.Pages (IsSpacePage shape) (IsSpacePage shape) (BreaksSpace P.Pages shape pages.old) pages.old pages.new (store_fault_in store_part_of result) }
{
    let mut claimed = Vec::with_capacity(alloc, n)?;
    for i in 0..n {
        let p = notes.claim_index_page(shape, pages)?;
        claimed.push(p)?;
    }
    Ok(claimed)
}
