// What makes a claim cheap: from where on something may be free.
ghost use Rattle.std.specs.Prelude.{◌≡◌, ◌+◌, ◌<◌, ◌≤◌, List, length, false, max, IsTrue, IfOk, IfErr, OnOk, OnErr};
ghost use Rattle.store_api.specs.Extents.{first_page_of};
ghost use Rattle.store_api.specs.Frame.{OnlyPage, NoPage, IsCounted};
ghost use Rattle.store_api.specs.Causes.{fault_of, store_fault_in};
ghost use Rattle.store_api.specs.RunsOverPages.{RunsOverPages};
ghost use Rattle.store_api.specs.declared.shape.Shape.{Shape};

use crate::changing::{kind_of, set_kind};
use crate::claiming::{claim_extent, take_page};
use crate::finding::{Wanted, find};
use crate::kind::{is_block_kind, is_used_place, without_place};
use crate::layout::{unused_page, wrong_entry};
use crate::places::{extent_of, first_page, place_of, whole_extents};
use crate::{Kind, SpaceFault};
use store_api::{Pages, Shape, StoreFault};

/// Two notes that make a claim cheap: from which extent on one may be free, and from which on one may have an index page
/// that isn't used.
///
/// Where the work goes back, by `undo` or `rollback`, they have to be forgotten. A note that is too high makes a claim
/// take one that isn't the lowest, or answer Full too early; it breaks nothing else.
#[derive(Clone, Copy, Debug)]
pub struct SpaceNotes {
    pub(crate) free_from: u32,
    pub(crate) unused_from: u32,
}

impl SpaceNotes {
    ghost use Rattle.extent_map.specs.Damages.{BreaksSpace, BreaksBlock, BreaksUsedPage, IfFull, store_part_of};
    ghost use Rattle.extent_map.specs.Kinds.{is_block_kind};
    ghost use Rattle.extent_map.specs.Map.{HoldsMap, IsSpacePage, ChangesCount, StatesGrowth, BringsZeros, KeepsMapForm, map_page_of};
    ghost use Rattle.extent_map.specs.Owners.{owner_of, extent_of, IsExtentPage, IsUsedPage, HasNoFree, HasNoUnused, IsLowestFree, IsClaimable, IsLowestClaimable, with_block, without_block, with_used_page, without_page, AreRightNotes};
    ghost use Rattle.extent_map.specs.declared.kind.Kind.{Kind};

    /// Notes that are right of any map.
    pub fn new() -> SpaceNotes
        ensures { (shape : Shape) (owners : List Kind) → AreRightNotes shape result owners }
    {
        SpaceNotes {
            free_from: 0,
            unused_from: 0,
        }
    }

    /// Forgets what is noted, so that it is right of any map.
    pub fn forget(&mut self)
        ensures { (shape : Shape) (owners : List Kind) → AreRightNotes shape self.new owners }
    {
        *self = SpaceNotes::new();
    }

    /// Makes the lowest free extent a block of a table, and answers its number. The file grows where it ends before that
    /// extent's end; its pages are left as they are. After a fault the owners are as they were; only pages of zeros may
    /// have come.
    pub fn claim_block<P: Pages>(
        &mut self,
        shape: Shape,
        pages: &mut P,
        table: u8,
    ) -> Result<u32, SpaceFault>
        requires going { (P.state pages.old).ended ≡ false }
        ensures free { IfOk result (λ e. (owners : List Kind) → HoldsMap P.Pages shape pages.old owners → owner_of owners e ≡ Kind.Free) }
        ensures lowest { IfOk result (λ e. (owners : List Kind) → HoldsMap P.Pages shape pages.old owners → AreRightNotes shape self.old owners → IsLowestFree owners e) }
        ensures claims { IfOk result (λ e. (owners : List Kind) → HoldsMap P.Pages shape pages.old owners → HoldsMap P.Pages shape pages.new (with_block owners e table)) }
        ensures notes { IfOk result (λ e. (owners : List Kind) → HoldsMap P.Pages shape pages.old owners → AreRightNotes shape self.old owners → AreRightNotes shape self.new (with_block owners e table)) }
        ensures within { IfOk result (λ e. e < shape.extents) }
        ensures count { IfOk result (λ e. length (P.state pages.new).work ≡ max (length (P.state pages.old).work) (first_page_of shape.extents shape.extent_pages (e + 1))) }
        ensures counted { OnOk result (IsCounted P.Pages pages.old → IsCounted P.Pages pages.new) }
        ensures stated { OnOk result (StatesGrowth P.Pages pages.old pages.new) }

        ensures full { IfErr result (λ fault. IfFull fault (λ cap. (cap ≡ shape.extents) × ((P.state pages.new).work ≡ (P.state pages.old).work))) }
        ensures only_full { IfErr result (λ fault. IfFull fault (λ cap. (owners : List Kind) → HoldsMap P.Pages shape pages.old owners → AreRightNotes shape self.old owners → HasNoFree owners)) }
        ensures kept { OnErr result ((owners : List Kind) → HoldsMap P.Pages shape pages.old owners → HoldsMap P.Pages shape pages.new owners) }
        ensures kept_notes { OnErr result ((owners : List Kind) → HoldsMap P.Pages shape pages.old owners → AreRightNotes shape self.old owners → AreRightNotes shape self.new owners) }

        ensures root { ChangesCount P.Pages pages.old pages.new }
        ensures zeros { BringsZeros P.Pages NoPage pages.old pages.new }
        ensures forms { KeepsMapForm P.Pages shape pages.old pages.new }
        ensures runs { RunsOverPages P.Pages (IsSpacePage shape) (IsSpacePage shape) (BreaksSpace P.Pages shape pages.old) pages.old pages.new (store_fault_in store_part_of result) }
    {
        let Some(e) = claim_extent(shape, pages, self.free_from, Kind::Block(table))? else {
            self.free_from = shape.extents;
            return Err(SpaceFault::Full(shape.extents));
        };
        self.free_from = e + 1;
        Ok(e)
    }

    /// Takes the lowest page of the index extents that isn't used, or else the first page of the lowest free extent, which
    /// becomes an index extent. Answers its number, and leaves what it holds as it is. After a fault the owners are as they
    /// were; only pages of zeros may have come.
    pub fn claim_index_page<P: Pages>(
        &mut self,
        shape: Shape,
        pages: &mut P,
    ) -> Result<u32, SpaceFault>
        requires going { (P.state pages.old).ended ≡ false }
        ensures unused { IfOk result (λ p. (owners : List Kind) → HoldsMap P.Pages shape pages.old owners → IsClaimable shape owners p) }
        ensures lowest { IfOk result (λ p. (owners : List Kind) → HoldsMap P.Pages shape pages.old owners → AreRightNotes shape self.old owners → IsLowestClaimable shape owners p) }
        ensures claims { IfOk result (λ p. (owners : List Kind) → HoldsMap P.Pages shape pages.old owners → HoldsMap P.Pages shape pages.new (with_used_page shape owners p)) }
        ensures notes { IfOk result (λ p. (owners : List Kind) → HoldsMap P.Pages shape pages.old owners → AreRightNotes shape self.old owners → AreRightNotes shape self.new (with_used_page shape owners p)) }
        ensures within { IfOk result (λ p. IsExtentPage shape p) }
        ensures there { IfOk result (λ p. p < length (P.state pages.new).work) }
        ensures count { IfOk result (λ p. length (P.state pages.new).work ≡ max (length (P.state pages.old).work) (first_page_of shape.extents shape.extent_pages (extent_of shape p + 1))) }
        ensures counted { OnOk result (IsCounted P.Pages pages.old → IsCounted P.Pages pages.new) }
        ensures stated { OnOk result (StatesGrowth P.Pages pages.old pages.new) }

        ensures full { IfErr result (λ fault. IfFull fault (λ cap. (cap ≡ shape.extents) × ((P.state pages.new).work ≡ (P.state pages.old).work))) }
        ensures only_full { IfErr result (λ fault. IfFull fault (λ cap. (owners : List Kind) → HoldsMap P.Pages shape pages.old owners → AreRightNotes shape self.old owners → HasNoFree owners × HasNoUnused shape owners)) }
        ensures kept { OnErr result ((owners : List Kind) → HoldsMap P.Pages shape pages.old owners → HoldsMap P.Pages shape pages.new owners) }
        ensures kept_notes { OnErr result ((owners : List Kind) → HoldsMap P.Pages shape pages.old owners → AreRightNotes shape self.old owners → AreRightNotes shape self.new owners) }

        ensures root { ChangesCount P.Pages pages.old pages.new }
        ensures zeros { BringsZeros P.Pages NoPage pages.old pages.new }
        ensures forms { KeepsMapForm P.Pages shape pages.old pages.new }
        ensures runs { RunsOverPages P.Pages (IsSpacePage shape) (IsSpacePage shape) (BreaksSpace P.Pages shape pages.old) pages.old pages.new (store_fault_in store_part_of result) }
    {
        // Behind the pages that there are, each extent is free.
        let to = whole_extents(shape, pages.count());
        let found = find(shape, pages, Wanted::UnusedPage, self.unused_from, to)?;
        if let Some((e, kind)) = found {
            let p = take_page(shape, pages, e, kind)?;
            self.unused_from = e;
            return Ok(p);
        }
        let Some(e) = claim_extent(shape, pages, self.free_from, Kind::Index(1))? else {
            self.free_from = shape.extents;
            self.unused_from = shape.extents;
            return Err(SpaceFault::Full(shape.extents));
        };
        self.free_from = e + 1;
        self.unused_from = e;
        Ok(first_page(shape, e))
    }

    /// Makes a block free. `Damaged` says that the map has a wrong form there, or that the extent isn't a block. After a
    /// fault the map is as it was.
    pub fn give_back<P: Pages>(
        &mut self,
        shape: Shape,
        pages: &mut P,
        e: u32,
    ) -> Result<(), StoreFault>
        requires going { (P.state pages.old).ended ≡ false }
        requires below { e < shape.extents }
        ensures block { OnOk result ((owners : List Kind) → HoldsMap P.Pages shape pages.old owners → IsTrue (is_block_kind (owner_of owners e))) }
        ensures gives { OnOk result ((owners : List Kind) → HoldsMap P.Pages shape pages.old owners → HoldsMap P.Pages shape pages.new (without_block owners e)) }
        ensures notes { OnOk result ((owners : List Kind) → AreRightNotes shape self.old owners → AreRightNotes shape self.new (without_block owners e)) }
        ensures kept { OnErr result ((P.state pages.new).work ≡ (P.state pages.old).work) }
        ensures kept_notes { OnErr result (self.new ≡ self.old) }
        ensures forms { KeepsMapForm P.Pages shape pages.old pages.new }
        ensures count { length (P.state pages.new).work ≡ length (P.state pages.old).work }
        ensures runs { RunsOverPages P.Pages (OnlyPage (map_page_of e)) (OnlyPage (map_page_of e)) (BreaksBlock P.Pages shape pages.old e) pages.old pages.new (fault_of result) }
    {
        let kind = kind_of(shape, pages, e)?;
        if !is_block_kind(kind) {
            return Err(StoreFault::Damaged(wrong_entry(e)));
        }
        set_kind(pages, e, Kind::Free)?;
        self.free_from = self.free_from.min(e);
        Ok(())
    }

    /// Gives a used page of an index extent back. An extent without a used page becomes free. `Damaged` names the page of
    /// the map where that has a wrong form, and the page itself where it isn't a used one of an index extent. After a fault
    /// the map is as it was.
    pub fn give_index_page<P: Pages>(
        &mut self,
        shape: Shape,
        pages: &mut P,
        p: u32,
    ) -> Result<(), StoreFault>
        requires going { (P.state pages.old).ended ≡ false }
        requires page { IsExtentPage shape p }
        ensures used { OnOk result ((owners : List Kind) → HoldsMap P.Pages shape pages.old owners → IsUsedPage shape owners p) }
        ensures gives { OnOk result ((owners : List Kind) → HoldsMap P.Pages shape pages.old owners → HoldsMap P.Pages shape pages.new (without_page shape owners p)) }
        ensures notes { OnOk result ((owners : List Kind) → HoldsMap P.Pages shape pages.old owners → AreRightNotes shape self.old owners → AreRightNotes shape self.new (without_page shape owners p)) }
        ensures kept { OnErr result ((P.state pages.new).work ≡ (P.state pages.old).work) }
        ensures kept_notes { OnErr result (self.new ≡ self.old) }
        ensures forms { KeepsMapForm P.Pages shape pages.old pages.new }
        ensures count { length (P.state pages.new).work ≡ length (P.state pages.old).work }
        ensures runs { RunsOverPages P.Pages (OnlyPage (map_page_of (extent_of shape p))) (OnlyPage (map_page_of (extent_of shape p))) (BreaksUsedPage P.Pages shape pages.old p) pages.old pages.new (fault_of result) }
    {
        let e = extent_of(shape, p);
        let place = place_of(shape, p);
        let kind = kind_of(shape, pages, e)?;
        if !is_used_place(kind, place) {
            return Err(StoreFault::Damaged(unused_page(p)));
        }
        set_kind(pages, e, without_place(kind, place))?;
        self.free_from = self.free_from.min(e);
        self.unused_from = self.unused_from.min(e);
        Ok(())
    }
}
