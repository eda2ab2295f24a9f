// Pages of the map and the page count, as they are looked at and changed.
ghost use Rattle.std.specs.Prelude.{◌≡◌, ◌≢◌, ◌+◌, ◌<◌, ◌≤◌, ℕ, List, length, false, max, IsSome, Some, IfOk, OnOk, OnErr};
ghost use Rattle.store_api.specs.Extents.{first_page_of};
ghost use Rattle.store_api.specs.StoreState.{patched};
ghost use Rattle.store_api.specs.Frame.{HoldsPage, PatchesPage, OnlyPage, NoPage, IsCounted};
ghost use Rattle.store_api.specs.Causes.{fault_of, NoDamage};
ghost use Rattle.store_api.specs.RunsOverPages.{RunsOverPages};
ghost use Rattle.extent_map.specs.Damages.{BreaksSpace};
ghost use Rattle.extent_map.specs.Kinds.{kind_bytes, IsKindOf};
ghost use Rattle.extent_map.specs.Map.{HoldsMap, ChangesCount, StatesGrowth, BringsZeros, map_page_of, entry_place};
ghost use Rattle.extent_map.specs.Owners.{owner_of};
ghost use Rattle.extent_map.specs.Searches.{ShowsOwner};
ghost use Rattle.extent_map.specs.declared.kind.Kind.{Kind};

use crate::kind::{Kind, is_owned, kind_bytes, kind_in};
use crate::layout::{COUNT_PLACE, entry_place, map_page_of, wrong_count, wrong_entry};
use crate::places::end_of;
use store_api::{MAX_PAGES, Page, Pages, Shape, StoreFault, add_pages, bring, put};

/// Brings the page of the map to hand on which an extent stands.
pub(crate) fn bring_map_page<P: Pages>(
    shape: Shape,
    pages: &mut P,
    e: u32,
) -> Result<(), StoreFault>
    requires going { (P.state pages.old).ended ≡ false }
    requires below { e < shape.extents }
    ensures at_hand { OnOk result (IsSome (P.state pages.new).hand) }
    ensures hand { OnOk result ((bytes : List ℕ) → HoldsPage P.Pages pages.old (map_page_of e) bytes → (P.state pages.new).hand ≡ Some bytes) }
    ensures there { OnOk result (map_page_of e < length (P.state pages.old).work) }
    ensures same { (P.state pages.new).work ≡ (P.state pages.old).work }
    ensures runs { RunsOverPages P.Pages NoPage (OnlyPage (map_page_of e)) (BreaksSpace P.Pages shape pages.old) pages.old pages.new (fault_of result) }
{
    let p = map_page_of(e);
    if p >= pages.count() {
        return Err(StoreFault::Damaged(wrong_count()));
    }
    bring(pages, p)
}

/// What an extent is. One that isn't free lies within the pages that there are.
pub fn kind_of<P: Pages>(shape: Shape, pages: &mut P, e: u32) -> Result<Kind, StoreFault>
    requires going { (P.state pages.old).ended ≡ false }
    requires below { e < shape.extents }
    ensures value { IfOk result (λ kind. (owners : List Kind) → HoldsMap P.Pages shape pages.old owners → kind ≡ owner_of owners e) }
    ensures shown { IfOk result (ShowsOwner P.Pages shape pages.old e) }
    ensures form { IfOk result (IsKindOf shape.extent_pages) }
    ensures there { IfOk result (λ kind. kind ≢ Kind.Free → first_page_of shape.extents shape.extent_pages (e + 1) ≤ length (P.state pages.old).work) }
    ensures map_there { OnOk result (map_page_of e < length (P.state pages.old).work) }
    ensures same { (P.state pages.new).work ≡ (P.state pages.old).work }
    ensures runs { RunsOverPages P.Pages NoPage (OnlyPage (map_page_of e)) (BreaksSpace P.Pages shape pages.old) pages.old pages.new (fault_of result) }
{
    bring_map_page(shape, pages, e)?;
    let Some(kind) = kind_in(pages.page(), e, shape.extent_pages) else {
        return Err(StoreFault::Damaged(wrong_entry(e)));
    };
    if is_owned(kind) && end_of(shape, e) > pages.count() {
        return Err(StoreFault::Damaged(wrong_entry(e)));
    }
    Ok(kind)
}

/// Writes bytes over those of a page from a place on. After a fault the page is as it was.
fn overwrite<P: Pages>(pages: &mut P, p: u32, at: usize, bytes: &[u8]) -> Result<(), StoreFault>
    requires going { (P.state pages.old).ended ≡ false }
    requires within { p < length (P.state pages.old).work }
    requires room { at + length bytes.now ≤ 4096 }
    ensures patches { OnOk result (PatchesPage P.Pages p at bytes.now pages.old pages.new) }
    ensures whole { OnOk result ((was : List ℕ) → HoldsPage P.Pages pages.old p was → length was ≡ 4096) }
    ensures kept { OnErr result ((P.state pages.new).work ≡ (P.state pages.old).work) }
    ensures count { length (P.state pages.new).work ≡ length (P.state pages.old).work }
    ensures runs { RunsOverPages P.Pages (OnlyPage p) (OnlyPage p) NoDamage pages.old pages.new (fault_of result) }
{
    put_bytes(pages.edit(p)?, at, bytes);
    Ok(())
}

// `put`, which says besides how long a page is.
fn put_bytes(page: &mut Page, at: usize, bytes: &[u8])
    requires { at + length bytes.now ≤ 4096 }
    ensures puts { page.new ≡ patched at bytes.now page.old }
    ensures whole { length page.old ≡ 4096 }
{
    put(page, at, bytes);
}

/// Makes an extent of a kind, in the map alone. After a fault the map is as it was.
pub(crate) fn set_kind<P: Pages>(pages: &mut P, e: u32, kind: Kind) -> Result<(), StoreFault>
    requires going { (P.state pages.old).ended ≡ false }
    requires there { map_page_of e < length (P.state pages.old).work }
    ensures sets { OnOk result (PatchesPage P.Pages (map_page_of e) (entry_place e) (kind_bytes kind) pages.old pages.new) }
    ensures kept { OnErr result ((P.state pages.new).work ≡ (P.state pages.old).work) }
    ensures count { length (P.state pages.new).work ≡ length (P.state pages.old).work }
    ensures runs { RunsOverPages P.Pages (OnlyPage (map_page_of e)) (OnlyPage (map_page_of e)) NoDamage pages.old pages.new (fault_of result) }
{
    overwrite(pages, map_page_of(e), entry_place(e), &kind_bytes(kind))
}

/// Sees to it that there are so many pages at least, and that page 0 states how many there are.
pub(crate) fn grow_to<P: Pages>(pages: &mut P, end: u32) -> Result<(), StoreFault>
    requires going { (P.state pages.old).ended ≡ false }
    requires some { 0 < length (P.state pages.old).work }
    requires few { end ≤ MAX_PAGES }
    ensures count { OnOk result (length (P.state pages.new).work ≡ max (length (P.state pages.old).work) end) }
    ensures root { ChangesCount P.Pages pages.old pages.new }
    ensures stated { OnOk result (StatesGrowth P.Pages pages.old pages.new) }
    ensures zeros { BringsZeros P.Pages NoPage pages.old pages.new }
    ensures counted { OnOk result (IsCounted P.Pages pages.old → IsCounted P.Pages pages.new) }
    ensures runs { RunsOverPages P.Pages (OnlyPage 0) (OnlyPage 0) NoDamage pages.old pages.new (fault_of result) }
{
    let count = pages.count();
    if end <= count {
        return Ok(());
    }
    add_pages(pages, end - count)?;
    overwrite(pages, 0, COUNT_PLACE, &end.to_be_bytes())
}
