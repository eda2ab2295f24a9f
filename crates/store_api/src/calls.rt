// The calls of pages, by what they do to pages that are told.
ghost use Rattle.std.specs.Prelude.{◌≡◌, ◌+◌, ◌<◌, ◌≤◌, ℕ, List, length, false, IsSome, Some, OnOk, OnErr};
ghost use Rattle.store_api.specs.Frame.{HoldsPage, WritesPage, PatchesPage, GrowsBy, OnlyPage, NoPage};
ghost use Rattle.store_api.specs.Fetching.{BringsOnce};
ghost use Rattle.store_api.specs.Causes.{fault_of, NoDamage};
ghost use Rattle.store_api.specs.RunsOverPages.{RunsOverPages};

use crate::{MAX_PAGES, Page, Pages, StoreFault, put};

/// Brings a page to hand.
pub fn bring<P: Pages>(pages: &mut P, p: u32) -> Result<(), StoreFault>
    requires going { (P.state pages.old).ended ≡ false }
    requires within { p < length (P.state pages.old).work }
    ensures there { OnOk result (IsSome (P.state pages.new).hand) }
    ensures hand { OnOk result ((bytes : List ℕ) → HoldsPage P.Pages pages.old p bytes → (P.state pages.new).hand ≡ Some bytes) }
    ensures same { (P.state pages.new).work ≡ (P.state pages.old).work }
    ensures once { BringsOnce P.Pages (OnlyPage p) pages.old pages.new }
    ensures runs { RunsOverPages P.Pages NoPage (OnlyPage p) NoDamage pages.old pages.new (fault_of result) }
{
    pages.fetch(p)?;
    Ok(())
}

/// Writes over a page.
pub fn write_page<P: Pages>(pages: &mut P, p: u32, bytes: &Page) -> Result<(), StoreFault>
    requires going { (P.state pages.old).ended ≡ false }
    requires within { p < length (P.state pages.old).work }
    ensures puts { OnOk result (WritesPage P.Pages p bytes.now pages.old pages.new) }
    ensures count { length (P.state pages.new).work ≡ length (P.state pages.old).work }
    ensures brings { (P.state pages.new).fetched ≡ (P.state pages.old).fetched }
    ensures runs { RunsOverPages P.Pages (OnlyPage p) NoPage NoDamage pages.old pages.new (fault_of result) }
{
    pages.write(p, bytes)?;
    Ok(())
}

/// Writes bytes over those of a page from a place on. The page comes to hand for it.
pub fn patch_page<P: Pages>(
    pages: &mut P,
    p: u32,
    at: usize,
    bytes: &[u8],
) -> Result<(), StoreFault>
    requires going { (P.state pages.old).ended ≡ false }
    requires within { p < length (P.state pages.old).work }
    requires room { at + length bytes.now ≤ 4096 }
    ensures patches { OnOk result (PatchesPage P.Pages p at bytes.now pages.old pages.new) }
    ensures count { length (P.state pages.new).work ≡ length (P.state pages.old).work }
    ensures once { BringsOnce P.Pages (OnlyPage p) pages.old pages.new }
    ensures runs { RunsOverPages P.Pages (OnlyPage p) (OnlyPage p) NoDamage pages.old pages.new (fault_of result) }
{
    put(pages.edit(p)?, at, bytes);
    Ok(())
}

/// Adds pages of zeros at the end.
pub fn add_pages<P: Pages>(pages: &mut P, n: u32) -> Result<(), StoreFault>
    requires going { (P.state pages.old).ended ≡ false }
    requires room { length (P.state pages.old).work + n ≤ MAX_PAGES }
    ensures grows { OnOk result (GrowsBy P.Pages n pages.old pages.new) }
    ensures not_grown { OnErr result (length (P.state pages.new).work ≡ length (P.state pages.old).work) }
    ensures brings { (P.state pages.new).fetched ≡ (P.state pages.old).fetched }
    ensures runs { RunsOverPages P.Pages NoPage NoPage NoDamage pages.old pages.new (fault_of result) }
{
    pages.grow(n)?;
    Ok(())
}
