// A ledger: page 0 is its head, which begins with 77, and each entry is a page.
ghost use Rattle.std.specs.Prelude.{◌≡◌, ◌+◌, ◌-◌, ◌<◌, ◌≤◌, ◌⊎◌, ℕ, List, [], ◌∷◌, length, false, OnOk, IfOk};
ghost use Rattle.store_api.specs.StoreState.{patched};
ghost use Rattle.store_api.specs.Frame.{Part, HoldsPage, OnlyPage};
ghost use Rattle.store_api.specs.RunsOverPages.{RunsOverPages};
ghost use Rattle.store_api.specs.Fetching.{PagesBetween};
ghost use Rattle.store_api.specs.Causes.{fault_of, NoDamage};
ghost use Rattle.store_api_tests.specs.Firsts.{sum_first, HoldsAll, BreaksFirst};

use crate::{first_byte, sum};
use store_api::{Damage, MAX_PAGES, Page, Pages, StoreFault, add_pages, patch_page, write_page};

/// Adds an entry, and notes it in the head. Answers its number.
pub fn append<P: Pages>(pages: &mut P, entry: &Page) -> Result<u32, StoreFault>
    requires going { (P.state pages.old).ended ≡ false }
    requires some { 0 < length (P.state pages.old).work }
    requires room { length (P.state pages.old).work + 1 ≤ MAX_PAGES }
    ensures number { IfOk result (λ n. n ≡ length (P.state pages.old).work) }
    ensures count { OnOk result (length (P.state pages.new).work ≡ length (P.state pages.old).work + 1) }
    ensures added { IfOk result (λ n. (head : List ℕ) → HoldsPage P.Pages pages.old 0 head → HoldsPage P.Pages pages.new n entry.now) }
    ensures noted { OnOk result ((head : List ℕ) → HoldsPage P.Pages pages.old 0 head → HoldsPage P.Pages pages.new 0 (patched 1 (1 ∷ []) head)) }
    ensures runs { RunsOverPages P.Pages (OnlyPage 0) (OnlyPage 0) (BreaksFirst P.Pages pages.old) pages.old pages.new (fault_of result) }
{
    if first_byte(pages, 0)? != 77 {
        return Err(StoreFault::Damaged(Damage { page: 0, rule: 1 }));
    }
    let n = pages.count();
    add_pages(pages, 1)?;
    write_page(pages, n, entry)?;
    patch_page(pages, 0, 1, &[1])?;
    Ok(n)
}

/// Adds an entry, and sums others.
pub fn append_and_sum<P: Pages>(
    pages: &mut P,
    entry: &Page,
    a: u32,
    b: u32,
) -> Result<u64, StoreFault>
    requires going { (P.state pages.old).ended ≡ false }
    requires apart { 0 < a }
    requires ordered { a ≤ b }
    requires within { b ≤ length (P.state pages.old).work }
    requires some { 0 < length (P.state pages.old).work }
    requires room { length (P.state pages.old).work + 1 ≤ MAX_PAGES }
    ensures value { IfOk result (λ n. (part : Part) → HoldsAll P.Pages pages.old a b part → n ≡ sum_first part a (b - a)) }
    ensures runs { RunsOverPages P.Pages (OnlyPage 0) (λ p. (p ≡ 0) ⊎ PagesBetween a b p) (BreaksFirst P.Pages pages.old) pages.old pages.new (fault_of result) }
{
    append(pages, entry)?;
    sum(pages, a, b)
}

/// Gives each page from `a` on to before `b` the number as its first byte, in place.
pub fn renumber<P: Pages>(pages: &mut P, a: u32, b: u32, number: u8) -> Result<(), StoreFault>
    requires going { (P.state pages.old).ended ≡ false }
    requires ordered { a ≤ b }
    requires within { b ≤ length (P.state pages.old).work }
    ensures count { length (P.state pages.new).work ≡ length (P.state pages.old).work }
    ensures numbered { OnOk result ((part : Part) → HoldsAll P.Pages pages.old a b part → HoldsAll P.Pages pages.new a b (λ p. patched 0 (number ∷ []) (part p))) }
    ensures runs { RunsOverPages P.Pages (PagesBetween a b) (PagesBetween a b) NoDamage pages.old pages.new (fault_of result) }
{
    for i in a..b {
        patch_page(pages, i, 0, &[number])?;
    }
    Ok(())
}
