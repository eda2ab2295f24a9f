// Reads of the first bytes of pages.
ghost use Rattle.std.specs.Prelude.{◌≡◌, ◌-◌, ◌<◌, ◌≤◌, ℕ, List, length, false, slice_index, IfOk, IfSome};
ghost use Rattle.store_api.specs.Frame.{Part, HoldsPage, OnlyPage, NoPage};
ghost use Rattle.store_api.specs.RunsOverPages.{RunsOverPages};
ghost use Rattle.store_api.specs.Fetching.{BringsOnce, PagesBetween};
ghost use Rattle.store_api.specs.Causes.{fault_of, NoDamage};
ghost use Rattle.store_api_tests.specs.Firsts.{sum_first, HoldsAll, FindsFirst};

use store_api::{Pages, StoreFault, bring};

/// The first byte of a page.
pub fn first_byte<P: Pages>(pages: &mut P, p: u32) -> Result<u8, StoreFault>
    requires going { (P.state pages.old).ended ≡ false }
    requires within { p < length (P.state pages.old).work }
    ensures value { IfOk result (λ byte. (bytes : List ℕ) → HoldsPage P.Pages pages.old p bytes → byte ≡ slice_index bytes 0) }
    ensures same { (P.state pages.new).work ≡ (P.state pages.old).work }
    ensures once { BringsOnce P.Pages (OnlyPage p) pages.old pages.new }
    ensures runs { RunsOverPages P.Pages NoPage (OnlyPage p) NoDamage pages.old pages.new (fault_of result) }
{
    bring(pages, p)?;
    Ok(pages.page()[0])
}

/// The sum of the first bytes of the pages from `a` on to before `b`.
pub fn sum<P: Pages>(pages: &mut P, a: u32, b: u32) -> Result<u64, StoreFault>
    requires going { (P.state pages.old).ended ≡ false }
    requires ordered { a ≤ b }
    requires within { b ≤ length (P.state pages.old).work }
    ensures value { IfOk result (λ n. (part : Part) → HoldsAll P.Pages pages.old a b part → n ≡ sum_first part a (b - a)) }
    ensures once { BringsOnce P.Pages (PagesBetween a b) pages.old pages.new }
    ensures runs { RunsOverPages P.Pages NoPage (PagesBetween a b) NoDamage pages.old pages.new (fault_of result) }
{
    let mut all = 0;
    for i in a..b {
        let byte = first_byte(pages, i)?;
        all += u64::from(byte);
    }
    Ok(all)
}

/// The first page from `a` on to before `b` that begins with the byte.
pub fn find<P: Pages>(pages: &mut P, a: u32, b: u32, byte: u8) -> Result<Option<u32>, StoreFault>
    requires going { (P.state pages.old).ended ≡ false }
    requires ordered { a ≤ b }
    requires within { b ≤ length (P.state pages.old).work }
    ensures found { IfOk result (λ found. (part : Part) → HoldsAll P.Pages pages.old a b part → FindsFirst part a b byte found) }
    ensures between { IfOk result (λ found. IfSome found (PagesBetween a b)) }
    ensures once { BringsOnce P.Pages (PagesBetween a b) pages.old pages.new }
    ensures runs { RunsOverPages P.Pages NoPage (PagesBetween a b) NoDamage pages.old pages.new (fault_of result) }
{
    for i in a..b {
        let first = first_byte(pages, i)?;
        if first == byte {
            return Ok(Some(i));
        }
    }
    Ok(None)
}
