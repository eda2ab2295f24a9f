// A structure of two pages, of which one names the other.
ghost use Rattle.std.specs.Prelude.{◌≡◌, ◌<◌, length, false, slice_index, OnOk};
ghost use Rattle.store_api.specs.Frame.{Part, HoldsPage, IsPart, Own, IsBroken, OnlyPage, AreApart};
ghost use Rattle.store_api.specs.Causes.{fault_of};
ghost use Rattle.store_api.specs.RunsOverPages.{RunsOverPages};
ghost use Rattle.store_api_tests.specs.Firsts.{IsLinked};

use crate::first_byte;
use store_api::{Damage, Page, Pages, StoreFault, write_page};

/// Writes over the page that the root names.
pub fn set_linked<P: Pages>(pages: &mut P, root: u32, bytes: &Page) -> Result<(), StoreFault>
    requires going { (P.state pages.old).ended ≡ false }
    requires within { root < length (P.state pages.old).work }
    ensures set { OnOk result ((part : Part) → IsPart P.Pages pages.old part → IsLinked root part → HoldsPage P.Pages pages.new (slice_index (part root) 0) bytes.now) }
    ensures runs { RunsOverPages P.Pages (Own P.Pages pages.old (IsLinked root)) (OnlyPage root) (λ damage. IsBroken P.Pages pages.old (IsLinked root)) pages.old pages.new (fault_of result) }
{
    let page = u32::from(first_byte(pages, root)?);
    if page >= pages.count() {
        return Err(StoreFault::Damaged(Damage {
            page: root,
            rule: 2,
        }));
    }
    write_page(pages, page, bytes)?;
    Ok(())
}

/// Writes over the pages that two roots name, of structures that have no page in common.
pub fn set_both<P: Pages>(pages: &mut P, one: u32, two: u32, bytes: &Page) -> Result<(), StoreFault>
    requires going { (P.state pages.old).ended ≡ false }
    requires one { one < length (P.state pages.old).work }
    requires two { two < length (P.state pages.old).work }
    ensures set { OnOk result ((part : Part) → (other : Part) → IsPart P.Pages pages.old part → IsLinked one part → IsPart P.Pages pages.old other → IsLinked two other
        → AreApart other part → AreApart part other
        → HoldsPage P.Pages pages.new (slice_index (part one) 0) bytes.now × HoldsPage P.Pages pages.new (slice_index (other two) 0) bytes.now) }
{
    set_linked(pages, one, bytes)?;
    set_linked(pages, two, bytes)
}
