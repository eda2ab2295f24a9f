// A page that comes to hand.
ghost use Rattle.std.specs.Prelude.{◌≡◌, ◌≤◌, Some, length, false, IsTrue, IsSome, OnOk};
ghost use Rattle.store_api.specs.Causes.{fault_of};
ghost use Rattle.store_api.specs.Frame.{NoPage, OnlyPage};
ghost use Rattle.store_api.specs.RunsOverPages.{RunsOverPages};
ghost use Rattle.store_api.specs.StoreState.{page_at};

use store_api::{Damage, Pages, StoreFault, bring};

/// Brings a page to hand, or answers this damage of it where there is no such page.
pub fn bring_page<P: Pages>(pages: &mut P, missing: Damage) -> Result<(), StoreFault>
    requires going { (P.state pages.old).ended ≡ false }
    ensures there { OnOk result (IsSome (P.state pages.new).hand) }
    ensures hand { OnOk result (IsTrue (P.state pages.old).is_told → (P.state pages.new).hand ≡ Some (page_at (P.state pages.old).work missing.page)) }
    ensures same { (P.state pages.new).work ≡ (P.state pages.old).work }
    ensures runs { RunsOverPages P.Pages NoPage (OnlyPage missing.page) (λ damage. (damage ≡ missing) × (length (P.state pages.old).work ≤ missing.page)) pages.old pages.new (fault_of result) }
{
    if missing.page >= pages.count() {
        return Err(StoreFault::Damaged(missing));
    }
    bring(pages, missing.page)
}
