// A caller with a fault of its own.
ghost use Rattle.std.specs.Prelude.{◌≡◌, ◌<◌, ◌≤◌, length, false, IsErrOf};
ghost use Rattle.store_api.specs.Frame.{OnlyPage};
ghost use Rattle.store_api.specs.Causes.{store_fault_in};
ghost use Rattle.store_api.specs.RunsOverPages.{RunsOverPages};
ghost use Rattle.store_api_tests.specs.Firsts.{BreaksFirst};
ghost use Rattle.store_api_tests.specs.Space.{store_part};

use crate::append;
use store_api::{MAX_PAGES, Page, Pages, StoreFault};

/// Why an entry wasn't added.
#[derive(Clone, Copy, Debug, PartialEq, Eq)]
pub enum SpaceFault {
    /// No page is left below this number.
    Full(u32),
    /// The store failed.
    Store(StoreFault),
}

impl From<StoreFault> for SpaceFault {
    ghost use Rattle.std.specs.Prelude.{◌≡◌};
    ghost use Rattle.store_api_tests.specs.declared.space.SpaceFault.TheVariants.{Store};

    ghost from_gives = { λ fault e. e ≡ Store fault };

    fn from(fault: StoreFault) -> Self {
        SpaceFault::Store(fault)
    }
}

/// Adds an entry where that makes no more pages than the cap.
pub fn append_below<P: Pages>(pages: &mut P, cap: u32, entry: &Page) -> Result<u32, SpaceFault>
    requires going { (P.state pages.old).ended ≡ false }
    requires some { 0 < length (P.state pages.old).work }
    requires few { cap ≤ MAX_PAGES }
    ensures full { IsErrOf result (SpaceFault.Full cap) → cap ≤ length (P.state pages.old).work }
    ensures runs { RunsOverPages P.Pages (OnlyPage 0) (OnlyPage 0) (BreaksFirst P.Pages pages.old) pages.old pages.new (store_fault_in store_part result) }
{
    if pages.count() >= cap {
        return Err(SpaceFault::Full(cap));
    }
    Ok(append(pages, entry)?)
}
