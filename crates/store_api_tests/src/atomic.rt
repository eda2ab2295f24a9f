// Work that is done whole or not at all.
ghost use Rattle.std.specs.Prelude.{◌≡◌, ◌+◌, ◌<◌, ◌≤◌, ℕ, List, length, false, None, OnErr, IfOk};
ghost use Rattle.store_api.specs.Frame.{HoldsPage, OnlyPage};
ghost use Rattle.store_api.specs.Causes.{fault_of};
ghost use Rattle.store_api.specs.RunsOverPages.{RunsOverPages};
ghost use Rattle.store_api_tests.specs.Firsts.{BreaksFirst};

use crate::append;
use store_api::{MAX_PAGES, Page, Pages, StoreFault};

/// Adds an entry and notes it, or changes nothing.
pub fn append_or_not<P: Pages>(pages: &mut P, entry: &Page) -> Result<u32, StoreFault>
    requires going { (P.state pages.old).ended ≡ false }
    requires unmarked { (P.state pages.old).marked ≡ None }
    requires some { 0 < length (P.state pages.old).work }
    requires room { length (P.state pages.old).work + 1 ≤ MAX_PAGES }
    ensures not { OnErr result ((P.state pages.new).work ≡ (P.state pages.old).work) }
    ensures added { IfOk result (λ n. (head : List ℕ) → HoldsPage P.Pages pages.old 0 head → HoldsPage P.Pages pages.new n entry.now) }
    ensures runs { RunsOverPages P.Pages (OnlyPage 0) (OnlyPage 0) (BreaksFirst P.Pages pages.old) pages.old pages.new (fault_of result) }
{
    pages.mark();
    match append(pages, entry) {
        Ok(n) => {
            if let Err(fault) = pages.keep() {
                pages.undo();
                return Err(StoreFault::from(fault));
            }
            Ok(n)
        }
        Err(fault) => {
            pages.undo();
            Err(fault)
        }
    }
}
