// A structure that owns its pages.
ghost use Rattle.std.specs.Prelude.{◌≡◌, ◌+◌, ◌-◌, ◌<◌, ◌≤◌, length, false, OnOk, IfOk};
ghost use Rattle.store_api.specs.Frame.{Part, NoPage, WritesPage};
ghost use Rattle.store_api.specs.Fetching.{PagesBetween};
ghost use Rattle.store_api.specs.Causes.{fault_of, NoDamage};
ghost use Rattle.store_api.specs.RunsOverPages.{RunsOverPages};
ghost use Rattle.store_api_tests.specs.Firsts.{sum_first, HoldsAll};

use crate::sum;
use store_api::{Page, Pages, StoreFault, write_page};

/// The pages from `first` on to before `end`.
pub struct Shelf<P: Pages> {
    pages: P,
    first: u32,
    end: u32,
}

impl<P: Pages> Shelf<P> {
    /// The sum of the first bytes of its pages.
    pub fn total(&mut self) -> Result<u64, StoreFault>
        requires going { (P.state self.old.pages).ended ≡ false }
        requires ordered { self.old.first ≤ self.old.end }
        requires within { self.old.end ≤ length (P.state self.old.pages).work }
        ensures value { IfOk result (λ n. (part : Part) → HoldsAll P.Pages self.old.pages self.old.first self.old.end part → n ≡ sum_first part self.old.first (self.old.end - self.old.first)) }
        ensures first { self.new.first ≡ self.old.first }
        ensures end { self.new.end ≡ self.old.end }
        ensures runs { RunsOverPages P.Pages NoPage (PagesBetween self.old.first self.old.end) NoDamage self.old.pages self.new.pages (fault_of result) }
    {
        if self.first == self.end {
            return Ok(0);
        }
        let all = sum(&mut self.pages, self.first, self.end)?;
        Ok(all)
    }

    /// Writes over its first three pages.
    pub fn set_three(&mut self, one: &Page, two: &Page, three: &Page) -> Result<(), StoreFault>
        requires going { (P.state self.old.pages).ended ≡ false }
        requires three { self.old.first + 3 ≤ self.old.end }
        requires within { self.old.end ≤ length (P.state self.old.pages).work }
        ensures set { OnOk result (WritesPage P.Pages self.old.first one.now self.old.pages self.new.pages) }
        ensures first { self.new.first ≡ self.old.first }
        ensures end { self.new.end ≡ self.old.end }
        ensures runs { RunsOverPages P.Pages (PagesBetween self.old.first self.old.end) NoPage NoDamage self.old.pages self.new.pages (fault_of result) }
    {
        write_page(&mut self.pages, self.first, one)?;
        write_page(&mut self.pages, self.first + 1, two)?;
        write_page(&mut self.pages, self.first + 2, three)?;
        Ok(())
    }
}
