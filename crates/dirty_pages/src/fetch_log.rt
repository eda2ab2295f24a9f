// Where a store notes which pages come to hand.
ghost use Rattle.std.specs.Prelude.{◌≡◌, ◌<◌, ℕ, List, [], Option, None, Some, OnOk, vec_len, vec_capacity};
ghost use Rattle.store_api.specs.Calls.{noted};

use mdc_values::Memory;
use std::alloc::Global;
use std::mem;

/// A log of the pages that come to hand of a store, by their numbers. A store tells its fetches as its log tells them.
pub trait FetchLog: Drop {
    /// The numbers, in order, where they are told.
    ghost told: { Self → Option (List ℕ) };

    /// There is room for one number more.
    ghost has_room: { Self → Type 0 };

    /// Takes the memory that one number more needs.
    fn make_room(&mut self) -> Result<(), Memory>
        ensures same { told self.new ≡ told self.old }
        ensures room { OnOk result (has_room self.new) };

    /// Notes a number.
    fn note(&mut self, page: u32)
        requires room { has_room self.old }
        ensures noted { told self.new ≡ noted page (told self.old) };

    /// Gives the log away. It takes no memory.
    fn take(&mut self) -> Self
        ensures { told result ≡ told self.old };
}

/// No log. It costs nothing.
#[derive(Clone, Copy, Debug)]
pub struct Untold;

impl FetchLog for Untold {
    ghost use Rattle.std.specs.Prelude.{None};

    ghost told = { λ _. None };

    ghost has_room = { λ _. Unit {0} };

    fn make_room(&mut self) -> Result<(), Memory> {
        Ok(())
    }

    fn note(&mut self, _: u32) {}

    fn take(&mut self) -> Self {
        Untold
    }
}

/// A log in memory.
#[derive(Debug, Drop)]
pub struct PageLog {
    alloc: Global,
    pages: Vec<u32>,
}

impl PageLog {
    /// A log of no page. It takes no memory.
    pub fn new(alloc: Global) -> PageLog
        ensures { ⟦<PageLog as FetchLog>⟧.told result ≡ Some [] }
    {
        PageLog {
            alloc,
            pages: Vec::new(alloc),
        }
    }

    /// Lends the numbers of the pages that were noted, in order.
    pub fn pages(&self) -> &[u32]
        ensures { ⟦<PageLog as FetchLog>⟧.told self.now ≡ Some result.now }
    {
        &self.pages
    }
}

impl FetchLog for PageLog {
    ghost use Rattle.std.specs.Prelude.{◌<◌, Some, vec_len, vec_capacity};

    ghost told = { λ log. Some log.pages.items };

    ghost has_room = { λ log. vec_len log.pages < vec_capacity log.pages };

    fn make_room(&mut self) -> Result<(), Memory> {
        self.pages.reserve(1)?;
        Ok(())
    }

    fn note(&mut self, page: u32) {
        self.pages.push_reserved(page);
    }

    fn take(&mut self) -> Self {
        let alloc = self.alloc;
        mem::replace(self, PageLog::new(alloc))
    }
}
