// A store in memory, for tests.
ghost use Rattle.std.specs.Prelude.{◌≡◌, ◌≤◌, IsTrue, vec_len};
ghost use Rattle.std.specs.Option.{ForSome};
ghost use Rattle.store_api.specs.History.{IsMarkWithin, is_hand_within};
ghost use Rattle.store_api.specs.declared.pages.TheConstants.{MAX_PAGES};

use crate::history::{Change, Mark, go_back, oldest_change};
use crate::{DeviceFault, MAX_PAGES, Mute, Page, PageFault, Pages, Store, blank_page};
use mdc_words::count_fault;
use std::alloc::Global;

/// Where the page at hand lies.
#[derive(Clone, Copy, Debug)]
enum Hand {
    Work(usize),
    History(usize),
}

/// A store that keeps its pages in memory, with what undoing the changes since the last commit needs. It meets no fault
/// of a disk, tells its fetches and no moments, and counts a fault where the bytes told can't grow.
#[derive(Debug, Drop)]
pub struct MemStore {
    work: Vec<Page>,
    history: Vec<Change>,
    base_count: usize,
    mark: Option<Mark>,
    hand: Option<Hand>,
    prepared: bool,
    told: Vec<u8>,
    fetched: Vec<u32>,
    say_faults: u64,
    ghost few: { vec_len work ≤ MAX_PAGES },
    ghost based: { base_count ≤ vec_len work },
    ghost mark_within: { ForSome mark (IsMarkWithin base_count (vec_len history) (vec_len work)) },
    ghost hand_within: { IsTrue (is_hand_within hand (vec_len history) (vec_len work)) },
}

impl MemStore {
    ghost use Rattle.std.specs.Prelude.{Some};
    ghost use Rattle.store_api.specs.MemStore.{fresh_store};

    /// A store whose base and work are these pages.
    pub fn new(alloc: Global, base: Vec<Page>) -> MemStore
        requires { vec_len base ≤ MAX_PAGES }
        ensures fresh { ⟦<MemStore as Pages>⟧.state result ≡ fresh_store base.items }
        ensures written { ⟦<MemStore as Pages>⟧.written result ≡ 0 }
        ensures say_faults { ⟦<MemStore as Pages>⟧.say_faults result ≡ 0 }
    {
        let base_count = base.len();
        MemStore {
            work: base,
            history: Vec::new(alloc),
            base_count,
            mark: None,
            hand: None,
            prepared: false,
            told: Vec::new(alloc),
            fetched: Vec::new(alloc),
            say_faults: 0,
        }
    }

    /// Lends the numbers of all pages that were brought to hand, in order.
    pub fn fetched(&self) -> &[u32]
        ensures { (⟦<MemStore as Pages>⟧.state self.now).fetched ≡ Some result.now }
    {
        &self.fetched
    }

    /// Lends the bytes told.
    pub fn told(&self) -> &[u8]
        ensures { (⟦<MemStore as Pages>⟧.state self.now).told ≡ Some result.now }
    {
        &self.told
    }
}

impl Pages for MemStore {
    ghost use Rattle.store_api.specs.MemStore.{mem_state_of, mem_written_of};

    ghost state = { mem_state_of };

    ghost written = { mem_written_of };

    ghost disk_faults = { λ _. 0 };

    ghost say_faults = { λ s. s.say_faults };

    ghost clock = { λ _. 0 };

    ghost left = { λ _ _ _ _. ⊥ };

    ghost earlier = { λ _ _ _ _ _ _ _ none. none };

    fn count(&self) -> u32 {
        self.work.len() as u32
    }

    fn fetch(&mut self, p: u32) -> Result<(), PageFault> {
        self.hand = None;
        self.fetched.push(p)?;
        self.hand = Some(Hand::Work(p as usize));
        Ok(())
    }

    fn page(&self) -> &Page {
        match self.hand {
            Some(Hand::Work(at)) => &self.work[at],
            Some(Hand::History(at)) => &self.history[at].was,
            None => unreachable!(),
        }
    }

    fn write(&mut self, p: u32, bytes: &Page) -> Result<(), PageFault> {
        self.hand = None;
        self.prepared = false;
        let page = p as usize;
        let was = self.work[page];
        self.history.push(Change { page, was })?;
        self.work[page] = *bytes;
        Ok(())
    }

    fn edit(&mut self, p: u32) -> Result<&mut Page, PageFault> {
        self.hand = None;
        self.prepared = false;
        let page = p as usize;
        let was = self.work[page];
        self.fetched.reserve(1)?;
        self.history.push(Change { page, was })?;
        self.fetched.push_reserved(p);
        Ok(&mut self.work[page])
    }

    fn grow(&mut self, n: u32) -> Result<(), PageFault> {
        self.hand = None;
        self.prepared = false;
        let count = self.work.len() + n as usize;
        self.work.resize(count, *blank_page())?;
        Ok(())
    }

    fn mark(&mut self) {
        self.hand = None;
        self.prepared = false;
        self.mark = Some(Mark {
            changes: self.history.len(),
            count: self.work.len(),
        });
    }

    fn keep(&mut self) -> Result<(), PageFault> {
        self.hand = None;
        self.mark = None;
        Ok(())
    }

    fn undo(&mut self) {
        self.hand = None;
        self.prepared = false;
        if let Some(mark) = self.mark.take() {
            go_back(&mut self.work, &mut self.history, mark);
        }
    }
}

impl Store for MemStore {
    fn written(&self) -> u32 {
        let grown = self.work.len() - self.base_count;
        let changed = self.history.len().saturating_add(grown);
        changed.min(self.work.len()) as u32
    }

    fn committed(&mut self, p: u32) -> Result<(), PageFault> {
        self.hand = None;
        self.fetched.push(p)?;
        let page = p as usize;
        // The oldest change of a page has what the base has.
        self.hand = match oldest_change(&self.history, page) {
            Some(at) => Some(Hand::History(at)),
            None => Some(Hand::Work(page)),
        };
        Ok(())
    }

    fn prepare(&mut self) -> Result<(), PageFault> {
        self.hand = None;
        self.prepared = true;
        Ok(())
    }

    fn commit(&mut self) -> Result<(), DeviceFault> {
        self.hand = None;
        self.prepared = false;
        self.mark = None;
        self.history.clear();
        self.base_count = self.work.len();
        Ok(())
    }

    fn rollback(&mut self) {
        self.hand = None;
        self.prepared = false;
        self.mark = None;
        let base = Mark {
            changes: 0,
            count: self.base_count,
        };
        go_back(&mut self.work, &mut self.history, base);
    }

    fn tell(&mut self, bytes: &[u8]) -> Result<(), Mute> {
        self.hand = None;
        if self.told.extend_from_slice(bytes).is_err() {
            count_fault(&mut self.say_faults);
            return Err(Mute);
        }
        Ok(())
    }
}
