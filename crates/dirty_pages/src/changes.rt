// What has changed of the pages of a store since its last commit, with a mark to go back to.
ghost use Rattle.std.specs.Prelude.{◌≡◌, ◌<◌, ◌≤◌, ◌+◌, ◌++◌, ℕ, [], nat_eq, nat_le, if◌then◌else◌, length, replicate, slice_set, slice_index_or, Some, None, IsSome, IfOk, IsErrOf, OnOk, OnErr};
ghost use Rattle.std.specs.Option.{option_copied};
ghost use Rattle.store_api.specs.Calls.{noted};
ghost use Rattle.store_api.specs.StoreState.{zero_page};
ghost use Rattle.dirty_pages.specs.Changes.{nothing, changed_in};
ghost use Rattle.dirty_pages.specs.Table.{AreRising, LiesAt, unboxed};
ghost use Rattle.std.specs.List.{All};
ghost use Rattle.std.specs.Map.{lookup};
ghost use Rattle.std.specs.Borrow.{sem};

mod filling;
mod going_back;

use crate::fetch_log::FetchLog;
use crate::spares::Spares;
use crate::table::PageTable;
use filling::fill;
use going_back::{cut, is_free, put_back, save};
use mdc_values::Memory;
use std::alloc::Global;
use std::marker::Model;
use store_api::{Page, PageFault, blank_page};

/// What has changed of the pages of a store since its last commit, and how it was at the mark, where one is open.
#[derive(Debug, Drop)]
pub struct Changes {
    // How many pages there were at the last commit, and how many there are.
    base: u32,
    count: u32,
    // The pages that were written, and how many of them are below the base.
    table: PageTable,
    below: u32,
    mark: Option<Mark>,
    // What pages were at the mark that were written since, where they had been written before it too.
    saved: PageTable,
    spares: Spares,
}

// How many pages there were at the mark, how many of them had been written, and how many of these below the base.
#[derive(Clone, Copy, Debug)]
pub(crate) struct Mark {
    count: u32,
    written: usize,
    below: u32,
}

impl Model for Changes {
    ghost use Rattle.dirty_pages.specs.Changes.{Changed};

    ghost Value = { Changed };

    ghost use Rattle.dirty_pages.specs.ChangesView.{changed_of, IsConsistent};

    ghost view = { changed_of };

    ghost invariant = { IsConsistent };
}

impl Changes {
    ghost use Rattle.dirty_pages.specs.LentChange.{LendsChange};

    /// No change of so many pages. It takes no memory.
    pub fn new(alloc: Global, count: u32) -> Changes
        ensures { result ≡ nothing count }
    {
        Changes {
            base: count,
            count,
            table: PageTable::new(alloc),
            below: 0,
            mark: None,
            saved: PageTable::new(alloc),
            spares: Spares::new(alloc),
        }
    }

    /// How many pages the store has.
    pub fn count(&self) -> u32
        ensures { result ≡ length self.now.now }
    {
        self.count
    }

    /// How many pages have a change.
    pub fn kept(&self) -> u32
        ensures kept { result ≡ self.now.kept }
        ensures changed { result ≡ changed_in self.now.now }
        ensures grown { (p : ℕ) → self.now.base ≤ p → p < length self.now.now → IsSome (slice_index_or self.now.now p None) }
    {
        self.below + (self.count - self.base)
    }

    /// Lends what was written over a page, or zeros where it was grown.
    pub fn get(&self, p: u32) -> Option<&Page>
        requires { p < length self.now.now }
        ensures page { option_copied result ≡ slice_index_or self.now.now p None }
        ensures grown { self.now.base ≤ p → IsSome (slice_index_or self.now.now p None) }
    {
        match self.table.get(p) {
            Some(page) => Some(page),
            None => zeros_from(self.base, p),
        }
    }

    /// Lends the pages that were written, in their boxes. Where no page has a change, there is none.
    pub fn pages(&self) -> &[(u32, Box<Page>)]
        ensures pages { unboxed result.now ≡ self.now.pages }
        ensures none { self.now.kept ≡ 0 → self.now.pages ≡ [] }
    {
        self.table.pages()
    }

    /// Writes over a page. After `Memory` all is as before.
    pub fn write(&mut self, p: u32, bytes: &Page) -> Result<(), Memory>
        requires { p < length self.old.now }
        ensures ok { OnOk result (self.new.now ≡ slice_set self.old.now p (Some bytes.now)) }
        ensures err { OnErr result (self.new.now ≡ self.old.now) }
        ensures marked { self.new.marked ≡ self.old.marked }
        ensures base { self.new.base ≡ self.old.base }
        ensures kept { self.new.kept ≤ self.old.kept + 1 }
    {
        match self.table.place_of(p) {
            None => self.add(p, bytes),
            Some(place) => self.write_over(p, place, bytes),
        }
    }

    // Writes over a page that wasn't written yet.
    fn add(&mut self, p: u32, bytes: &Page) -> Result<(), Memory>
        requires within { p < length self.old.now }
        requires unwritten { lookup (nat_eq p) self.old.pages ≡ None }
        ensures ok { OnOk result (self.new.now ≡ slice_set self.old.now p (Some bytes.now)) }
        ensures err { OnErr result (self.new.now ≡ self.old.now) }
        ensures marked { self.new.marked ≡ self.old.marked }
        ensures base { self.new.base ≡ self.old.base }
        ensures kept { self.new.kept ≤ self.old.kept + 1 }
    {
        let page = self.spares.filled(bytes)?;
        self.table.push(p, page)?;
        self.below += u32::from(p < self.base);
        Ok(())
    }

    // Writes over a page that was written before. Where that was before the mark, what it was then is saved.
    fn write_over(&mut self, p: u32, place: usize, bytes: &Page) -> Result<(), Memory>
        requires { LiesAt self.old.pages p place }
        ensures ok { OnOk result (self.new.now ≡ slice_set self.old.now p (Some bytes.now)) }
        ensures err { OnErr result (self.new.now ≡ self.old.now) }
        ensures marked { self.new.marked ≡ self.old.marked }
        ensures base { self.new.base ≡ self.old.base }
        ensures kept { self.new.kept ≡ self.old.kept }
    {
        if is_free(&self.mark, &self.saved, p, place) {
            *self.table.at_mut(place) = *bytes;
            return Ok(());
        }
        let page = self.spares.filled(bytes)?;
        self.saved.push(p, page)?;
        let last = self.saved.len() - 1;
        self.table.swap(place, &mut self.saved, last);
        Ok(())
    }

    /// Lends a page with a change, to be changed in place, and notes it. After `Memory` all is as before.
    pub fn edit<L: FetchLog>(&mut self, p: u32, log: &mut L) -> Result<&mut Page, PageFault>
        requires within { p < length self.old.now }
        requires room { L.has_room log.old }
        requires changed { IsSome (slice_index_or self.old.now p None) }
        ensures* lends { sem 𝓛 (LendsChange p self.entry result) }
        ensures noted { OnOk result (L.told log.new ≡ noted p (L.told log.old)) }
        ensures unnoted { OnErr result (L.told log.new ≡ L.told log.old) }
        ensures page { IfOk result (λ page. slice_index_or self.old.now p None ≡ Some page.now) }
        ensures memory { IsErrOf result PageFault.Device → ⊥ }
    {
        let Ok(place) = self.hold(p) else {
            return Err(PageFault::Memory);
        };
        match save(
            &self.table,
            &mut self.saved,
            &self.mark,
            &mut self.spares,
            p,
            place,
        ) {
            Ok(()) => {
                log.note(p);
                Ok(self.table.at_mut(place))
            }
            Err(Memory) => Err(PageFault::Memory),
        }
    }

    // Sees to it that a page with a change has its bytes, and gives its place.
    fn hold(&mut self, p: u32) -> Result<usize, Memory>
        requires within { p < length self.old.now }
        requires changed { IsSome (slice_index_or self.old.now p None) }
        ensures now { self.new.now ≡ self.old.now }
        ensures marked { self.new.marked ≡ self.old.marked }
        ensures base { self.new.base ≡ self.old.base }
        ensures kept { self.new.kept ≡ self.old.kept }
        ensures there { IfOk result (LiesAt self.new.pages p) }
    {
        if let Some(place) = self.table.place_of(p) {
            return Ok(place);
        }
        let page = self.spares.filled(blank_page())?;
        self.table.push(p, page)?;
        Ok(self.table.len() - 1)
    }

    /// Adds pages at the end. It takes no memory.
    pub fn grow(&mut self, n: u32)
        requires { length self.old.now + n ≤ 262289 }
        ensures now { self.new.now ≡ self.old.now ++ replicate n (Some zero_page) }
        ensures marked { self.new.marked ≡ self.old.marked }
        ensures base { self.new.base ≡ self.old.base }
        ensures kept { self.new.kept ≡ self.old.kept + n }
    {
        self.count += n;
    }

    /// Notes the changes, for `undo`. It takes no memory.
    pub fn mark(&mut self)
        requires { self.old.marked ≡ None }
        ensures { self.new ≡ record self.old { marked = Some self.old.now } }
    {
        self.saved.truncate(0);
        self.mark = Some(Mark {
            count: self.count,
            written: self.table.len(),
            below: self.below,
        });
    }

    /// Drops the mark.
    pub fn keep(&mut self)
        requires { IsSome self.old.marked }
        ensures { self.new ≡ record self.old { marked = None } }
    {
        self.mark = None;
        cut(&mut self.saved, 0, &mut self.spares);
    }

    /// Goes back to the mark, and drops it. It takes no memory.
    pub fn undo(&mut self)
        requires { IsSome self.old.marked }
        ensures now { self.old.marked ≡ Some self.new.now }
        ensures marked { self.new.marked ≡ None }
        ensures base { self.new.base ≡ self.old.base }
        ensures kept { self.new.kept ≤ self.old.kept }
    {
        if let Some(mark) = self.mark.take() {
            cut(&mut self.table, mark.written, &mut self.spares);
            put_back(&mut self.table, &mut self.saved, &mut self.spares);
            self.count = mark.count;
            self.below = mark.below;
        }
    }

    /// Forgets all changes and a mark, of a store that now has so many pages.
    pub fn clear(&mut self, count: u32)
        ensures { self.new ≡ nothing count }
    {
        self.mark = None;
        cut(&mut self.saved, 0, &mut self.spares);
        cut(&mut self.table, 0, &mut self.spares);
        self.below = 0;
        self.base = count;
        self.count = count;
    }

    /// Sees to it that each page with a change has its bytes, in the order of their numbers. After `Memory` the changes
    /// are as before.
    pub fn prepare(&mut self) -> Result<(), Memory>
        requires { self.old.marked ≡ None }
        ensures now { self.new.now ≡ self.old.now }
        ensures marked { self.new.marked ≡ None }
        ensures base { self.new.base ≡ self.old.base }
        ensures kept { self.new.kept ≡ self.old.kept }
        ensures below { OnOk result (All (λ page. page.0 < length self.new.now) self.new.pages) }
        ensures grown { OnOk result ((p : ℕ) → self.new.base ≤ p → p < length self.new.now → IsSome (slice_index_or self.new.now p None)) }
        ensures rising { OnOk result (AreRising self.new.pages) }
        ensures found { OnOk result ((p : ℕ) → p < length self.new.now → lookup (nat_eq p) self.new.pages ≡ slice_index_or self.new.now p None) }
    {
        fill(&mut self.table, &mut self.spares, self.base, self.count)?;
        self.table.sort()?;
        Ok(())
    }

    /// Gives away the pages of a commit. All are then as at the last commit.
    pub fn take_pages(&mut self) -> Vec<(u32, Box<Page>)>
        ensures given { unboxed result.items ≡ self.old.pages }
        ensures settled { self.new ≡ nothing (length self.old.now) }
    {
        let pages = self.table.take();
        self.saved.truncate(0);
        self.mark = None;
        self.below = 0;
        self.base = self.count;
        pages
    }

    /// Takes boxes that are no longer needed, for pages that come later. The changes stay.
    pub fn reuse(&mut self, pages: Vec<(u32, Box<Page>)>)
        ensures { self.new ≡ self.old }
    {
        self.spares.give_all(pages);
    }
}

// Lends zeros where a page was grown, over a base of so many pages.
fn zeros_from(base: u32, p: u32) -> Option<&'static Page>
    ensures { option_copied result ≡ (if nat_le base p then Some zero_page else None) }
{
    if base <= p { Some(blank_page()) } else { None }
}
