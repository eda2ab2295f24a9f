// What a store has in memory beside its host: its changes, clean pages, and where the page at hand lies.
ghost use Rattle.std.specs.Prelude.{◌≡◌, ◌<◌, ◌≤◌, ◌+◌, IsTrue, IsSome, Option, None, Some, false, length, slice_index_or, IfOk, IsOk, OnOk, OnErr, IsErrOf, IsErr};
ghost use Rattle.std.specs.Option.{ForSome};
ghost use Rattle.std.specs.Borrow.{sem};
ghost use Rattle.store_api.specs.Calls.{Fetches, FetchesCommitted, LosesHand, LosesReadiness, Writes, Grows, Marks, Keeps, Undoes, Prepares, Commits, Ends, RollsBack, noted};
ghost use Rattle.store_api.specs.StoreState.{stated_count, differing};
ghost use Rattle.mdc_outside.specs.Disk.{File};
ghost use Rattle.mdc_words.specs.Faults.{CountsFault};
ghost use Rattle.page_file.specs.Bound.{RunsOf};
ghost use Rattle.page_file.specs.Runs.{IsCovered};
ghost use Rattle.page_file.specs.Bound.{LeavesOf};
ghost use Rattle.page_file.specs.declared.layout.TheConstants.{FIRST_PAGE};
ghost use Rattle.page_store.specs.Commit.{ReachesTo};
ghost use Rattle.page_store.specs.Desk.{IsKept, IsPlaced, Does, DoesOnOk, DoesOnErr, CommitLeaves, RestsEither, page_at_hand, base_of, work_of, written_in};

use crate::page_cache::PageCache;
use crate::write_through::{Halt, write_any};
use dirty_pages::{Changes, FetchLog};
use mdc_outside::Disk;
use mdc_values::Memory;
use page_file::FIRST_PAGE;
use redo_journal::LentImages;
use store_api::{DeviceFault, Page, PageFault, Shape};

// The file page of the store's page 0.
const FIRST: u32 = FIRST_PAGE as u32;

/// Where the page at hand lies.
#[derive(Clone, Copy, Debug)]
pub(crate) enum Hand {
    /// Among the changes, under this number.
    Changed(u32),
    /// First among the clean pages.
    Clean,
}

/// What a store has in memory. `base` is how many pages it had at the last commit.
#[derive(Drop)]
pub(crate) struct Desk {
    pub(crate) shape: Shape,
    pub(crate) base: u32,
    pub(crate) changes: Changes,
    pub(crate) cache: PageCache,
    pub(crate) hand: Option<Hand>,
    // Whether the pages that were written are the images of a commit.
    pub(crate) prepared: bool,
    pub(crate) halt: Option<Halt>,
}

impl Desk {
    ghost use Rattle.page_store.specs.LentWork.{LendsWork};

    /// Brings a page of the work to hand, and notes it.
    pub(crate) fn fetch<D: Disk, L: FetchLog>(
        &mut self,
        disk: &mut D,
        log: &mut L,
        p: u32,
    ) -> Result<(), PageFault>
        requires attached { IsTrue (D.is_attached disk.old) }
        requires going { self.old.halt ≡ None }
        requires kept { IsKept self.old (D.file disk.old) }
        requires within { p < length self.old.changes.now }
        ensures ok { DoesOnOk result (Fetches p) (D.file disk.old) self.old (D.file disk.new) self.new }
        ensures err { DoesOnErr result LosesHand (D.file disk.old) self.old (D.file disk.new) self.new }
        ensures noted { OnOk result (L.told log.new ≡ noted p (L.told log.old)) }
        ensures unnoted { OnErr result (L.told log.new ≡ L.told log.old) }
        ensures cause { CountsFault (IsErrOf result PageFault.Device) (D.disk_faults disk.old) (D.disk_faults disk.new) }
        ensures shape { self.new.shape ≡ self.old.shape }
        ensures written { written_in self.new ≡ written_in self.old }
        ensures still_kept { IsKept self.new (D.file disk.new) }
        ensures same { D.file disk.new ≡ D.file disk.old }
        ensures runs { RunsOf D.Disk IsCovered (λ since. since) disk.old disk.new }
    {
        if log.make_room().is_err() {
            self.hand = None;
            return Err(PageFault::Memory);
        }
        match self.find(disk, p) {
            Ok(()) => {
                log.note(p);
                Ok(())
            }
            Err(fault) => Err(fault),
        }
    }

    /// Brings a page of the base to hand, and notes it.
    pub(crate) fn committed<D: Disk, L: FetchLog>(
        &mut self,
        disk: &mut D,
        log: &mut L,
        p: u32,
    ) -> Result<(), PageFault>
        requires attached { IsTrue (D.is_attached disk.old) }
        requires going { self.old.halt ≡ None }
        requires kept { IsKept self.old (D.file disk.old) }
        requires within { p < self.old.base }
        ensures ok { DoesOnOk result (FetchesCommitted p) (D.file disk.old) self.old (D.file disk.new) self.new }
        ensures err { DoesOnErr result LosesHand (D.file disk.old) self.old (D.file disk.new) self.new }
        ensures noted { OnOk result (L.told log.new ≡ noted p (L.told log.old)) }
        ensures unnoted { OnErr result (L.told log.new ≡ L.told log.old) }
        ensures cause { CountsFault (IsErrOf result PageFault.Device) (D.disk_faults disk.old) (D.disk_faults disk.new) }
        ensures shape { self.new.shape ≡ self.old.shape }
        ensures written { written_in self.new ≡ written_in self.old }
        ensures still_kept { IsKept self.new (D.file disk.new) }
        ensures same { D.file disk.new ≡ D.file disk.old }
        ensures runs { RunsOf D.Disk IsCovered (λ since. since) disk.old disk.new }
    {
        if log.make_room().is_err() {
            self.hand = None;
            return Err(PageFault::Memory);
        }
        match self.find_committed(disk, p) {
            Ok(()) => {
                log.note(p);
                Ok(())
            }
            Err(fault) => Err(fault),
        }
    }

    // Brings a page of the work to hand.
    fn find<D: Disk>(&mut self, disk: &mut D, p: u32) -> Result<(), PageFault>
        requires attached { IsTrue (D.is_attached disk.old) }
        requires going { self.old.halt ≡ None }
        requires kept { IsKept self.old (D.file disk.old) }
        requires within { p < length self.old.changes.now }
        ensures ok { DoesOnOk result (Fetches p) (D.file disk.old) self.old (D.file disk.new) self.new }
        ensures err { DoesOnErr result LosesHand (D.file disk.old) self.old (D.file disk.new) self.new }
        ensures cause { CountsFault (IsErrOf result PageFault.Device) (D.disk_faults disk.old) (D.disk_faults disk.new) }
        ensures changes { self.new.changes ≡ self.old.changes }
        ensures base { self.new.base ≡ self.old.base }
        ensures shape { self.new.shape ≡ self.old.shape }
        ensures going_on { self.new.halt ≡ None }
        ensures still_kept { IsKept self.new (D.file disk.new) }
        ensures same { D.file disk.new ≡ D.file disk.old }
        ensures runs { RunsOf D.Disk IsCovered (λ since. since) disk.old disk.new }
    {
        match self.place_of(p) {
            Some(hand) => {
                self.hand = Some(hand);
                Ok(())
            }
            None => self.find_committed(disk, p),
        }
    }

    // Brings a page of the base to hand.
    fn find_committed<D: Disk>(&mut self, disk: &mut D, p: u32) -> Result<(), PageFault>
        requires attached { IsTrue (D.is_attached disk.old) }
        requires going { self.old.halt ≡ None }
        requires kept { IsKept self.old (D.file disk.old) }
        requires within { p < self.old.base }
        ensures ok { DoesOnOk result (FetchesCommitted p) (D.file disk.old) self.old (D.file disk.new) self.new }
        ensures err { DoesOnErr result LosesHand (D.file disk.old) self.old (D.file disk.new) self.new }
        ensures cause { CountsFault (IsErrOf result PageFault.Device) (D.disk_faults disk.old) (D.disk_faults disk.new) }
        ensures changes { self.new.changes ≡ self.old.changes }
        ensures base { self.new.base ≡ self.old.base }
        ensures shape { self.new.shape ≡ self.old.shape }
        ensures going_on { self.new.halt ≡ None }
        ensures still_kept { IsKept self.new (D.file disk.new) }
        ensures same { D.file disk.new ≡ D.file disk.old }
        ensures runs { RunsOf D.Disk IsCovered (λ since. since) disk.old disk.new }
    {
        self.hand = None;
        self.cache.bring(disk, p)?;
        self.hand = Some(Hand::Clean);
        Ok(())
    }

    // Where the page of the work lies in memory, if it was changed or grown.
    fn place_of(&self, p: u32) -> Option<Hand>
        requires within { p < length self.now.changes.now }
        requires based { self.now.changes.base ≡ self.now.base }
        ensures { IsPlaced p self.now result }
    {
        if self.changes.get(p).is_some() {
            Some(Hand::Changed(p))
        } else {
            None
        }
    }

    /// Lends the page at hand.
    pub(crate) fn page(&self) -> &Page
        requires { IsSome (page_at_hand self.now.hand self.now.changes.now self.now.cache) }
        ensures { page_at_hand self.now.hand self.now.changes.now self.now.cache ≡ Some result.now }
    {
        match self.hand {
            Some(Hand::Changed(p)) => self.changes.get(p).unwrap(),
            Some(Hand::Clean) => self.cache.first(),
            None => unreachable!(),
        }
    }

    /// Writes over a page of the work.
    pub(crate) fn write(&mut self, p: u32, bytes: &Page) -> Result<(), PageFault>
        requires { p < length self.old.changes.now }
        ensures ok { (told : Option File) → IsKept self.old told → DoesOnOk result (Writes p bytes.now) told self.old told self.new }
        ensures err { (told : Option File) → DoesOnErr result LosesReadiness told self.old told self.new }
        ensures memory { IsErrOf result PageFault.Device → ⊥ }
        ensures shape { self.new.shape ≡ self.old.shape }
        ensures halt { self.new.halt ≡ self.old.halt }
        ensures kept { (told : Option File) → IsKept self.old told → IsKept self.new told }
        ensures written { written_in self.new ≤ written_in self.old + 1 }
    {
        self.hand = None;
        self.prepared = false;
        match self.changes.write(p, bytes) {
            Ok(()) => Ok(()),
            Err(Memory) => Err(PageFault::Memory),
        }
    }

    /// Sees to it that a page of the work lies among the changes, and that the log has room for its number. The work stays.
    pub(crate) fn admit<D: Disk, L: FetchLog>(
        &mut self,
        disk: &mut D,
        log: &mut L,
        p: u32,
    ) -> Result<(), PageFault>
        requires attached { IsTrue (D.is_attached disk.old) }
        requires going { self.old.halt ≡ None }
        requires kept { IsKept self.old (D.file disk.old) }
        requires within { p < length self.old.changes.now }
        ensures does { Does LosesReadiness (D.file disk.old) self.old (D.file disk.new) self.new }
        ensures unnoted { L.told log.new ≡ L.told log.old }
        ensures room { OnOk result (L.has_room log.new) }
        ensures changed { OnOk result (IsSome (slice_index_or self.new.changes.now p None)) }
        ensures pages { length self.new.changes.now ≡ length self.old.changes.now }
        ensures written { written_in self.new ≤ written_in self.old + 1 }
        ensures shape { self.new.shape ≡ self.old.shape }
        ensures going_on { self.new.halt ≡ None }
        ensures bare { (self.new.hand ≡ None) × (self.new.prepared ≡ false) }
        ensures still_kept { IsKept self.new (D.file disk.new) }
        ensures cause { CountsFault (IsErrOf result PageFault.Device) (D.disk_faults disk.old) (D.disk_faults disk.new) }
        ensures same { D.file disk.new ≡ D.file disk.old }
        ensures runs { RunsOf D.Disk IsCovered (λ since. since) disk.old disk.new }
    {
        self.hand = None;
        self.prepared = false;
        if log.make_room().is_err() {
            return Err(PageFault::Memory);
        }
        if self.changes.get(p).is_some() {
            return Ok(());
        }
        self.cache.bring(disk, p)?;
        match self.changes.write(p, self.cache.first()) {
            Ok(()) => Ok(()),
            Err(Memory) => Err(PageFault::Memory),
        }
    }

    /// Lends a page that lies among the changes, to be changed in place, and notes it.
    pub(crate) fn edit<L: FetchLog>(&mut self, p: u32, log: &mut L) -> Result<&mut Page, PageFault>
        requires within { p < length self.old.changes.now }
        requires changed { IsSome (slice_index_or self.old.changes.now p None) }
        requires room { L.has_room log.old }
        ensures* lends { sem 𝓛 (LendsWork p self.entry result) }
        ensures noted { OnOk result (L.told log.new ≡ noted p (L.told log.old)) }
        ensures unnoted { OnErr result (L.told log.new ≡ L.told log.old) }
        ensures page { IfOk result (λ page. slice_index_or self.old.changes.now p None ≡ Some page.now) }
        ensures memory { IsErrOf result PageFault.Device → ⊥ }
    {
        self.changes.edit(p, log)
    }

    /// Adds pages of zeros at the end of the work. It takes no memory.
    pub(crate) fn grow(&mut self, n: u32)
        requires { length self.old.changes.now + n ≤ 262289 }
        ensures does { (told : Option File) → IsKept self.old told → self.old.halt ≡ None → Does (Grows n) told self.old told self.new }
        ensures shape { self.new.shape ≡ self.old.shape }
        ensures halt { self.new.halt ≡ self.old.halt }
        ensures kept { (told : Option File) → IsKept self.old told → IsKept self.new told }
        ensures written { written_in self.new ≤ written_in self.old + n }
    {
        self.hand = None;
        self.prepared = false;
        self.changes.grow(n);
    }

    /// Notes the work, for `undo`. It takes no memory.
    pub(crate) fn mark(&mut self)
        requires { self.old.changes.marked ≡ None }
        ensures does { (told : Option File) → Does Marks told self.old told self.new }
        ensures shape { self.new.shape ≡ self.old.shape }
        ensures halt { self.new.halt ≡ self.old.halt }
        ensures kept { (told : Option File) → IsKept self.old told → IsKept self.new told }
        ensures written { written_in self.new ≡ written_in self.old }
    {
        self.hand = None;
        self.prepared = false;
        self.changes.mark();
    }

    /// Drops the mark. It takes no memory.
    pub(crate) fn keep(&mut self)
        requires { IsSome self.old.changes.marked }
        ensures does { (told : Option File) → Does Keeps told self.old told self.new }
        ensures shape { self.new.shape ≡ self.old.shape }
        ensures halt { self.new.halt ≡ self.old.halt }
        ensures kept { (told : Option File) → IsKept self.old told → IsKept self.new told }
        ensures written { written_in self.new ≡ written_in self.old }
    {
        self.hand = None;
        self.changes.keep();
    }

    /// Goes back to the work of the mark, and drops it. It takes no memory.
    pub(crate) fn undo(&mut self)
        requires { IsSome self.old.changes.marked }
        ensures does { (told : Option File) → Does Undoes told self.old told self.new }
        ensures shape { self.new.shape ≡ self.old.shape }
        ensures halt { self.new.halt ≡ self.old.halt }
        ensures kept { (told : Option File) → IsKept self.old told → IsKept self.new told }
        ensures written { (told : Option File) → IsKept self.old told → written_in self.new ≤ written_in self.old }
    {
        self.hand = None;
        self.prepared = false;
        self.changes.undo();
    }

    /// Goes back to the base, and drops a mark. It takes no memory.
    pub(crate) fn rollback(&mut self)
        ensures does { (told : Option File) → IsKept self.old told → self.old.halt ≡ None → Does RollsBack told self.old told self.new }
        ensures shape { self.new.shape ≡ self.old.shape }
        ensures halt { self.new.halt ≡ self.old.halt }
        ensures kept { (told : Option File) → IsKept self.old told → IsKept self.new told }
        ensures written { written_in self.new ≡ 0 }
    {
        self.hand = None;
        self.prepared = false;
        self.changes.clear(self.base);
    }

    /// In how many pages the work and the base differ, or may differ.
    pub(crate) fn written(&self) -> u32
        requires { self.now.base ≤ length self.now.changes.now }
        ensures value { result ≡ written_in self.now }
        ensures enough { (told : Option File) → IsKept self.now told → self.now.halt ≡ None
            → differing (base_of told self.now) (work_of told self.now self.now.changes.now) ≤ result }
    {
        self.changes.kept()
    }

    /// Makes the work ready for `commit`, and takes the memory that it needs.
    pub(crate) fn prepare(&mut self) -> Result<(), PageFault>
        requires more { self.old.base ≤ length self.old.changes.now }
        requires unmarked { self.old.changes.marked ≡ None }
        ensures ok { (told : Option File) → DoesOnOk result Prepares told self.old told self.new }
        ensures err { (told : Option File) → DoesOnErr result LosesReadiness told self.old told self.new }
        ensures memory { IsErrOf result PageFault.Device → ⊥ }
        ensures shape { self.new.shape ≡ self.old.shape }
        ensures halt { self.new.halt ≡ self.old.halt }
        ensures kept { (told : Option File) → IsKept self.old told
            → ForSome told (λ file. stated_count (work_of told self.old self.old.changes.now) ≡ length self.old.changes.now)
            → self.old.halt ≡ None → IsKept self.new told }
        ensures written { written_in self.new ≡ written_in self.old }
    {
        self.hand = None;
        self.prepared = false;
        match self.changes.prepare() {
            Ok(()) => {
                self.prepared = true;
                Ok(())
            }
            Err(Memory) => Err(PageFault::Memory),
        }
    }

    /// Makes the work the base, whole or not at all. It takes no memory. After a fault a crash leaves the one or the other.
    /// Where no page has a change, it makes no call of the disk. The file then reaches no further than a journal of the
    /// pages that have one.
    pub(crate) fn commit<D: Disk>(&mut self, disk: &mut D) -> Result<(), DeviceFault>
        requires attached { IsTrue (D.is_attached disk.old) }
        requires going { self.old.halt ≡ None }
        requires kept { IsKept self.old (D.file disk.old) }
        requires prepared { IsTrue self.old.prepared }
        ensures ok { DoesOnOk result Commits (D.file disk.old) self.old (D.file disk.new) self.new }
        ensures err { DoesOnErr result Ends (D.file disk.old) self.old (D.file disk.new) self.new }
        ensures rests { OnErr result (ForSome (D.file disk.new) (RestsEither self.new)) }
        ensures shape { self.new.shape ≡ self.old.shape }
        ensures going_on { OnOk result (self.new.halt ≡ None) }
        ensures halted { OnErr result (IsSome self.new.halt) }
        ensures base { OnOk result (self.new.base ≡ length self.old.changes.now) }
        ensures still_kept { OnOk result (IsKept self.new (D.file disk.new)) }
        ensures written { OnOk result (written_in self.new ≡ 0) }
        ensures quiet { written_in self.old ≡ 0 → IsOk result × (disk.new ≡ disk.old) }
        ensures leaves { LeavesOf D.Disk (CommitLeaves self.old) disk.old disk.new }
        ensures reach { LeavesOf D.Disk (ReachesTo (FIRST_PAGE + length self.old.changes.now) (length self.old.changes.pages)) disk.old disk.new }
        ensures cause { CountsFault (IsErr result) (D.disk_faults disk.old) (D.disk_faults disk.new) }
    {
        self.hand = None;
        self.prepared = false;
        let count = self.changes.count();
        let images = LentImages::new(self.changes.pages());
        if let Err(halt) = write_any(disk, FIRST + count, &images) {
            self.halt = Some(halt);
            return Err(DeviceFault);
        }
        self.base = count;
        let mut pages = self.changes.take_pages();
        self.cache.renew(&mut pages);
        self.changes.reuse(pages);
        Ok(())
    }
}
