// The clean pages that are in memory.
ghost use Rattle.std.specs.Prelude.{◌≡◌, ◌≤◌, ◌<◌, ◌+◌, ◌*◌, ◌==◌, [], ℕ, List, Some, nat_eq, length, option_map, slice_get, IsTrue, IsOk, IsErr, IfOk, OnOk, OnErr, IsErrOf};
ghost use Rattle.std.specs.List.{IsDistinct, list_any};
ghost use Rattle.std.specs.Map.{keys_of, set_value};
ghost use Rattle.std.specs.Option.{ForSome};
ghost use Rattle.mdc_words.specs.Faults.{CountsFault};
ghost use Rattle.mdc_outside.specs.Disk.{File};
ghost use Rattle.page_file.specs.Bound.{RunsOf};
ghost use Rattle.page_file.specs.Layout.{home_page, home_start};
ghost use Rattle.page_file.specs.declared.layout.TheConstants.{PAGE_BYTES};
ghost use Rattle.page_file.specs.Runs.{IsCovered};
ghost use Rattle.redo_journal.specs.Images.{AreRising, unboxed};
ghost use Rattle.page_store.specs.Cached.{AreHome, Leads, renewed};

use lru::LruCache;
use mdc_outside::{Disk, Failed};
use mdc_values::Memory;
use page_file::{FIRST_PAGE, PAGE_BYTES, get};
use std::alloc::Global;
use std::marker::Model;
use std::mem;
use std::num::NonZeroUsize;
use store_api::{Page, PageFault, blank_page};

/// How many clean pages a store keeps in memory, where nothing asks for more or fewer.
pub const CACHED_PAGES: usize = 1_024;

/// Clean pages, which are as their home pages in the file, the one that was used last first. The box of the page that
/// left last is kept for the next one that is read.
#[derive(Drop)]
pub(crate) struct PageCache {
    alloc: Global,
    pages: LruCache<u32, Box<Page>>,
    spare: Option<Box<Page>>,
}

impl Model for PageCache {
    ghost use Rattle.redo_journal.specs.Images.{Numbered, unboxed};

    ghost Value = { Numbered };

    ghost view = { λ it. unboxed it.pages.entries };
}

impl PageCache {
    /// A cache for so many pages, with none in it.
    pub(crate) fn new(alloc: Global, pages: usize) -> Result<PageCache, Memory>
        requires { 0 < pages }
        ensures { IfOk result (λ cache. cache ≡ []) }
    {
        let room = NonZeroUsize::new(pages).unwrap();
        let pages = LruCache::new(alloc, room)?;
        Ok(PageCache {
            alloc,
            pages,
            spare: None,
        })
    }

    /// Brings a page to the front, from the disk where it isn't here. After a fault the pages are as before.
    ///
    /// `Device` where the disk failed, and `Memory` where memory ran out. A page that is here takes neither.
    pub(crate) fn bring<D: Disk>(&mut self, disk: &mut D, p: u32) -> Result<(), PageFault>
        requires attached { IsTrue (D.is_attached disk.old) }
        requires within { ForSome (D.file disk.old) (λ file. home_start p + PAGE_BYTES ≤ length file.bytes) }
        ensures first { OnOk result ((page : List ℕ) × Leads p page self.new) }
        ensures page { OnOk result ((file : File) (count : ℕ) → D.file disk.old ≡ Some file → p < count → AreHome file.bytes count self.old → Leads p (home_page file.bytes p) self.new) }
        ensures clean { (file : File) (count : ℕ) → D.file disk.old ≡ Some file → p < count → AreHome file.bytes count self.old → AreHome file.bytes count self.new }
        ensures here { IsTrue (list_any (nat_eq p) (keys_of self.old)) → IsOk result × (disk.new ≡ disk.old) }
        ensures err { OnErr result (self.new ≡ self.old) }
        ensures cause { CountsFault (IsErrOf result PageFault.Device) (D.disk_faults disk.old) (D.disk_faults disk.new) }
        ensures same { D.file disk.new ≡ D.file disk.old }
        ensures runs { RunsOf D.Disk IsCovered (λ since. since) disk.old disk.new }
    {
        if self.pages.promote(&p) {
            return Ok(());
        }
        self.take_in(disk, p)
    }

    // Brings a page to the front that isn't here. It stays a call of its own, so that a page that is here costs no more than
    // its look-up.
    #[inline(never)]
    fn take_in<D: Disk>(&mut self, disk: &mut D, p: u32) -> Result<(), PageFault>
        requires attached { IsTrue (D.is_attached disk.old) }
        requires within { ForSome (D.file disk.old) (λ file. home_start p + PAGE_BYTES ≤ length file.bytes) }
        ensures first { OnOk result ((page : List ℕ) × Leads p page self.new) }
        ensures page { OnOk result (ForSome (D.file disk.old) (λ file. Leads p (home_page file.bytes p) self.new)) }
        ensures clean { (file : File) (count : ℕ) → D.file disk.old ≡ Some file → p < count → AreHome file.bytes count self.old → AreHome file.bytes count self.new }
        ensures err { OnErr result (self.new ≡ self.old) }
        ensures cause { CountsFault (IsErrOf result PageFault.Device) (D.disk_faults disk.old) (D.disk_faults disk.new) }
        ensures same { D.file disk.new ≡ D.file disk.old }
        ensures runs { RunsOf D.Disk IsCovered (λ since. since) disk.old disk.new }
    {
        let page = self.read_in(disk, p)?;
        self.put_first(p, page)
    }

    // Reads a page into a box, the spare one if there is one. The pages stay.
    fn read_in<D: Disk>(&mut self, disk: &mut D, p: u32) -> Result<Box<Page>, PageFault>
        requires attached { IsTrue (D.is_attached disk.old) }
        requires within { ForSome (D.file disk.old) (λ file. home_start p + PAGE_BYTES ≤ length file.bytes) }
        ensures page { IfOk result (λ page. ForSome (D.file disk.old) (λ file. page.value ≡ home_page file.bytes p)) }
        ensures pages { self.new ≡ self.old }
        ensures cause { CountsFault (IsErrOf result PageFault.Device) (D.disk_faults disk.old) (D.disk_faults disk.new) }
        ensures same { D.file disk.new ≡ D.file disk.old }
        ensures runs { RunsOf D.Disk IsCovered (λ since. since) disk.old disk.new }
    {
        let mut page = match self.spare.take() {
            Some(page) => page,
            None => Box::new(self.alloc, *blank_page())?,
        };
        match read_home(disk, p, &mut page) {
            Ok(()) => Ok(page),
            Err(Failed) => {
                self.spare = Some(page);
                Err(PageFault::Device)
            }
        }
    }

    // Puts a page that isn't here first, and keeps the box of the one that leaves for it. After a fault the pages are as
    // before.
    fn put_first(&mut self, p: u32, page: Box<Page>) -> Result<(), PageFault>
        ensures first { OnOk result (Leads p page.value self.new) }
        ensures clean { (file : List ℕ) (count : ℕ) → p < count → page.value ≡ home_page file p → AreHome file count self.old → AreHome file count self.new }
        ensures err { OnErr result (self.new ≡ self.old) }
        ensures memory { IsErrOf result PageFault.Device → ⊥ }
    {
        let left = self.pages.push(p, page)?;
        self.spare = left.map(|(_, page)| page);
        Ok(())
    }

    /// Lends the first page.
    pub(crate) fn first(&self) -> &Page
        requires { 0 < length self.now }
        ensures { option_map (λ entry. entry.1) (slice_get self.now 0) ≡ Some result.now }
    {
        let (_, page) = self.pages.peek_mru().unwrap();
        page
    }

    /// Puts each image in the place of its page, where the page is here, and leaves its box in the place of the image. It
    /// takes no memory, and the order stays.
    pub(crate) fn renew(&mut self, images: &mut [(u32, Box<Page>)])
        requires { AreRising (unboxed images.old) }
        ensures { self.new ≡ renewed (unboxed images.old) self.old }
    {
        if self.is_empty() {
            return;
        }
        for i in 0..images.len() {
            let (p, image) = &mut images[i];
            self.exchange(*p, image);
        }
    }

    // Whether there is no page. No number comes twice.
    fn is_empty(&self) -> bool
        ensures empty { result ≡ (length self.now == 0) }
        ensures distinct { IsDistinct nat_eq (keys_of self.now) }
    {
        self.pages.len() == 0
    }

    // Exchanges the box of a page for that of its image, where the page is here.
    fn exchange(&mut self, p: u32, image: &mut Box<Page>)
        ensures { self.new ≡ set_value (nat_eq p) self.old image.old.value }
    {
        if let Some(page) = self.pages.peek_mut(&p) {
            mem::swap(page, image);
        }
    }
}

// Reads the home page of a number over what a page has.
fn read_home<D: Disk>(disk: &mut D, p: u32, page: &mut Page) -> Result<(), Failed>
    requires attached { IsTrue (D.is_attached disk.old) }
    requires within { ForSome (D.file disk.old) (λ file. home_start p + PAGE_BYTES ≤ length file.bytes) }
    ensures page { OnOk result (ForSome (D.file disk.old) (λ file. page.new ≡ home_page file.bytes p)) }
    ensures cause { CountsFault (IsErr result) (D.disk_faults disk.old) (D.disk_faults disk.new) }
    ensures same { D.file disk.new ≡ D.file disk.old }
    ensures runs { RunsOf D.Disk IsCovered (λ since. since) disk.old disk.new }
{
    get(disk, (FIRST_PAGE + u64::from(p)) * PAGE_BYTES, page)?;
    Ok(())
}
