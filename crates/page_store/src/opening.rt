// How a store opens the database in a file, and gives its host back.
ghost use Rattle.std.specs.Prelude.{◌≡◌, ◌≢◌, ◌⊎◌, ◌≤◌, length, ℕ, List, Some, [], IsTrue, false, IfOk, IfErr, IfSome, OnOk, IsErrOf, is_some};
ghost use Rattle.std.specs.Option.{ForSome, option_map};
ghost use Rattle.mdc_words.specs.Faults.{CountsFault};
ghost use Rattle.mdc_outside.specs.Disk.{File};
ghost use Rattle.mdc_words.specs.Time.{RestsAt};
ghost use Rattle.store_api.specs.Moments.{AtRest};
ghost use Rattle.page_file.specs.Layout.{file_page};
ghost use Rattle.page_file.specs.Bound.{LeavesOf};
ghost use Rattle.page_store.specs.Bound.{OpensOf};
ghost use Rattle.page_store.specs.Desk.{IsKept, base_of};
ghost use Rattle.page_store.specs.Faults.{MayComeFirst};
ghost use Rattle.page_store.specs.FileStore.{GrewWhere, IsLeft, beside_of};
ghost use Rattle.page_store.specs.Opened.{CouldBeLeft, LeavesBaseSince, IsEmptyDesk, IsJustOpened, file_bytes, opened_bytes};
ghost use Rattle.page_store.specs.Opening.{IsAtRest, IsServed, Refuses};
ghost use Rattle.store_api.specs.Extents.{is_shape};
ghost use Rattle.page_store.specs.Shape.{extents_in, extent_pages_in};
ghost use Rattle.page_store.specs.Standing.{IsFormed, pages_in};
ghost use Rattle.store_api.specs.declared.pages.TheConstants.{MAX_PAGES};

use crate::desk::Desk;
use crate::origin::Origin;
use crate::page_cache::PageCache;
use crate::recovery::{Opened, recover};
use crate::{FileStore, OpenFault};
use dirty_pages::{Changes, FetchLog};
use mdc_outside::{Disk, Host};
use page_file::settle;
use std::alloc::Global;
use std::marker::PhantomData;
use store_api::Pages;

/// A file that wasn't opened: why, the host, and the log.
#[derive(Drop)]
pub struct Unopened<H, L> {
    pub fault: OpenFault,
    pub host: H,
    pub log: L,
}

/// What a store gives back: its host, and its log.
#[derive(Drop)]
pub struct Closed<H, L> {
    pub host: H,
    pub log: L,
}

impl<H: Host, O: Origin, L: FetchLog> FileStore<H, O, L> {
    /// Opens the database in the attached file, after a crash too. The base of the store is then what the file stands
    /// for. `cache` is how many clean pages it may keep in memory.
    ///
    /// It first has all of the file on the disk, and then brings a journal that counts home. At each moment since, a crash
    /// leaves a file that stands for the same pages, and has all that isn't the store's as it was.
    ///
    /// It answers the first of these that the file is: `Unmade`, `NotMdc`, `Damaged` or of another `Version`. It answers
    /// `Memory` where memory ran out. The bytes of the file are then as they were. It answers `Device` where the disk
    /// failed. The file then stands for what it stood for, unless the first sync failed: then it may be what a crash could
    /// leave. Nothing is written to a file that can't be served, whatever failed: it is at most what a crash could leave.
    pub fn open(
        alloc: Global,
        mut host: H,
        log: L,
        cache: usize,
    ) -> Result<FileStore<H, O, L>, Unopened<H, L>>
        requires attached { IsTrue (H.is_attached host) }
        requires cache { 8 ≤ cache }
        requires origin { IfSome O.first (λ first. ForSome (H.file host) (λ file. file.bytes ≡ first)) }
        ensures served { IfOk result (λ store. ForSome (H.file host) (λ file. IsServed file.bytes
            × ((⟦<FileStore<H, O, L> as Pages>⟧.state store).base ≡ pages_in file.bytes))) }
        // It tells the shape of its file, and the attaches that the host told.
        ensures just_opened { IfOk result (λ store. IsJustOpened (is_some (H.file host)) (H.tape host) store.desk.shape (H.attaches host) (L.told log)
            (⟦<FileStore<H, O, L> as Pages>⟧.state store)) }
        ensures unwritten { IfOk result (λ store. ⟦<FileStore<H, O, L> as Pages>⟧.written store ≡ 0) }
        ensures refused { IfErr result (λ unopened. ForSome (H.file host) (λ file. Refuses unopened.fault file.bytes)) }
        ensures limits { IfOk result (λ store. (18 ≤ length (⟦<FileStore<H, O, L> as Pages>⟧.state store).base) × (length (⟦<FileStore<H, O, L> as Pages>⟧.state store).base ≤ MAX_PAGES)) }
        ensures never { IfErr result (λ unopened. unopened.fault ≢ OpenFault.Exists) }
        // What is written is a journal that counts, which is brought home, and nothing else.
        ensures writes { IfOk result (λ store. (⟦<FileStore<H, O, L> as Pages>⟧.state store).file ≡ option_map opened_bytes (file_bytes (H.file host))) }
        // Nothing is written to a file that is refused: at each moment a crash leaves what it could leave before.
        ensures left_alone { IfErr result (λ unopened. unopened.fault ≢ OpenFault.Device → LeavesOf H.Disk CouldBeLeft host unopened.host) }
        // The same of a file that can't be served, also where the disk failed.
        ensures unserved { IfErr result (λ unopened. ForSome (H.file host) (λ file. (IsServed file.bytes → ⊥) → LeavesOf H.Disk CouldBeLeft host unopened.host)) }
        ensures untouched { IfErr result (λ unopened. unopened.fault ≢ OpenFault.Device → file_bytes (H.file unopened.host) ≡ file_bytes (H.file host)) }
        // No page comes to hand of a file that isn't opened: the log is given back as it came.
        ensures unnoted { IfErr result (λ unopened. L.told unopened.log ≡ L.told log) }
        ensures count { IfOk result (λ store. H.disk_faults store.host ≡ H.disk_faults host) }
        ensures cause { IfErr result (λ unopened. CountsFault (unopened.fault ≡ OpenFault.Device) (H.disk_faults host) (H.disk_faults unopened.host)) }
        ensures opens { IfOk result (λ store. OpensOf H.Disk host store.host) }
        // Since the origin of the opening, and so now, the store leaves its base alone.
        ensures base_since { IfOk result (λ store. ForSome (H.file host) (λ file. (said : List ℕ)
            → LeavesBaseSince (H.moment store.host) (⟦<FileStore<H, O, L> as Pages>⟧.left store) file.bytes said)) }
        ensures rests { IfOk result (λ store. RestsAt ⟦<FileStore<H, O, L> as Pages>⟧.clock ⟦<FileStore<H, O, L> as Pages>⟧.left (AtRest (⟦<FileStore<H, O, L> as Pages>⟧.state store)) store) }
        // Where there is no moment at which all was on the disk, a crash leaves what it could leave before. That is so
        // only where the disk failed or memory ran out: no file is judged before it is on the disk.
        ensures opens_or_leaves { IfErr result (λ unopened.
            OpensOf H.Disk host unopened.host
            ⊎ (MayComeFirst unopened.fault × LeavesOf H.Disk CouldBeLeft host unopened.host)) }
    {
        match lay_out(alloc, &mut host, cache) {
            Ok(desk) => Ok(FileStore {
                host,
                desk,
                log,
                origin: PhantomData,
            }),
            Err(fault) => Err(Unopened { fault, host, log }),
        }
    }

    /// How many extents the database may have, and how many pages each has.
    pub fn shape(&self) -> (u32, u32)
        ensures parts { result ≡ (self.now.desk.shape.extents, self.now.desk.shape.extent_pages) }
        ensures limits { IsTrue (is_shape result.0 result.1) }
        ensures stated { (⟦<FileStore<H, O, L> as Pages>⟧.state self.now).ended ≡ false → ForSome (H.file self.now.host) (λ file.
            (extents_in (file_page file.bytes 1) ≡ result.0) × (extent_pages_in (file_page file.bytes 1) ≡ result.1)) }
    {
        (self.desk.shape.extents, self.desk.shape.extent_pages)
    }

    /// Gives the host and the log back. It makes no call of the disk and takes no memory. It may follow a fault of any call.
    ///
    /// Where no commit has failed, the file holds the base. The host has the counts, the tape and the attaches that the
    /// store had.
    ///
    /// What the store leaves at a crash is what the host may leave: where the store never leaves a file that doesn't
    /// reopen, each image of the host is a database of this shape, with pages that the store leaves.
    pub fn close(self) -> Closed<H, L>
        ensures same { result.host ≡ self.host }
        ensures fetched { L.told result.log ≡ (⟦<FileStore<H, O, L> as Pages>⟧.state self).fetched }
        ensures base { (⟦<FileStore<H, O, L> as Pages>⟧.state self).ended ≡ false → ForSome (H.file result.host) (λ file. IsFormed file.bytes
            × (pages_in file.bytes ≡ (⟦<FileStore<H, O, L> as Pages>⟧.state self).base)) }
        // What has become of the file since it was opened. No commit but one that failed asked for more pages than it has.
        ensures grew { IfSome O.first (λ first. ForSome (H.file result.host) (λ file. GrewWhere ((⟦<FileStore<H, O, L> as Pages>⟧.state self).ended ≡ false) first file.bytes)) }
        ensures disk_count { H.disk_faults result.host ≡ ⟦<FileStore<H, O, L> as Pages>⟧.disk_faults self }
        ensures say_count { H.say_faults result.host ≡ ⟦<FileStore<H, O, L> as Pages>⟧.say_faults self }
        ensures told { H.tape result.host ≡ (⟦<FileStore<H, O, L> as Pages>⟧.state self).told }
        ensures beside { beside_of self.desk.shape (H.attaches result.host) ≡ (⟦<FileStore<H, O, L> as Pages>⟧.state self).beside }
        ensures left { (file : File) (said : List ℕ) → H.file self.host ≡ Some file → (H.beside self.host).tape ≡ Some said
            → (t : ℕ) (image heard : List ℕ) → H.moment result.host t image heard
            → IsLeft self.desk.shape file.bytes (⟦<FileStore<H, O, L> as Pages>⟧.left self t) image heard }
    {
        Closed {
            host: self.host,
            log: self.log,
        }
    }
}

// Opens the database in the attached file. The memory of the cache is taken first, so that a want of it comes before any
// call of the disk.
fn lay_out<D: Disk>(alloc: Global, disk: &mut D, cache: usize) -> Result<Desk, OpenFault>
    requires attached { IsTrue (D.is_attached disk.old) }
    requires cache { 8 ≤ cache }
    ensures served { IfOk result (λ desk. ForSome (D.file disk.old) (λ file. IsServed file.bytes × (base_of (D.file disk.new) desk ≡ pages_in file.bytes))) }
    ensures empty { IfOk result IsEmptyDesk }
    ensures kept { IfOk result (λ desk. IsKept desk (D.file disk.new)) }
    ensures writes { OnOk result (file_bytes (D.file disk.new) ≡ option_map opened_bytes (file_bytes (D.file disk.old))) }
    ensures refused { IfErr result (λ fault. ForSome (D.file disk.old) (λ file. Refuses fault file.bytes)) }
    ensures untouched { IfErr result (λ fault. fault ≢ OpenFault.Device → file_bytes (D.file disk.new) ≡ file_bytes (D.file disk.old)) }
    ensures left_alone { IfErr result (λ fault. fault ≢ OpenFault.Device → LeavesOf D.Disk CouldBeLeft disk.old disk.new) }
    ensures unserved { IfErr result (λ fault. ForSome (D.file disk.old) (λ file. (IsServed file.bytes → ⊥) → LeavesOf D.Disk CouldBeLeft disk.old disk.new)) }
    ensures never { IsErrOf result OpenFault.Exists → ⊥ }
    ensures cause { CountsFault (IsErrOf result OpenFault.Device) (D.disk_faults disk.old) (D.disk_faults disk.new) }
    ensures opens { OnOk result (OpensOf D.Disk disk.old disk.new) }
    ensures opens_or_leaves { IfErr result (λ fault.
        OpensOf D.Disk disk.old disk.new
        ⊎ (MayComeFirst fault × LeavesOf D.Disk CouldBeLeft disk.old disk.new)) }
{
    let cache = PageCache::new(alloc, cache)?;
    let opened = come_to_rest(alloc, disk)?;
    Ok(desk_of(alloc, opened, cache))
}

// A desk with nothing on it.
fn desk_of(alloc: Global, opened: Opened, cache: PageCache) -> Desk
    requires clean { cache ≡ [] }
    ensures empty { IsEmptyDesk result }
    ensures shape { result.shape ≡ opened.shape }
    ensures base { result.base ≡ opened.count }
{
    Desk {
        shape: opened.shape,
        base: opened.count,
        changes: Changes::new(alloc, opened.count),
        cache,
        hand: None,
        prepared: false,
        halt: None,
    }
}

// Has all of the file on the disk, finds what it stands for, and brings it to rest.
fn come_to_rest<D: Disk>(alloc: Global, disk: &mut D) -> Result<Opened, OpenFault>
    requires attached { IsTrue (D.is_attached disk.old) }
    ensures served { IfOk result (λ opened. ForSome (D.file disk.old) (λ file. IsServed file.bytes)) }
    ensures at_rest { IfOk result (λ opened. ForSome (D.file disk.new) (IsAtRest opened.shape.extents opened.shape.extent_pages opened.count)) }
    ensures writes { OnOk result (file_bytes (D.file disk.new) ≡ option_map opened_bytes (file_bytes (D.file disk.old))) }
    ensures limits { IfOk result (λ opened. (18 ≤ opened.count) × (opened.count ≤ MAX_PAGES)) }
    ensures refused { IfErr result (λ fault. ForSome (D.file disk.old) (λ file. Refuses fault file.bytes)) }
    ensures untouched { IfErr result (λ fault. fault ≢ OpenFault.Device → file_bytes (D.file disk.new) ≡ file_bytes (D.file disk.old)) }
    ensures left_alone { IfErr result (λ fault. fault ≢ OpenFault.Device → LeavesOf D.Disk CouldBeLeft disk.old disk.new) }
    ensures unserved { IfErr result (λ fault. ForSome (D.file disk.old) (λ file. (IsServed file.bytes → ⊥) → LeavesOf D.Disk CouldBeLeft disk.old disk.new)) }
    ensures never { IsErrOf result OpenFault.Exists → ⊥ }
    ensures cause { CountsFault (IsErrOf result OpenFault.Device) (D.disk_faults disk.old) (D.disk_faults disk.new) }
    ensures opens { OnOk result (OpensOf D.Disk disk.old disk.new) }
    ensures opens_or_leaves { IfErr result (λ fault.
        OpensOf D.Disk disk.old disk.new
        ⊎ (MayComeFirst fault × LeavesOf D.Disk CouldBeLeft disk.old disk.new)) }
{
    settle(disk)?;
    recover(alloc, disk)
}
