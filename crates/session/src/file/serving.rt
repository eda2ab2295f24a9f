// A script on the file that is attached to a host.
ghost use Rattle.std.specs.Prelude.{◌≡◌, ◌≢◌, ◌≤◌, ◌⊎◌, ℕ, List, Some, None, IfErr, IfSome, Result, Err, IsTrue, false};
ghost use Rattle.std.specs.Option.{ForSome};
ghost use Rattle.mdc_words.specs.Faults.{CountsFault};
ghost use Rattle.mdc_words.specs.Time.{OverTime};
ghost use Rattle.mdc_outside.specs.Disk.{File};
ghost use Rattle.store_api.specs.Works.{Rests};
ghost use Rattle.store_api.specs.declared.fault.Damage.{Damage};
ghost use Rattle.store_api.specs.declared.shape.Shape.{Shape};
ghost use Rattle.page_file.specs.Bound.{LeavesOf};
ghost use Rattle.page_store.specs.FileStore.{GrewWhere};
ghost use Rattle.page_store.specs.Growing.{GrewByCalls};
ghost use Rattle.page_store.specs.Opened.{CouldBeLeft, file_bytes};
ghost use Rattle.page_store.specs.Opening.{IsServed};
ghost use Rattle.page_store.specs.Standing.{FrontAgrees, IsFormed};
ghost use Rattle.script_engine.specs.Opening.{IsSoundStore};
ghost use Rattle.file_verdict.specs.Resting.{ComesToRest, StaysFormed};
ghost use Rattle.file_verdict.specs.SoundFile.{StatesExtents};
ghost use Rattle.session.specs.Stops.{IsOfScript};
ghost use Rattle.session.specs.script.Fetching.{FetchesMore};
ghost use Rattle.session.specs.script.Leaving.{ReopensAlways};
ghost use Rattle.session.specs.script.Serving.{TakesScript};
ghost use Rattle.session.specs.script.Told.{StaysTold, TellsMore};
ghost use Rattle.session.specs.file.AnyServing.{RunsOnAnyFile, RunsOnServed};
ghost use Rattle.session.specs.file.Ending.{IsCauseIn, IsRefused, IsUnopened, StopsOpening};
ghost use Rattle.session.specs.file.Leaving.{AreFormed, StopsUnrested};
ghost use Rattle.session.specs.file.Running.{LeavesFormed, RunsAnyOnStore, RunsOnStore, ServesAny, ServesStore};
ghost use Rattle.session.specs.file.Serving.{RunsOnFile, TakesBySession};
ghost use Rattle.session.specs.file.Well.{AreWell, IsWell};

use crate::script::{Served, goes_on_lists, serve};
use crate::stop::Stop;
use mdc_outside::{Host, Source};
use page_store::{CACHED_PAGES, FetchLog, FileStore, OpenFault, Origin, Unopened};
use script_engine::{Engine, Stopped, sound_pages_stand};
use std::alloc::Global;
use store_api::{Pages, Shape, Store};

/// How serving a script on a file ended, and the host.
#[derive(Drop)]
pub struct Ended<H> {
    pub end: Result<Served, Stop>,
    pub host: H,
}

/// Serves a script on the database in the attached file: opens it, answers the statements of the script as they close, and gives
/// the host back. A transaction that is open at the end is rolled back.
///
/// `Unmade`, `NotMdc`, `Version` and `Damaged` name a file that isn't served, and nothing is taken from the source where its
/// opening refuses it. After `Damaged` of a page that a statement met, the statements before it are answered.
///
/// The log goes on with the pages that come to hand.
///
/// `O` is the bytes of the file as they are at this call: it is called with `Brand`, and the caller's proof picks them.
pub fn serve_file<I: Source, H: Host, O: Origin, L: FetchLog>(
    alloc: Global,
    input: &mut I,
    host: H,
    log: &mut L,
) -> Ended<H>
    requires attached { IsTrue (H.is_attached host) }
    requires origin { O.first ≡ file_bytes (H.file host) }
    ensures runs { (before : File) (said : List ℕ) → H.file host ≡ Some before → (H.beside host).tape ≡ Some said → IsWell before.bytes
        → RunsOnFile H.Disk before said (I.left input.old) (I.left input.new) host result.host result.end (L.told log.old) (L.told log.new) }
    ensures stays_well { (before : File) (said : List ℕ) → H.file host ≡ Some before → (H.beside host).tape ≡ Some said → AreWell before
        → (after : File) × (H.file result.host ≡ Some after) × AreWell after }
    ensures cause { ForSome (H.file host) (λ file. IsCauseIn file.bytes result.end) }
    // Whatever the pages of the file are: one run of the script's items on them, each of which does what its statement may, whose texts
    // are told in order. Damage is that of the file that can't be opened, or of the pages that were held at the stop.
    ensures any { IsRefused result.end ⊎ RunsOnServed (H.file host) (I.left input.old) (I.left input.new) (H.beside host).tape (H.beside result.host).tape result.end }
    // And what a crash leaves at each moment of it, where the file is served.
    ensures runs_any { (before : File) (said : List ℕ) → H.file host ≡ Some before → (H.beside host).tape ≡ Some said → IsServed before.bytes
        → RunsOnAnyFile H.Disk before said (I.left input.old) (I.left input.new) host result.host result.end }
    ensures unopened { ForSome (H.file host) (λ file. (IsServed file.bytes → ⊥) → IsUnopened result.end × (input.new ≡ input.old) × ((H.beside result.host).tape ≡ (H.beside host).tape)) }
    // A file that isn't served is left alone, also where the disk fails: a crash leaves what it could leave before.
    ensures left_alone { ForSome (H.file host) (λ file. (IsServed file.bytes → ⊥) → LeavesOf H.Disk CouldBeLeft host result.host
        × ((result.end ≡ Err Stop.Device → ⊥) → file_bytes (H.file result.host) ≡ file_bytes (H.file host))) }
    // Whatever its pages are, of a script on a file that is served so much is taken as its end says.
    ensures takes { IsRefused result.end ⊎ TakesBySession (I.left input.old) (I.left input.new) result.end }
    // From the run's origin on a crash leaves a formed image of the extents that a formed file states, whose front is as it was. A run that
    // came to none took nothing.
    ensures reopens { (before : File) (said : List ℕ) → H.file host ≡ Some before → (H.beside host).tape ≡ Some said → IsFormed before.bytes
        → ComesToRest H.Disk before said (λ image tape. StaysFormed before.bytes image) host result.host ⊎ StopsUnrested H.Disk before said (I.left input.old) (I.left input.new) host result.host }
    ensures stays_formed { (before : File) (said : List ℕ) → H.file host ≡ Some before → (H.beside host).tape ≡ Some said → AreFormed before
        → (after : File) × (H.file result.host ≡ Some after) × AreFormed after }
    // The front of any file is as it was, and it is no longer than it was, or than its pages and one journal. Where the disk failed, those of
    // a commit that failed; or it may be what a crash could leave.
    ensures grew { (before after : File) → H.file host ≡ Some before → H.file result.host ≡ Some after → GrewByCalls (result.end ≡ Err Stop.Device) before after.bytes }
    ensures refused { IsRefused result.end → (input.new ≡ input.old) × ((H.beside result.host).tape ≡ (H.beside host).tape) }
    ensures reads { CountsFault (result.end ≡ Err Stop.Unread) (I.read_faults input.old) (I.read_faults input.new) }
    ensures unsaid { CountsFault (result.end ≡ Err Stop.Unsaid) (H.say_faults host) (H.say_faults result.host) }
    ensures device { CountsFault (result.end ≡ Err Stop.Device) (H.disk_faults host) (H.disk_faults result.host) }
    ensures attaches { H.attaches result.host ≡ H.attaches host }
    ensures told { StaysTold (H.file host) (H.file result.host) × TellsMore (H.beside host).tape (H.beside result.host).tape }
    // Whatever the file is and however it ends, the log goes on with the pages that came to hand, and of a file that isn't served none does.
    ensures log { FetchesMore (L.told log.old) (L.told log.new) }
    ensures unfetched { ForSome (H.file host) (λ file. (IsServed file.bytes → ⊥) → L.told log.new ≡ L.told log.old) }
    ensures later { H.clock host ≤ H.clock result.host }
{
    // A run over sound pages is one over lists of rows, also one of no item.
    goes_on_lists();
    sound_pages_stand();
    match FileStore::<H, O, L>::open(alloc, host, log.take(), CACHED_PAGES) {
        Ok(store) => serve_store(alloc, input, store, log),
        Err(
            Unopened {
                fault,
                host,
                log: taken,
            },
        ) => {
            *log = taken;
            Ended {
                end: Err(stop_of_opening(fault)),
                host,
            }
        }
    }
}

// How a script on a store ended, and the store.
#[derive(Drop)]
struct Answered<S: Store> {
    end: Result<Served, Stop>,
    store: S,
}

// Serves a script on a store that was opened, and gives its host and its log back.
fn serve_store<I: Source, H: Host, O: Origin, L: FetchLog>(
    alloc: Global,
    input: &mut I,
    store: FileStore<H, O, L>,
    log: &mut L,
) -> Ended<H>
    requires going { (⟦<FileStore<H, O, L> as Pages>⟧.state store).ended ≡ false }
    requires unmarked { (⟦<FileStore<H, O, L> as Pages>⟧.state store).marked ≡ None }
    // It is known what the file was before it was opened.
    requires origin { ForSome (H.file store.host) (λ file. (first : List ℕ) × (O.first ≡ Some first) × IsFormed first × FrontAgrees first file.bytes) }
    ensures runs { (file : File) (said : List ℕ) → H.file store.host ≡ Some file → (H.beside store.host).tape ≡ Some said
        → (shape : Shape) → StatesExtents file.bytes shape → IsSoundStore ⟦<FileStore<H, O, L> as Pages>⟧ shape store
        → ServesStore ⟦<FileStore<H, O, L> as Pages>⟧ H.Disk shape said (I.left input.old) (I.left input.new) store result.host result.end (L.told log.new) }
    ensures damaged { (damage : Damage) → result.end ≡ Err (Stop.Damaged damage) → (file : File) → H.file store.host ≡ Some file
        → (shape : Shape) → StatesExtents file.bytes shape → IsSoundStore ⟦<FileStore<H, O, L> as Pages>⟧ shape store → ⊥ }
    ensures any { (⟦<FileStore<H, O, L> as Pages>⟧.state store).base ≡ (⟦<FileStore<H, O, L> as Pages>⟧.state store).work → Rests ⟦<FileStore<H, O, L> as Pages>⟧ store
        → ServesAny ⟦<FileStore<H, O, L> as Pages>⟧ H.Disk (H.file store.host) (I.left input.old) (I.left input.new) store result.host result.end }
    ensures takes { TakesBySession (I.left input.old) (I.left input.new) result.end }
    ensures grew { (⟦<FileStore<H, O, L> as Pages>⟧.state store).base ≡ (⟦<FileStore<H, O, L> as Pages>⟧.state store).work
        → IfSome O.first (λ first. ForSome (H.file result.host) (λ file. GrewWhere (result.end ≡ Err Stop.Device → ⊥) first file.bytes)) }
    ensures reopens { (file : File) (said : List ℕ) → H.file store.host ≡ Some file → (H.beside store.host).tape ≡ Some said
        → LeavesFormed ⟦<FileStore<H, O, L> as Pages>⟧ H.Disk file.bytes store result.host }
    ensures reads { CountsFault (result.end ≡ Err Stop.Unread) (I.read_faults input.old) (I.read_faults input.new) }
    ensures unsaid { CountsFault (result.end ≡ Err Stop.Unsaid) (H.say_faults store.host) (H.say_faults result.host) }
    ensures device { CountsFault (result.end ≡ Err Stop.Device) (H.disk_faults store.host) (H.disk_faults result.host) }
    ensures attaches { H.attaches result.host ≡ H.attaches store.host }
    ensures told { StaysTold (H.file store.host) (H.file result.host) × TellsMore (H.beside store.host).tape (H.beside result.host).tape }
    ensures log { FetchesMore (⟦<FileStore<H, O, L> as Pages>⟧.state store).fetched (L.told log.new) }
    ensures later { H.clock store.host ≤ H.clock result.host }
{
    // A run over sound pages is one over lists of rows.
    goes_on_lists();
    sound_pages_stand();
    let (extents, extent_pages) = store.shape();
    let Some(shape) = Shape::new(extents, extent_pages) else {
        unreachable!()
    };
    let answered = serve_pages(alloc, input, store, shape);
    let closed = answered.store.close();
    *log = closed.log;
    Ended {
        end: answered.end,
        host: closed.host,
    }
}

// Serves a script on the pages of a store, whose extents are of this shape.
fn serve_pages<I: Source, S: Store>(
    alloc: Global,
    input: &mut I,
    store: S,
    shape: Shape,
) -> Answered<S>
    requires going { (S.state store).ended ≡ false }
    requires unmarked { (S.state store).marked ≡ None }
    ensures runs { IsSoundStore S.Pages shape store → RunsOnStore S.Pages shape (I.left input.old) (I.left input.new) store result.store result.end }
    ensures damaged { (damage : Damage) → result.end ≡ Err (Stop.Damaged damage) → IsSoundStore S.Pages shape store → ⊥ }
    // Whatever the pages are, where all of them are committed: one run of the script's items on them.
    ensures any { (S.state store).base ≡ (S.state store).work → RunsAnyOnStore S.Pages shape (I.left input.old) (I.left input.new) store result.store result.end }
    ensures stop { IfErr result.end IsOfScript }
    ensures going { (S.state store).base ≡ (S.state store).work → (result.end ≡ Err Stop.Device → ⊥) → (S.state result.store).ended ≡ false }
    ensures rests { Rests S.Pages store → Rests S.Pages result.store }
    ensures reads { CountsFault (result.end ≡ Err Stop.Unread) (I.read_faults input.old) (I.read_faults input.new) }
    ensures unsaid { CountsFault (result.end ≡ Err Stop.Unsaid) (S.say_faults store) (S.say_faults result.store) }
    ensures device { CountsFault (result.end ≡ Err Stop.Device) (S.disk_faults store) (S.disk_faults result.store) }
    ensures beside { (S.state result.store).beside ≡ (S.state store).beside }
    ensures is_told { (S.state result.store).is_told ≡ (S.state store).is_told }
    ensures takes { IfSome (I.left input.old) (λ script. TakesScript script (I.left input.new) result.end) }
    ensures tells { TellsMore (S.state store).told (S.state result.store).told }
    ensures log { FetchesMore (S.state store).fetched (S.state result.store).fetched }
    ensures reopens { OverTime S.clock S.left ReopensAlways store result.store }
    ensures later { S.clock store ≤ S.clock result.store }
{
    match Engine::open(alloc, store, shape) {
        Ok(engine) => {
            let mut engine = engine;
            let end = serve(alloc, input, &mut engine);
            Answered {
                end,
                store: engine.close(),
            }
        }
        Err(Stopped { stop, store }) => Answered {
            end: Err(Stop::from(stop)),
            store,
        },
    }
}

// Why a file isn't opened, as a stop of the run.
fn stop_of_opening(fault: OpenFault) -> Stop
    requires { fault ≢ OpenFault.Exists }
    ensures { StopsOpening fault result }
{
    match fault {
        OpenFault::Exists => unreachable!(),
        OpenFault::Unmade => Stop::Unmade,
        OpenFault::NotMdc => Stop::NotMdc,
        OpenFault::Version(version) => Stop::Version(version),
        OpenFault::Device => Stop::Device,
        OpenFault::Damaged(damage) => Stop::Damaged(damage),
        OpenFault::Memory => Stop::Memory,
    }
}
