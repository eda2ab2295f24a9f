// The verdict on the file that is attached to a host.
ghost use Rattle.std.specs.Prelude.{◌≡◌, ◌≢◌, ◌↔◌, ◌⊎◌, ◌≤◌, ℕ, List, Some, Result, Ok, Err, IsTrue, false};
ghost use Rattle.std.specs.Option.{ForSome};
ghost use Rattle.mdc_words.specs.Faults.{CountsFault};
ghost use Rattle.mdc_words.specs.Time.{OverTime};
ghost use Rattle.mdc_outside.specs.Disk.{File, IsImage};
ghost use Rattle.store_api.specs.declared.shape.Shape.{Shape};
ghost use Rattle.page_file.specs.Bound.{LeavesOf};
ghost use Rattle.page_file.specs.Leaving.{LeavesImage};
ghost use Rattle.page_store.specs.Faults.{MayComeFirst};
ghost use Rattle.page_store.specs.Growing.{GrewByCalls};
ghost use Rattle.page_store.specs.Opened.{CouldBeLeft, file_bytes};
ghost use Rattle.page_store.specs.Opening.{IsServed, Refuses};
ghost use Rattle.page_store.specs.Standing.{IsFormed};
ghost use Rattle.file_verdict.specs.Resting.{ComesToRest, LeavesBase, StandsAsBefore};
ghost use Rattle.file_verdict.specs.SoundFile.{IsSoundFile, StatesExtents};
ghost use Rattle.file_verdict.specs.Verdict.{IsAnswerOnSound, IsNoVerdict, IsVerdictOn, IsVerdictOnPages, verdict_of_check};
ghost use Rattle.file_verdict.specs.Written.{WritesOpening};

use crate::unjudged::Unjudged;
use file_check::{Verdict, check, sound_pages_break_no_rule};
use mdc_outside::Host;
use page_store::{CACHED_PAGES, FileStore, OpenFault, Unopened, Untold};
use std::alloc::Global;
use std::marker::Brand;
use store_api::{PageFault, Pages, Shape};

/// The verdict on a file, or why it has none, and the host.
#[derive(Drop)]
pub struct Judged<H> {
    pub verdict: Result<Verdict, Unjudged>,
    pub host: H,
}

/// Judges the database in the attached file, as it is at entry: opens it, judges all pages that it stands for by the twelve rules, and
/// gives the host back. No byte is said. The opening has all of the file on the disk and brings a journal that counts home, nothing else
/// is written, and a crash leaves a file that stands for the same pages. A file that can't be opened stays as it was; where the disk
/// failed, it may be what a crash could leave of it.
pub fn judge_file<H: Host>(alloc: Global, host: H) -> Judged<H>
    requires attached { IsTrue (H.is_attached host) }
    ensures verdict { ForSome (H.file host) (λ file. IsVerdictOn file.bytes result.verdict) }
    ensures sound { ForSome (H.file host) (λ file. IsSoundFile file.bytes → IsAnswerOnSound result.verdict) }
    // From the origin of the opening on a crash leaves a file that stands for the same pages. Only where there is no verdict the
    // opening may have stopped before any origin.
    ensures rests { (before : File) (said : List ℕ) → H.file host ≡ Some before → (H.beside host).tape ≡ Some said → IsFormed before.bytes
        → ComesToRest H.Disk before said (λ image tape. StandsAsBefore before.bytes image × (tape ≡ said)) host result.host
        ⊎ (IsNoVerdict result.verdict × OverTime H.clock H.moment (LeavesImage (CouldBeLeft before) said) host result.host) }
    // So does each image that a crash may leave of the file afterwards.
    ensures leaves { (before : File) (said : List ℕ) → H.file host ≡ Some before → (H.beside host).tape ≡ Some said → IsFormed before.bytes → (IsNoVerdict result.verdict → ⊥)
        → (after : File) × (H.file result.host ≡ Some after) × ((image : List ℕ) → IsImage after.since image → StandsAsBefore before.bytes image) }
    // A file that can't be opened is left alone, also where the disk fails.
    ensures left_alone { ForSome (H.file host) (λ file. (IsServed file.bytes → ⊥) → LeavesOf H.Disk CouldBeLeft host result.host
        × ((result.verdict ≡ Err Unjudged.Device → ⊥) → file_bytes (H.file result.host) ≡ file_bytes (H.file host))) }
    // What is written is what the opening writes: a journal that counts is brought home.
    ensures writes { ForSome (H.file host) (λ file. WritesOpening result.verdict file.bytes (file_bytes (H.file result.host))) }
    // Its front is as it was, and it is no longer. Where the disk failed, it may be what a crash could leave.
    ensures grew { (before after : File) → H.file host ≡ Some before → H.file result.host ≡ Some after
        → GrewByCalls (result.verdict ≡ Err Unjudged.Device) before after.bytes }
    ensures device { CountsFault (result.verdict ≡ Err Unjudged.Device) (H.disk_faults host) (H.disk_faults result.host) }
    ensures beside { H.beside result.host ≡ H.beside host }
    ensures attaches { H.attaches result.host ≡ H.attaches host }
    ensures told { (before : File) → H.file host ≡ Some before → (after : File) × (H.file result.host ≡ Some after) }
    ensures later { H.clock host ≤ H.clock result.host }
{
    sound_pages_break_no_rule();
    match FileStore::<H, Brand, Untold>::open(alloc, host, Untold, CACHED_PAGES) {
        Ok(store) => judge_store(alloc, store),
        Err(Unopened { fault, host, .. }) => Judged {
            verdict: verdict_of_opening(fault),
            host,
        },
    }
}

// Judges the pages of a store that was just opened, and gives its host back.
fn judge_store<H: Host>(alloc: Global, store: FileStore<H>) -> Judged<H>
    requires going { (⟦<FileStore<H> as Pages>⟧.state store).ended ≡ false }
    ensures judges { ForSome (H.file store.host) (λ file. (shape : Shape) × StatesExtents file.bytes shape
        × IsVerdictOnPages shape (⟦<FileStore<H> as Pages>⟧.state store).work result.verdict) }
    // What is left of the host stands for the base of the store.
    ensures leaves { (file : File) (said : List ℕ) → H.file store.host ≡ Some file → (H.beside store.host).tape ≡ Some said
        → LeavesBase ⟦<FileStore<H> as Pages>⟧ H.Disk file.bytes said store result.host }
    // Not a byte is written.
    ensures same_bytes { file_bytes (H.file result.host) ≡ file_bytes (H.file store.host) }
    ensures device { CountsFault (result.verdict ≡ Err Unjudged.Device) (H.disk_faults store.host) (H.disk_faults result.host) }
    ensures beside { H.beside result.host ≡ H.beside store.host }
    ensures attaches { H.attaches result.host ≡ H.attaches store.host }
    ensures told { (before : File) → H.file store.host ≡ Some before → (after : File) × (H.file result.host ≡ Some after) }
    ensures later { H.clock store.host ≤ H.clock result.host }
{
    let mut store = store;
    let (extents, extent_pages) = store.shape();
    let Some(shape) = Shape::new(extents, extent_pages) else {
        unreachable!()
    };
    let verdict = check(alloc, shape, &mut store);
    Judged {
        verdict: verdict_of(verdict),
        host: store.close().host,
    }
}

// What the check of the pages found, or why it found nothing.
fn verdict_of(found: Result<Verdict, PageFault>) -> Result<Verdict, Unjudged>
    ensures { result ≡ verdict_of_check found }
{
    match found {
        Ok(verdict) => Ok(verdict),
        Err(PageFault::Device) => Err(Unjudged::Device),
        Err(PageFault::Memory) => Err(Unjudged::Memory),
    }
}

// What a refused opening says of the file. Damage that it met is a verdict.
fn verdict_of_opening(fault: OpenFault) -> Result<Verdict, Unjudged>
    requires { fault ≢ OpenFault.Exists }
    ensures is_its { (file : List ℕ) → Refuses fault file → IsVerdictOn file result }
    ensures device { (result ≡ Err Unjudged.Device) ↔ (fault ≡ OpenFault.Device) }
    ensures no_verdict { MayComeFirst fault → IsNoVerdict result }
{
    match fault {
        OpenFault::Exists => unreachable!(),
        OpenFault::Unmade => Err(Unjudged::Unmade),
        OpenFault::NotMdc => Err(Unjudged::NotMdc),
        OpenFault::Version(version) => Err(Unjudged::Version(version)),
        OpenFault::Damaged(damage) => Ok(Verdict::Broken(damage)),
        OpenFault::Device => Err(Unjudged::Device),
        OpenFault::Memory => Err(Unjudged::Memory),
    }
}
