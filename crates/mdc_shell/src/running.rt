// The runs of scripts: on the file at a path, and on a scratch file.
ghost use Rattle.std.specs.Prelude.{◌≡◌, ◌⊎◌, ◌≤◌, ◌<◌, ℕ, List, Some, Err, length, codes, true, false, IsTrue, IfSome};
ghost use Rattle.std.specs.Option.{ForSome};
ghost use Rattle.mdc_outside.specs.Disk.{File};
ghost use Rattle.mdc_words.specs.Faults.{CountsFault};
ghost use Rattle.page_store.specs.Growing.{GrewByCalls};
ghost use Rattle.page_store.specs.Opening.{IsServed};
ghost use Rattle.page_store.specs.Standing.{IsFormed};
ghost use Rattle.session.specs.script.Fetching.{FetchesMore};
ghost use Rattle.session.specs.script.Told.{StaysTold};
ghost use Rattle.session.specs.file.Leaving.{AreFormed};
ghost use Rattle.session.specs.file.Well.{AreWell, IsWell};
ghost use Rattle.mdc_shell.specs.Create.{MayAttach};
ghost use Rattle.mdc_shell.specs.Check.{StaysUnserved};
ghost use Rattle.mdc_shell.specs.Run.{RefusesFile, RefusesScratch, ReopensFile, RunsAnyPath, RunsPath, RunsScratch, ServesPath, TakesByStatus};
ghost use Rattle.mdc_shell.specs.Status.{IsScriptStatus};
ghost use Rattle.mdc_shell.specs.Untouched.{IsUntouched};

use crate::create::{Created, EXISTS, end_with, make_at};
use crate::ending::end_run;
use crate::laws::{made_files_are_well, nothing_is_run, scratch_runs};
use crate::program::Ended;
use crate::status::Status;
use mdc_outside::{Failed, Host, Source};
use page_store::{FetchLog, OpenFault};
use session::serve_file;
use std::alloc::Global;
use std::marker::Brand;

// The path of the scratch file.
const SCRATCH: &str = "-";

// How many extents the scratch file has.
const SCRATCH_EXTENTS: u32 = 4_096;

// How many pages each of them has.
const SCRATCH_PAGES: u32 = 4;

/// Runs the script of the input on the database in the file at the path. A file that isn't served is named by a line. The log goes on with
/// the pages that come to hand.
pub fn run_path<I: Source, H: Host, L: FetchLog>(
    alloc: Global,
    path: &str,
    input: &mut I,
    host: H,
    log: &mut L,
) -> Ended<H>
    ensures served { ServesPath (H.file host) (I.left input.old) (I.left input.new) (H.tape host) (H.tape result.host) result.status.0 }
    ensures runs_any { (before : File) (said : List ℕ) → H.file host ≡ Some before → H.tape host ≡ Some said → IsServed before.bytes
        → RunsAnyPath H.Disk before said (I.left input.old) (I.left input.new) (H.tape result.host) host result.host result.status.0 }
    ensures statuses { IsScriptStatus result.status.0 }
    ensures runs { (before : File) (said : List ℕ) → H.file host ≡ Some before → H.tape host ≡ Some said → IsWell before.bytes
        → RunsPath H.Disk before said (I.left input.old) (I.left input.new) host result.host result.status.0 (L.told log.old) (L.told log.new) }
    ensures stays_well { (before : File) (said : List ℕ) → H.file host ≡ Some before → H.tape host ≡ Some said → AreWell before
        → (after : File) × (H.file result.host ≡ Some after) × AreWell after }
    ensures reopens { (before : File) (said : List ℕ) → H.file host ≡ Some before → H.tape host ≡ Some said → IsFormed before.bytes
        → ReopensFile H.Disk before said (I.left input.old) (I.left input.new) (H.tape result.host) host result.host result.status.0 }
    ensures stays_formed { (before : File) (said : List ℕ) → H.file host ≡ Some before → H.tape host ≡ Some said → AreFormed before
        → (after : File) × (H.file result.host ≡ Some after) × AreFormed after }
    ensures refuses { (before : File) (said : List ℕ) → H.file host ≡ Some before → H.tape host ≡ Some said → (IsServed before.bytes → ⊥)
        → RefusesFile H.Disk before said (H.tape result.host) host result.host result.status.0 × (input.new ≡ input.old) }
    ensures keeps_refused { (before : File) → H.file host ≡ Some before → (IsServed before.bytes → ⊥) → StaysUnserved before (H.file result.host) result.status.0 }
    ensures grew { (before after : File) → H.file host ≡ Some before → H.file result.host ≡ Some after → GrewByCalls (result.status.0 ≡ 3) before after.bytes }
    ensures attaches { MayAttach (H.attaches host) path.now false (H.attaches result.host) }
    ensures disk { CountsFault (result.status.0 ≡ 3) (H.disk_faults host) (H.disk_faults result.host) }
    ensures takes { IfSome (I.left input.old) (λ script. TakesByStatus script (I.left input.new) result.status.0) }
    ensures reads { CountsFault (result.status.0 ≡ 4) (I.read_faults input.old) (I.read_faults input.new) }
    ensures says { CountsFault (result.status.0 ≡ 5) (H.say_faults host) (H.say_faults result.host) }
    ensures later { H.clock host ≤ H.clock result.host }
    ensures told { StaysTold (H.file host) (H.file result.host) × StaysTold (H.tape host) (H.tape result.host) }
    ensures log { FetchesMore (L.told log.old) (L.told log.new) }
    ensures unfetched { ForSome (H.file host) (λ file. (IsServed file.bytes → ⊥) → L.told log.new ≡ L.told log.old) }
{
    nothing_is_run();
    let mut host = host;
    match host.attach(path, false) {
        Ok(()) => run_attached(alloc, input, host, log),
        Err(Failed) => Ended {
            status: Status::DISK_FAILED,
            host,
        },
    }
}

/// Makes a database in the scratch file, which has no byte, and runs the script of the input on it.
pub fn run_scratch<I: Source, H: Host, L: FetchLog>(
    alloc: Global,
    input: &mut I,
    host: H,
    log: &mut L,
) -> Ended<H>
    ensures runs { (before : File) (said : List ℕ) → H.file host ≡ Some before → H.tape host ≡ Some said → length before.bytes ≡ 0
        → RunsScratch said (I.left input.old) (I.left input.new) (H.tape result.host) result.status.0 (L.told log.old) (L.told log.new) }
    ensures full { (before : File) (said : List ℕ) → H.file host ≡ Some before → H.tape host ≡ Some said → 0 < length before.bytes
        → RefusesScratch said (H.tape result.host) result.status.0 × (H.file result.host ≡ H.file host) × (input.new ≡ input.old) }
    ensures statuses { IsScriptStatus result.status.0 }
    ensures attaches { MayAttach (H.attaches host) (codes "-") true (H.attaches result.host) }
    ensures disk { CountsFault (result.status.0 ≡ 3) (H.disk_faults host) (H.disk_faults result.host) }
    ensures takes { IfSome (I.left input.old) (λ script. TakesByStatus script (I.left input.new) result.status.0) }
    ensures reads { CountsFault (result.status.0 ≡ 4) (I.read_faults input.old) (I.read_faults input.new) }
    ensures says { CountsFault (result.status.0 ≡ 5) (H.say_faults host) (H.say_faults result.host) }
    ensures later { H.clock host ≤ H.clock result.host }
    ensures told { StaysTold (H.file host) (H.file result.host) × StaysTold (H.tape host) (H.tape result.host) }
    ensures log { FetchesMore (L.told log.old) (L.told log.new) }
{
    nothing_is_run();
    made_files_are_well();
    scratch_runs();
    let mut host = host;
    match make_at(&mut host, SCRATCH, SCRATCH_EXTENTS, SCRATCH_PAGES) {
        Ok(()) => run_attached(alloc, input, host, log),
        Err(fault) => match fault {
            OpenFault::Exists => refuse_scratch(host),
            _ => Ended {
                status: Status::DISK_FAILED,
                host,
            },
        },
    }
}

// Says that the scratch file has a byte.
fn refuse_scratch<H: Host>(host: H) -> Ended<H>
    ensures refuses { (said : List ℕ) → H.tape host ≡ Some said → RefusesScratch said (H.tape result.host) result.status.0 }
    ensures statuses { (result.status.0 ≡ 6) ⊎ (result.status.0 ≡ 5) }
    ensures says { CountsFault (result.status.0 ≡ 5) (H.say_faults host) (H.say_faults result.host) }
    ensures disk { IsUntouched H.file H.attaches H.disk_faults host result.host }
    ensures later { H.clock host ≤ H.clock result.host }
    ensures told { StaysTold (H.tape host) (H.tape result.host) }
{
    let mut host = host;
    let end = end_with(&mut host, EXISTS, Created::Exists);
    Ended {
        status: Status::of_created(end),
        host,
    }
}

// Runs the script of the input on the database in the attached file.
fn run_attached<I: Source, H: Host, L: FetchLog>(
    alloc: Global,
    input: &mut I,
    host: H,
    log: &mut L,
) -> Ended<H>
    requires attached { IsTrue (H.is_attached host) }
    ensures served { ServesPath (H.file host) (I.left input.old) (I.left input.new) (H.tape host) (H.tape result.host) result.status.0 }
    ensures runs_any { (before : File) (said : List ℕ) → H.file host ≡ Some before → H.tape host ≡ Some said → IsServed before.bytes
        → RunsAnyPath H.Disk before said (I.left input.old) (I.left input.new) (H.tape result.host) host result.host result.status.0 }
    ensures statuses { IsScriptStatus result.status.0 }
    ensures runs { (before : File) (said : List ℕ) → H.file host ≡ Some before → H.tape host ≡ Some said → IsWell before.bytes
        → RunsPath H.Disk before said (I.left input.old) (I.left input.new) host result.host result.status.0 (L.told log.old) (L.told log.new) }
    ensures stays_well { (before : File) (said : List ℕ) → H.file host ≡ Some before → H.tape host ≡ Some said → AreWell before
        → (after : File) × (H.file result.host ≡ Some after) × AreWell after }
    ensures reopens { (before : File) (said : List ℕ) → H.file host ≡ Some before → H.tape host ≡ Some said → IsFormed before.bytes
        → ReopensFile H.Disk before said (I.left input.old) (I.left input.new) (H.tape result.host) host result.host result.status.0 }
    ensures stays_formed { (before : File) (said : List ℕ) → H.file host ≡ Some before → H.tape host ≡ Some said → AreFormed before
        → (after : File) × (H.file result.host ≡ Some after) × AreFormed after }
    ensures refuses { (before : File) (said : List ℕ) → H.file host ≡ Some before → H.tape host ≡ Some said → (IsServed before.bytes → ⊥)
        → RefusesFile H.Disk before said (H.tape result.host) host result.host result.status.0 × (input.new ≡ input.old) }
    ensures keeps_refused { (before : File) → H.file host ≡ Some before → (IsServed before.bytes → ⊥) → StaysUnserved before (H.file result.host) result.status.0 }
    ensures grew { (before after : File) → H.file host ≡ Some before → H.file result.host ≡ Some after → GrewByCalls (result.status.0 ≡ 3) before after.bytes }
    ensures attaches { H.attaches result.host ≡ H.attaches host }
    ensures disk { CountsFault (result.status.0 ≡ 3) (H.disk_faults host) (H.disk_faults result.host) }
    ensures takes { IfSome (I.left input.old) (λ script. TakesByStatus script (I.left input.new) result.status.0) }
    ensures reads { CountsFault (result.status.0 ≡ 4) (I.read_faults input.old) (I.read_faults input.new) }
    ensures says { CountsFault (result.status.0 ≡ 5) (H.say_faults host) (H.say_faults result.host) }
    ensures later { H.clock host ≤ H.clock result.host }
    ensures told { StaysTold (H.file host) (H.file result.host) × StaysTold (H.tape host) (H.tape result.host) }
    ensures log { FetchesMore (L.told log.old) (L.told log.new) }
    ensures unfetched { ForSome (H.file host) (λ file. (IsServed file.bytes → ⊥) → L.told log.new ≡ L.told log.old) }
{
    let ended = serve_file::<I, H, Brand, L>(alloc, input, host, log);
    end_run(alloc, ended.end, ended.host)
}
