// The program's one call: a command line, a source and a host in, a status and the host out.
ghost use Rattle.std.specs.Prelude.{◌≡◌, ◌⊎◌, ◌≤◌, ◌<◌, List, ℕ, Some, IfSome, codes, map, string_bytes, length, true, false};
ghost use Rattle.std.specs.Option.{ForSome};
ghost use Rattle.mdc_outside.specs.Disk.{File};
ghost use Rattle.mdc_outside.specs.Moments.{IsMoment, IsWithinCall};
ghost use Rattle.mdc_words.specs.Faults.{CountsFault, Rose};
ghost use Rattle.mdc_words.specs.Time.{OverTime};
ghost use Rattle.page_store.specs.Growing.{GrewByCalls};
ghost use Rattle.page_store.specs.Opened.{file_bytes};
ghost use Rattle.page_store.specs.Opening.{IsServed};
ghost use Rattle.page_store.specs.Standing.{IsFormed};
ghost use Rattle.session.specs.script.Fetching.{FetchesMore};
ghost use Rattle.session.specs.script.Told.{StaysTold};
ghost use Rattle.session.specs.file.Leaving.{AreFormed};
ghost use Rattle.session.specs.file.Well.{AreWell, IsWell};
ghost use Rattle.file_verdict.specs.SoundFile.{AreSoundFiles, IsSoundFile};
ghost use Rattle.mdc_shell.specs.Check.{ChecksFormed, ChecksPath, ChecksUnserved, IsCheckComplete, IsCheckStatus, IsStatusOnSound, IsUnsettled, StaysStanding, StaysUnserved, WritesChecked};
ghost use Rattle.mdc_shell.specs.Create.{Completes, Creates, MayAttach};
ghost use Rattle.mdc_shell.specs.Leaving.{LeftByCreate};
ghost use Rattle.mdc_shell.specs.Run.{IsComplete, IsWithinLimit, RefusesFile, RefusesScratch, ReopensFile, RunsAnyPath, RunsPath, RunsScratch, ServesPath, StandsForNothing, TakesByStatus};
ghost use Rattle.mdc_shell.specs.Status.{IsScriptStatus, IsStatus};
ghost use Rattle.mdc_shell.specs.Untouched.{IsUntouched};
ghost use Rattle.mdc_shell.specs.Words.{CheckFile, CreateFile, IsNoLine, RunFile, RunScratch, SaysUsage, SpellsLine, usage};

use crate::checking::check_path;
use crate::command::Command;
use crate::create::create;
use crate::laws::{made_files_are_well, nothing_is_run};
use crate::running::{run_path, run_scratch};
use crate::status::Status;
use mdc_outside::{Failed, Host, Source};
use mdc_values::Memory;
use page_store::FetchLog;
use std::alloc::Global;
use store_api::Shape;

/// What a call of `run` ends with: its status, and the host that it was given.
#[derive(Drop)]
pub struct Ended<H> {
    pub status: Status,
    pub host: H,
}

const USAGE: &[u8] = b"usage: mdc create FILE EXTENTS PAGES | run FILE | check FILE | work N\n";

/// Runs the program on the words after its name. `run FILE` runs the script of `input` on the database in the file, and says one
/// reply for each statement, as the statement closes. `run -` runs it on a scratch file, which is made first. `create FILE EXTENTS
/// PAGES` makes an empty database in the file, and says `OK` once it is on the disk, or `FILE EXISTS` where the file has a byte.
/// `check FILE` judges the database in the file, and says `SOUND`, or `BROKEN` with a page and the rule that it breaks.
/// For all other words nothing is read, and the usage line is said. The log goes on with the pages that come to hand of a run.
pub fn run<I: Source, H: Host, L: FetchLog>(
    alloc: Global,
    words: &Vec<String>,
    input: &mut I,
    host: H,
    log: &mut L,
) -> Ended<H>
    ensures statuses { IsStatus result.status.0 }

    // `run FILE`, on any file: the end has its cause in the file, and its line is said behind all else. Unless the file is refused, there
    // is one run of the script's items on its pages, whatever they are: each does what its statement may, the replies are the texts of
    // its outcomes, and damage is that of the file as it was opened, or of the pages that were held behind the items.
    ensures served { (path : List ℕ) → SpellsLine (map string_bytes words.now.items) (RunFile path)
        → ServesPath (H.file host) (I.left input.old) (I.left input.new) (H.tape host) (H.tape result.host) result.status.0
        × MayAttach (H.attaches host) path false (H.attaches result.host) × IsScriptStatus result.status.0 }

    // On a file that is served: what a crash leaves at each moment of such a run, and at its end.
    ensures runs_any { (path : List ℕ) → SpellsLine (map string_bytes words.now.items) (RunFile path)
        → (before : File) (said : List ℕ) → H.file host ≡ Some before → H.tape host ≡ Some said → IsServed before.bytes
        → RunsAnyPath H.Disk before said (I.left input.old) (I.left input.new) (H.tape result.host) host result.host result.status.0 }

    // On a file that is well: one run of the script's items, whose replies are those of plain lists of rows, which pages come to hand with
    // each of them, where the log tells them, and what a crash leaves at each moment of it.
    ensures runs { (path : List ℕ) → SpellsLine (map string_bytes words.now.items) (RunFile path)
        → (before : File) (said : List ℕ) → H.file host ≡ Some before → H.tape host ≡ Some said → IsWell before.bytes
        → RunsPath H.Disk before said (I.left input.old) (I.left input.new) host result.host result.status.0 (L.told log.old) (L.told log.new) }

    // So the next run keeps the promise too.
    ensures stays_well { (path : List ℕ) → SpellsLine (map string_bytes words.now.items) (RunFile path)
        → (before : File) (said : List ℕ) → H.file host ≡ Some before → H.tape host ≡ Some said → AreWell before
        → (after : File) × (H.file result.host ≡ Some after) × AreWell after }

    // On a formed file, whatever its pages are: from the run's origin on a crash leaves a formed file of the same extents and the same
    // front. Where each image that could be left was formed, each is so after the run.
    ensures reopens { (path : List ℕ) → SpellsLine (map string_bytes words.now.items) (RunFile path)
        → (before : File) (said : List ℕ) → H.file host ≡ Some before → H.tape host ≡ Some said → IsFormed before.bytes
        → ReopensFile H.Disk before said (I.left input.old) (I.left input.new) (H.tape result.host) host result.host result.status.0 }
    ensures stays_formed { (path : List ℕ) → SpellsLine (map string_bytes words.now.items) (RunFile path)
        → (before : File) (said : List ℕ) → H.file host ≡ Some before → H.tape host ≡ Some said → AreFormed before
        → (after : File) × (H.file result.host ≡ Some after) × AreFormed after }

    // On a file that can't be opened: the line of its cause, and nothing is read.
    ensures refuses { (path : List ℕ) → SpellsLine (map string_bytes words.now.items) (RunFile path)
        → (before : File) (said : List ℕ) → H.file host ≡ Some before → H.tape host ≡ Some said → (IsServed before.bytes → ⊥)
        → RefusesFile H.Disk before said (H.tape result.host) host result.host result.status.0 × (input.new ≡ input.old) }

    // Such a file stays; where the disk failed, it may be what a crash could leave of it.
    ensures keeps_refused { (path : List ℕ) → SpellsLine (map string_bytes words.now.items) (RunFile path)
        → (before : File) → H.file host ≡ Some before → (IsServed before.bytes → ⊥) → StaysUnserved before (H.file result.host) result.status.0 }

    // `run -`: a scratch file without a byte is made a database, and the script runs on it.
    ensures scratch { SpellsLine (map string_bytes words.now.items) RunScratch
        → (before : File) (said : List ℕ) → H.file host ≡ Some before → H.tape host ≡ Some said → length before.bytes ≡ 0
        → RunsScratch said (I.left input.old) (I.left input.new) (H.tape result.host) result.status.0 (L.told log.old) (L.told log.new) }
    ensures scratch_full { SpellsLine (map string_bytes words.now.items) RunScratch
        → (before : File) (said : List ℕ) → H.file host ≡ Some before → H.tape host ≡ Some said → 0 < length before.bytes
        → RefusesScratch said (H.tape result.host) result.status.0 × (H.file result.host ≡ H.file host) × (input.new ≡ input.old) }
    ensures scratch_any { SpellsLine (map string_bytes words.now.items) RunScratch
        → MayAttach (H.attaches host) (codes "-") true (H.attaches result.host) × IsScriptStatus result.status.0 }

    // What is taken of a script, by the status, whatever the file is.
    ensures takes { (path : List ℕ) → SpellsLine (map string_bytes words.now.items) (RunFile path)
        → IfSome (I.left input.old) (λ script. TakesByStatus script (I.left input.new) result.status.0) }
    ensures scratch_takes { SpellsLine (map string_bytes words.now.items) RunScratch
        → IfSome (I.left input.old) (λ script. TakesByStatus script (I.left input.new) result.status.0) }

    // The words of a create: what it does to the file and says, for each status, and what a crash leaves.
    ensures created { (path : List ℕ) (extents extent_pages : ℕ) → SpellsLine (map string_bytes words.now.items) (CreateFile path extents extent_pages)
        → Creates extents extent_pages (H.file host) (H.file result.host) (H.tape host) (H.tape result.host) result.status.0
        × MayAttach (H.attaches host) path true (H.attaches result.host) × (input.new ≡ input.old) }
    ensures created_time { (path : List ℕ) (extents extent_pages : ℕ) → SpellsLine (map string_bytes words.now.items) (CreateFile path extents extent_pages)
        → (before : File) (said : List ℕ) → H.file host ≡ Some before → H.tape host ≡ Some said
        → OverTime H.clock H.moment (LeftByCreate extents extent_pages before said) host result.host }

    // What it makes is well, and stands for no table: `run FILE` serves it.
    ensures makes_well { (path : List ℕ) (extents extent_pages : ℕ) → SpellsLine (map string_bytes words.now.items) (CreateFile path extents extent_pages)
        → result.status.0 ≡ 0 → ForSome (H.file result.host) (λ file. AreWell file × StandsForNothing file.bytes) }

    // `check FILE`, on any file, whatever its bytes: the verdict is that of the file as it was at entry, and its line is said, and
    // nothing else. Nothing is read.
    ensures checks { (path : List ℕ) → SpellsLine (map string_bytes words.now.items) (CheckFile path)
        → ChecksPath (H.file host) (H.tape host) (H.tape result.host) result.status.0
        × MayAttach (H.attaches host) path false (H.attaches result.host) × IsCheckStatus result.status.0 × (input.new ≡ input.old) }
    ensures checks_sound { (path : List ℕ) → SpellsLine (map string_bytes words.now.items) (CheckFile path)
        → (before : File) → H.file host ≡ Some before → IsSoundFile before.bytes → IsStatusOnSound result.status.0 }

    // What a check writes is what its opening writes: the pages of a journal that counts go home, and its gate is shut. So a file of which
    // no journal counts has the bytes that it had. Only where the disk failed, at status 3, more may have become of it.
    ensures checks_writes { (path : List ℕ) → SpellsLine (map string_bytes words.now.items) (CheckFile path)
        → ForSome (H.file host) (λ file. WritesChecked result.status.0 file.bytes (file_bytes (H.file result.host))) }

    // On a formed file: from the origin of its opening on a crash leaves a file that stands for the same pages. Only at the statuses 3
    // and 8 it may have stopped before any origin; at all others each image that may be left then stands so.
    ensures checks_formed { (path : List ℕ) → SpellsLine (map string_bytes words.now.items) (CheckFile path)
        → (before : File) (said : List ℕ) → H.file host ≡ Some before → H.tape host ≡ Some said → IsFormed before.bytes
        → ChecksFormed H.Disk before said (H.tape result.host) host result.host result.status.0 }
    ensures checks_stands { (path : List ℕ) → SpellsLine (map string_bytes words.now.items) (CheckFile path)
        → (before : File) (said : List ℕ) → H.file host ≡ Some before → H.tape host ≡ Some said → IsFormed before.bytes → (IsUnsettled result.status.0 → ⊥)
        → StaysStanding before (H.file result.host) }

    // So behind `SOUND` the next check finds a sound file whatever a crash leaves, and the next run keeps its promise on one that is
    // well.
    ensures found_sound { (path : List ℕ) → SpellsLine (map string_bytes words.now.items) (CheckFile path)
        → (before : File) (said : List ℕ) → H.file host ≡ Some before → H.tape host ≡ Some said → result.status.0 ≡ 0
        → (after : File) × (H.file result.host ≡ Some after) × AreSoundFiles after }
    ensures found_well { (path : List ℕ) → SpellsLine (map string_bytes words.now.items) (CheckFile path)
        → (before : File) (said : List ℕ) → H.file host ≡ Some before → H.tape host ≡ Some said → result.status.0 ≡ 0 → IsWell before.bytes
        → (after : File) × (H.file result.host ≡ Some after) × AreWell after }

    // Where each image that could be left was sound, or well, each is so after a check, however it ends.
    ensures check_stays_sound { (path : List ℕ) → SpellsLine (map string_bytes words.now.items) (CheckFile path)
        → (before : File) (said : List ℕ) → H.file host ≡ Some before → H.tape host ≡ Some said → AreSoundFiles before
        → (after : File) × (H.file result.host ≡ Some after) × AreSoundFiles after }
    ensures check_stays_well { (path : List ℕ) → SpellsLine (map string_bytes words.now.items) (CheckFile path)
        → (before : File) (said : List ℕ) → H.file host ≡ Some before → H.tape host ≡ Some said → AreWell before
        → (after : File) × (H.file result.host ≡ Some after) × AreWell after }

    // A file that can't be opened stays; where the disk failed, it may be what a crash could leave of it.
    ensures checks_unserved { (path : List ℕ) → SpellsLine (map string_bytes words.now.items) (CheckFile path)
        → (before : File) (said : List ℕ) → H.file host ≡ Some before → H.tape host ≡ Some said → (IsServed before.bytes → ⊥)
        → ChecksUnserved H.Disk before said (H.tape result.host) host result.host result.status.0 }
    ensures keeps_unserved { (path : List ℕ) → SpellsLine (map string_bytes words.now.items) (CheckFile path)
        → (before : File) → H.file host ≡ Some before → (IsServed before.bytes → ⊥) → StaysUnserved before (H.file result.host) result.status.0 }

    // Where nothing failed, a told file is judged, unless memory is wanted.
    ensures check_completes { (path : List ℕ) → SpellsLine (map string_bytes words.now.items) (CheckFile path)
        → (Rose (H.disk_faults host) (H.disk_faults result.host) → ⊥)
        → (Rose (H.say_faults host) (H.say_faults result.host) → ⊥)
        → IsCheckComplete result.status.0 }

    // What becomes of any file but that of `run -`, however the run ends: its front is as it was, nothing is cut off, and it is no longer
    // than it was, or than its pages and one journal. Where a call of the disk failed, they are those of the commit that failed; or the
    // file is what a crash could leave of it.
    ensures grew { (SpellsLine (map string_bytes words.now.items) RunScratch → ⊥)
        → (before after : File) → H.file host ≡ Some before → H.file result.host ≡ Some after → GrewByCalls (result.status.0 ≡ 3) before after.bytes }

    // All other words: nothing is read.
    ensures usage { IsNoLine (map string_bytes words.now.items)
        → SaysUsage (H.tape host) (H.tape result.host) result.status.0 × (input.new ≡ input.old)
        × IsUntouched H.file H.attaches H.disk_faults host result.host }
    ensures usage_time { IsNoLine (map string_bytes words.now.items)
        → (before : File) (said : List ℕ) → H.file host ≡ Some before → H.tape host ≡ Some said
        → OverTime H.clock H.moment (IsMoment before.since said usage) host result.host }

    // The outside stops a run exactly where a call to it failed: each count of faults rose, or is as it was.
    ensures disk { CountsFault (result.status.0 ≡ 3) (H.disk_faults host) (H.disk_faults result.host) }
    ensures reads { CountsFault (result.status.0 ≡ 4) (I.read_faults input.old) (I.read_faults input.new) }
    ensures says { CountsFault (result.status.0 ≡ 5) (H.say_faults host) (H.say_faults result.host) }

    // However the run ends, the log goes on with the pages that came to hand. None does of a file that can't be opened, nor by words that
    // run no script.
    ensures log { FetchesMore (L.told log.old) (L.told log.new) }
    ensures unfetched { (path : List ℕ) → SpellsLine (map string_bytes words.now.items) (RunFile path)
        → ForSome (H.file host) (λ file. (IsServed file.bytes → ⊥) → L.told log.new ≡ L.told log.old) }
    ensures unlogged { ((path : List ℕ) → SpellsLine (map string_bytes words.now.items) (RunFile path) → ⊥)
        → (SpellsLine (map string_bytes words.now.items) RunScratch → ⊥) → L.told log.new ≡ L.told log.old }

    // Time goes on, and what was told is told still.
    ensures later { H.clock host ≤ H.clock result.host }
    ensures told { StaysTold (H.file host) (H.file result.host) × StaysTold (H.tape host) (H.tape result.host) }

    // Where nothing failed, a script within the limit is run to its end on a file that is well, and on a scratch file without a
    // byte, unless memory is wanted.
    ensures complete { (Rose (H.disk_faults host) (H.disk_faults result.host) → ⊥)
        → (Rose (I.read_faults input.old) (I.read_faults input.new) → ⊥)
        → (Rose (H.say_faults host) (H.say_faults result.host) → ⊥)
        → IsWithinLimit (I.left input.old)
        → (before : File) (said : List ℕ) → H.file host ≡ Some before → H.tape host ≡ Some said
        → ((path : List ℕ) × SpellsLine (map string_bytes words.now.items) (RunFile path) × IsWell before.bytes)
        ⊎ (SpellsLine (map string_bytes words.now.items) RunScratch × (length before.bytes ≡ 0))
        → IsComplete result.status.0 }

    // Where nothing failed, a create makes a database of a file without a byte, unless memory is wanted.
    ensures completes { (path : List ℕ) (extents extent_pages : ℕ) → SpellsLine (map string_bytes words.now.items) (CreateFile path extents extent_pages)
        → (Rose (H.disk_faults host) (H.disk_faults result.host) → ⊥)
        → (Rose (H.say_faults host) (H.say_faults result.host) → ⊥)
        → Completes (H.file host) result.status.0 }
{
    nothing_is_run();
    match Command::of_words(alloc, words.as_slice()) {
        Ok(Some(Command::RunScratch)) => run_scratch(alloc, input, host, log),
        Ok(Some(Command::RunFile { path })) => run_path(alloc, path, input, host, log),
        Ok(Some(Command::Check { path })) => check_path(alloc, path, host),
        Ok(Some(Command::Create { path, shape })) => create_file(host, path, shape),
        Ok(None) => say_usage(host),
        Err(Memory) => Ended {
            status: Status::MEMORY,
            host,
        },
    }
}

// Makes an empty database in the file at the path.
fn create_file<H: Host>(host: H, path: &str, shape: Shape) -> Ended<H>
    ensures creates { Creates shape.extents shape.extent_pages (H.file host) (H.file result.host) (H.tape host) (H.tape result.host) result.status.0 }
    ensures attaches { MayAttach (H.attaches host) path.now true (H.attaches result.host) }
    ensures disk { CountsFault (result.status.0 ≡ 3) (H.disk_faults host) (H.disk_faults result.host) }
    ensures says { CountsFault (result.status.0 ≡ 5) (H.say_faults host) (H.say_faults result.host) }
    ensures later { H.clock host ≤ H.clock result.host }
    ensures told { StaysTold (H.file host) (H.file result.host) × StaysTold (H.tape host) (H.tape result.host) }
    ensures time { (before : File) (said : List ℕ) → H.file host ≡ Some before → H.tape host ≡ Some said
        → OverTime H.clock H.moment (LeftByCreate shape.extents shape.extent_pages before said) host result.host }
    ensures completes { (Rose (H.disk_faults host) (H.disk_faults result.host) → ⊥)
        → (Rose (H.say_faults host) (H.say_faults result.host) → ⊥)
        → Completes (H.file host) result.status.0 }
    ensures grew { (before after : File) → H.file host ≡ Some before → H.file result.host ≡ Some after → GrewByCalls (result.status.0 ≡ 3) before after.bytes }
    ensures makes_well { result.status.0 ≡ 0 → ForSome (H.file result.host) (λ file. AreWell file × StandsForNothing file.bytes) }
{
    made_files_are_well();
    let mut host = host;
    let created = create(&mut host, path, shape);
    Ended {
        status: Status::of_created(created),
        host,
    }
}

// Says the usage line.
fn say_usage<H: Host>(host: H) -> Ended<H>
    ensures says { SaysUsage (H.tape host) (H.tape result.host) result.status.0 }
    ensures statuses { (result.status.0 ≡ 2) ⊎ (result.status.0 ≡ 5) }
    ensures disk { IsUntouched H.file H.attaches H.disk_faults host result.host }
    ensures says_count { CountsFault (result.status.0 ≡ 5) (H.say_faults host) (H.say_faults result.host) }
    ensures told { StaysTold (H.tape host) (H.tape result.host) }
    ensures time { OverTime H.clock H.moment (IsWithinCall (H.file host) (H.tape host) usage) host result.host }
{
    let mut host = host;
    let status = match host.say(USAGE) {
        Ok(()) => Status::USAGE,
        Err(Failed) => Status::UNSAID,
    };
    Ended { status, host }
}
