// The command `check`: whether the database in a file is whole.
ghost use Rattle.std.specs.Prelude.{◌≡◌, ◌≤◌, [], ℕ, List, Some, IfOk, MatchOption, OnErr, IsTrue, false};
ghost use Rattle.std.specs.Option.{ForSome};
ghost use Rattle.mdc_words.specs.Faults.{CountsFault};
ghost use Rattle.mdc_words.specs.Time.{OverTime};
ghost use Rattle.mdc_outside.specs.Disk.{File};
ghost use Rattle.mdc_outside.specs.Moments.{IsWithinCall};
ghost use Rattle.page_store.specs.Growing.{GrewByCalls};
ghost use Rattle.page_store.specs.Opened.{file_bytes};
ghost use Rattle.page_store.specs.Opening.{IsServed};
ghost use Rattle.page_store.specs.Standing.{IsFormed};
ghost use Rattle.session.specs.script.Told.{StaysTold};
ghost use Rattle.session.specs.file.Well.{AreWell, IsWell};
ghost use Rattle.file_verdict.specs.SoundFile.{AreSoundFiles, IsSoundFile};
ghost use Rattle.mdc_shell.specs.Check.{ChecksFormed, ChecksPath, ChecksUnserved, IsCheckStatus, IsStatusOnSound, IsUnsettled, SaysVerdict, StaysStanding, StaysUnserved, WritesChecked, line_of_verdict, status_of_verdict, stop_of};
ghost use Rattle.mdc_shell.specs.Create.{MayAttach};
ghost use Rattle.mdc_shell.specs.Untouched.{IsUntouched};

use crate::ending::{damage_line, line_of_stop, say_line};
use crate::program::Ended;
use crate::status::Status;
use file_check::Verdict;
use file_verdict::{Unjudged, judge_file};
use mdc_outside::{Failed, Host};
use mdc_values::Memory;
use session::Stop;
use std::alloc::Global;

/// Judges the database in the file at the path, as it is at entry, and says the verdict: `SOUND`, or `BROKEN` with the first rule that is
/// broken and the lowest page that breaks it. A file that isn't a database of this version is named. A crash leaves a file that stands
/// for the same pages.
pub fn check_path<H: Host>(alloc: Global, path: &str, host: H) -> Ended<H>
    ensures checks { ChecksPath (H.file host) (H.tape host) (H.tape result.host) result.status.0 }
    ensures statuses { IsCheckStatus result.status.0 }
    ensures sound { (before : File) → H.file host ≡ Some before → IsSoundFile before.bytes → IsStatusOnSound result.status.0 }
    ensures formed { (before : File) (said : List ℕ) → H.file host ≡ Some before → H.tape host ≡ Some said → IsFormed before.bytes
        → ChecksFormed H.Disk before said (H.tape result.host) host result.host result.status.0 }
    ensures unserved { (before : File) (said : List ℕ) → H.file host ≡ Some before → H.tape host ≡ Some said → (IsServed before.bytes → ⊥)
        → ChecksUnserved H.Disk before said (H.tape result.host) host result.host result.status.0 }
    ensures keeps_unserved { (before : File) → H.file host ≡ Some before → (IsServed before.bytes → ⊥) → StaysUnserved before (H.file result.host) result.status.0 }
    ensures grew { (before after : File) → H.file host ≡ Some before → H.file result.host ≡ Some after → GrewByCalls (result.status.0 ≡ 3) before after.bytes }
    ensures writes { ForSome (H.file host) (λ file. WritesChecked result.status.0 file.bytes (file_bytes (H.file result.host))) }
    ensures stands { (before : File) (said : List ℕ) → H.file host ≡ Some before → H.tape host ≡ Some said → IsFormed before.bytes → (IsUnsettled result.status.0 → ⊥)
        → StaysStanding before (H.file result.host) }
    // A file that was found sound is so whatever a crash leaves of it then, and so is one that is well.
    ensures found_sound { (before : File) (said : List ℕ) → H.file host ≡ Some before → H.tape host ≡ Some said → result.status.0 ≡ 0
        → (after : File) × (H.file result.host ≡ Some after) × AreSoundFiles after }
    ensures found_well { (before : File) (said : List ℕ) → H.file host ≡ Some before → H.tape host ≡ Some said → result.status.0 ≡ 0 → IsWell before.bytes
        → (after : File) × (H.file result.host ≡ Some after) × AreWell after }
    ensures stays_sound { (before : File) (said : List ℕ) → H.file host ≡ Some before → H.tape host ≡ Some said → AreSoundFiles before
        → (after : File) × (H.file result.host ≡ Some after) × AreSoundFiles after }
    ensures stays_well { (before : File) (said : List ℕ) → H.file host ≡ Some before → H.tape host ≡ Some said → AreWell before
        → (after : File) × (H.file result.host ≡ Some after) × AreWell after }
    ensures attaches { MayAttach (H.attaches host) path.now false (H.attaches result.host) }
    ensures disk { CountsFault (result.status.0 ≡ 3) (H.disk_faults host) (H.disk_faults result.host) }
    ensures says { CountsFault (result.status.0 ≡ 5) (H.say_faults host) (H.say_faults result.host) }
    ensures later { H.clock host ≤ H.clock result.host }
    ensures told { StaysTold (H.file host) (H.file result.host) × StaysTold (H.tape host) (H.tape result.host) }
{
    let mut host = host;
    match host.attach(path, false) {
        Ok(()) => check_attached(alloc, host),
        Err(Failed) => Ended {
            status: Status::DISK_FAILED,
            host,
        },
    }
}

// Judges the database in the attached file, and says the verdict.
fn check_attached<H: Host>(alloc: Global, host: H) -> Ended<H>
    requires attached { IsTrue (H.is_attached host) }
    ensures checks { ChecksPath (H.file host) (H.tape host) (H.tape result.host) result.status.0 }
    ensures statuses { IsCheckStatus result.status.0 }
    ensures sound { (before : File) → H.file host ≡ Some before → IsSoundFile before.bytes → IsStatusOnSound result.status.0 }
    ensures formed { (before : File) (said : List ℕ) → H.file host ≡ Some before → H.tape host ≡ Some said → IsFormed before.bytes
        → ChecksFormed H.Disk before said (H.tape result.host) host result.host result.status.0 }
    ensures unserved { (before : File) (said : List ℕ) → H.file host ≡ Some before → H.tape host ≡ Some said → (IsServed before.bytes → ⊥)
        → ChecksUnserved H.Disk before said (H.tape result.host) host result.host result.status.0 }
    ensures keeps_unserved { (before : File) → H.file host ≡ Some before → (IsServed before.bytes → ⊥) → StaysUnserved before (H.file result.host) result.status.0 }
    ensures grew { (before after : File) → H.file host ≡ Some before → H.file result.host ≡ Some after → GrewByCalls (result.status.0 ≡ 3) before after.bytes }
    ensures writes { ForSome (H.file host) (λ file. WritesChecked result.status.0 file.bytes (file_bytes (H.file result.host))) }
    ensures stands { (before : File) (said : List ℕ) → H.file host ≡ Some before → H.tape host ≡ Some said → IsFormed before.bytes → (IsUnsettled result.status.0 → ⊥)
        → StaysStanding before (H.file result.host) }
    ensures found_sound { (before : File) (said : List ℕ) → H.file host ≡ Some before → H.tape host ≡ Some said → result.status.0 ≡ 0
        → (after : File) × (H.file result.host ≡ Some after) × AreSoundFiles after }
    ensures found_well { (before : File) (said : List ℕ) → H.file host ≡ Some before → H.tape host ≡ Some said → result.status.0 ≡ 0 → IsWell before.bytes
        → (after : File) × (H.file result.host ≡ Some after) × AreWell after }
    ensures stays_sound { (before : File) (said : List ℕ) → H.file host ≡ Some before → H.tape host ≡ Some said → AreSoundFiles before
        → (after : File) × (H.file result.host ≡ Some after) × AreSoundFiles after }
    ensures stays_well { (before : File) (said : List ℕ) → H.file host ≡ Some before → H.tape host ≡ Some said → AreWell before
        → (after : File) × (H.file result.host ≡ Some after) × AreWell after }
    ensures attaches { H.attaches result.host ≡ H.attaches host }
    ensures disk { CountsFault (result.status.0 ≡ 3) (H.disk_faults host) (H.disk_faults result.host) }
    ensures says { CountsFault (result.status.0 ≡ 5) (H.say_faults host) (H.say_faults result.host) }
    ensures later { H.clock host ≤ H.clock result.host }
    ensures told { StaysTold (H.file host) (H.file result.host) × StaysTold (H.tape host) (H.tape result.host) }
{
    let judged = judge_file(alloc, host);
    say_verdict(alloc, judged.verdict, judged.host)
}

// Says the line of a verdict in one call. Where there is none, no call is made.
fn say_verdict<H: Host>(alloc: Global, verdict: Result<Verdict, Unjudged>, host: H) -> Ended<H>
    ensures says { SaysVerdict (H.tape host) (H.tape result.host) result.status.0 verdict }
    ensures quiet { line_of_verdict verdict ≡ [] → (result.host ≡ host) × (result.status.0 ≡ status_of_verdict verdict) }
    ensures unsaid { (line_of_verdict verdict ≡ [] → ⊥) → CountsFault (result.status.0 ≡ 5) (H.say_faults host) (H.say_faults result.host) }
    ensures disk { IsUntouched H.file H.attaches H.disk_faults host result.host }
    ensures later { H.clock host ≤ H.clock result.host }
    ensures told { StaysTold (H.tape host) (H.tape result.host) }
    ensures time { OverTime H.clock H.moment (IsWithinCall (H.file host) (H.tape host) (line_of_verdict verdict)) host result.host }
{
    let status = Status::of_verdict(&verdict);
    match line_of_verdict(alloc, &verdict) {
        Ok(Some(line)) => say_line(host, line.as_slice(), status),
        Ok(None) => Ended { status, host },
        Err(Memory) => Ended {
            status: Status::MEMORY,
            host,
        },
    }
}

// The line of a verdict, if it has one.
fn line_of_verdict(
    alloc: Global,
    verdict: &Result<Verdict, Unjudged>,
) -> Result<Option<Vec<u8>>, Memory>
    ensures line { IfOk result (λ line. MatchOption line (line_of_verdict verdict.now ≡ []) (λ line. line.items ≡ line_of_verdict verdict.now)) }
    ensures some { IfOk result (λ line. MatchOption line (Unit {0}) (λ _. line_of_verdict verdict.now ≡ [] → ⊥)) }
    ensures memory { OnErr result (line_of_verdict verdict.now ≡ [] → ⊥) }
{
    match verdict {
        Ok(Verdict::Sound) => Ok(Some(Vec::from_slice(alloc, b"SOUND\n")?)),
        Ok(Verdict::Broken(damage)) => Ok(Some(damage_line(alloc, b"BROKEN", damage)?)),
        Err(why) => line_of_stop(alloc, &stop_of(*why)),
    }
}

/// Why there is no verdict, as the stop of a run for the same cause.
pub(crate) fn stop_of(why: Unjudged) -> Stop
    ensures { result ≡ stop_of why }
{
    match why {
        Unjudged::Unmade => Stop::Unmade,
        Unjudged::NotMdc => Stop::NotMdc,
        Unjudged::Version(version) => Stop::Version(version),
        Unjudged::Device => Stop::Device,
        Unjudged::Memory => Stop::Memory,
    }
}
