// How a run ends: its status, and the line of a stop that has one.
ghost use Rattle.std.specs.Prelude.{◌≡◌, ◌⊎◌, ◌≤◌, ◌++◌, [], codes, decimal, IfOk, MatchOption, OnErr};
ghost use Rattle.mdc_words.specs.Faults.{CountsFault};
ghost use Rattle.mdc_words.specs.Time.{OverTime};
ghost use Rattle.mdc_outside.specs.Moments.{IsWithinCall};
ghost use Rattle.session.specs.script.Told.{StaysTold};
ghost use Rattle.mdc_outside.specs.Outside.{Takes, TakesPart};
ghost use Rattle.mdc_shell.specs.Status.{SaysEnd, damage_line, line_of_end, line_of_stop, status_of};
ghost use Rattle.mdc_shell.specs.Untouched.{IsUntouched};

use crate::program::Ended;
use crate::status::Status;
use itoa::Buffer;
use mdc_outside::{Failed, Host};
use mdc_values::Memory;
use session::{Served, Stop};
use std::alloc::Global;
use store_api::Damage;

/// Ends a run. A stop that names the file is said in one call, and no other end makes a call.
pub fn end_run<H: Host>(alloc: Global, end: Result<Served, Stop>, host: H) -> Ended<H>
    ensures ends { SaysEnd (H.tape host) (H.tape result.host) result.status.0 end }
    ensures quiet { line_of_end end ≡ [] → (result.host ≡ host) × (result.status.0 ≡ status_of end) }
    ensures says { (line_of_end end ≡ [] → ⊥) → CountsFault (result.status.0 ≡ 5) (H.say_faults host) (H.say_faults result.host) }
    ensures disk { IsUntouched H.file H.attaches H.disk_faults host result.host }
    ensures later { H.clock host ≤ H.clock result.host }
    ensures told { StaysTold (H.tape host) (H.tape result.host) }
    ensures time { OverTime H.clock H.moment (IsWithinCall (H.file host) (H.tape host) (line_of_end end)) host result.host }
{
    let status = Status::of(&end);
    match line_of(alloc, &end) {
        Ok(Some(line)) => say_line(host, line.as_slice(), status),
        Ok(None) => Ended { status, host },
        Err(Memory) => Ended {
            status: Status::MEMORY,
            host,
        },
    }
}

/// Says the line of an end, whose status this is.
pub(crate) fn say_line<H: Host>(host: H, line: &[u8], status: Status) -> Ended<H>
    ensures said { ((result.status ≡ status) × Takes (H.tape host) line.now (H.tape result.host)) ⊎ ((result.status.0 ≡ 5) × TakesPart (H.tape host) line.now (H.tape result.host)) }
    ensures says { (status.0 ≡ 5 → ⊥) → CountsFault (result.status.0 ≡ 5) (H.say_faults host) (H.say_faults result.host) }
    ensures disk { IsUntouched H.file H.attaches H.disk_faults host result.host }
    ensures later { H.clock host ≤ H.clock result.host }
    ensures told { StaysTold (H.tape host) (H.tape result.host) }
    ensures time { OverTime H.clock H.moment (IsWithinCall (H.file host) (H.tape host) line.now) host result.host }
{
    let mut host = host;
    let status = match host.say(line) {
        Ok(()) => status,
        Err(Failed) => Status::UNSAID,
    };
    Ended { status, host }
}

// The line of an end, if it has one.
fn line_of(alloc: Global, end: &Result<Served, Stop>) -> Result<Option<Vec<u8>>, Memory>
    ensures line { IfOk result (λ line. MatchOption line (line_of_end end.now ≡ []) (λ line. line.items ≡ line_of_end end.now)) }
    ensures some { IfOk result (λ line. MatchOption line (Unit {0}) (λ _. line_of_end end.now ≡ [] → ⊥)) }
    ensures memory { OnErr result (line_of_end end.now ≡ [] → ⊥) }
{
    match end {
        Ok(_) => Ok(None),
        Err(stop) => line_of_stop(alloc, stop),
    }
}

/// The line of a stop, if it has one.
pub(crate) fn line_of_stop(alloc: Global, stop: &Stop) -> Result<Option<Vec<u8>>, Memory>
    ensures line { IfOk result (λ line. MatchOption line (line_of_stop stop.now ≡ []) (λ line. line.items ≡ line_of_stop stop.now)) }
    ensures some { IfOk result (λ line. MatchOption line (Unit {0}) (λ _. line_of_stop stop.now ≡ [] → ⊥)) }
    ensures memory { OnErr result (line_of_stop stop.now ≡ [] → ⊥) }
{
    match stop {
        Stop::Unmade => Ok(Some(Vec::from_slice(alloc, b"NOT MADE\n")?)),
        Stop::NotMdc => Ok(Some(Vec::from_slice(alloc, b"NOT MDC\n")?)),
        Stop::Version(version) => Ok(Some(version_line(alloc, *version)?)),
        Stop::Damaged(damage) => Ok(Some(damage_line(alloc, b"DAMAGED", damage)?)),
        Stop::Unread | Stop::TooLong | Stop::Unsaid | Stop::Device | Stop::Memory => Ok(None),
    }
}

// The line of a file of another version.
fn version_line(alloc: Global, version: u32) -> Result<Vec<u8>, Memory>
    ensures { IfOk result (λ line. line.items ≡ codes "VERSION " ++ decimal version ++ codes "\n") }
{
    let mut line = Vec::from_slice(alloc, b"VERSION ")?;
    line.extend_from_slice(Buffer::new().format(version).as_bytes())?;
    line.extend_from_slice(b"\n")?;
    Ok(line)
}

/// The line of a page that breaks a rule, behind this word.
pub(crate) fn damage_line(alloc: Global, word: &[u8], damage: &Damage) -> Result<Vec<u8>, Memory>
    ensures { IfOk result (λ line. line.items ≡ damage_line word.now damage.now) }
{
    let mut line = Vec::from_slice(alloc, word)?;
    line.extend_from_slice(b" page ")?;
    line.extend_from_slice(Buffer::new().format(damage.page).as_bytes())?;
    line.extend_from_slice(b" rule ")?;
    line.extend_from_slice(Buffer::new().format(damage.rule).as_bytes())?;
    line.extend_from_slice(b"\n")?;
    Ok(line)
}
