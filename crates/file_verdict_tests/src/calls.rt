// Which calls a check makes: of a file at rest, and of one whose journal counts.
use crate::files::{file_of, host_of, judged, no_table, run_script, two_tables};
use file_check::Verdict;
use mdc_outside::{Call, MemHost};
use page_file::GATE;
use std::alloc::Global;
use std::process::Abort;
use std::test::Fail;

// A commit of several pages.
const COMMIT: &[u8] = b"CREATE TABLE T (A INTEGER) ORGANIZE BY (A);";

// Where page 0 begins, behind 66 file pages.
const HOME: u64 = 66 * 4096;

// How many writes a host recorded behind its first calls.
fn writes_behind(host: &MemHost, begun: u64) -> usize {
    let mut writes: usize = 0;
    for n in begun..host.calls() {
        if let Call::Write(_) = host.call(n + 1) {
            writes = writes.wrapping_add(1);
        }
    }
    writes
}

// A call writes a home page within the file, or the journal's gate.
fn is_bringing_home(call: Call, end: u64) -> bool {
    match call {
        Call::Write(at) => at == GATE || (HOME <= at && at < end),
        _ => true,
    }
}

// All calls that a host recorded behind its first ones are so.
fn brings_home(host: &MemHost, begun: u64, end: u64) -> bool {
    for n in begun..host.calls() {
        if !is_bringing_home(host.call(n + 1), end) {
            return false;
        }
    }
    true
}

#[test]
fn a_check_of_a_file_at_rest_writes_nothing(rt: HostRuntime) -> Result<(), Fail> {
    let alloc = rt.alloc();
    let file = two_tables(alloc)?;
    let (said, host) = judged(alloc, host_of(alloc, &file, &[])?)?;
    assert_eq!(rt; said, Ok(Verdict::Sound));
    assert_eq!(rt; writes_behind(&host, 0), 0);
    Ok(())
}

// The host that a crash within a recorded call leaves.
fn crashed(alloc: Global, host: &MemHost, call: u64) -> Result<MemHost, Fail> {
    if call < 1 || call > host.calls() {
        return Err(Fail::new("no such call"));
    }
    Ok(host.after(alloc, call, None)?)
}

// The gate of the journal is open in a file.
fn is_open(file: &[u8]) -> bool {
    file.get(GATE as usize) == Some(&b'O')
}

// What a crash left is sound. A journal that counts is brought home, in writes of its pages and the gate alone. Tells whether one did.
fn judge_crashed(rt: &(impl Abort + AllocGlobal), mut left: MemHost) -> Result<bool, Fail> {
    let alloc = rt.alloc();
    let before = file_of(alloc, &mut left)?;
    let begun = left.calls();
    let (said, mut host) = judged(alloc, left)?;
    assert_eq!(rt; said, Ok(Verdict::Sound));
    assert!(rt; brings_home(&host, begun, before.len() as u64));
    let after = file_of(alloc, &mut host)?;
    assert_eq!(rt; after.len(), before.len());
    assert!(rt; !is_open(&after));
    Ok(is_open(&before))
}

// Each crash within a commit leaves a sound file, and one at least a journal that counts.
fn crash_in_each_call(rt: &(impl Abort + AllocGlobal), host: &MemHost) -> Result<(), Fail> {
    let mut counted = false;
    for n in 0..host.calls() {
        let left = crashed(rt.alloc(), host, n + 1)?;
        if judge_crashed(rt, left)? {
            counted = true;
        }
    }
    assert!(rt; counted);
    Ok(())
}

#[test]
fn what_a_crash_leaves_is_sound_and_a_journal_is_brought_home(rt: HostRuntime) -> Result<(), Fail> {
    let alloc = rt.alloc();
    let host = run_script(alloc, COMMIT, host_of(alloc, &no_table(alloc)?, &[])?)?;
    crash_in_each_call(&rt, &host)
}
