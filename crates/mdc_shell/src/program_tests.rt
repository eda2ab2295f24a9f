// What no clause of `run` says: how often it speaks, and that memory is there. And its lines and its stops, by hand.
ghost use Rattle.std.specs.Prelude.{◌≡◌, ◌≤◌, ℕ, List, Some, map, string_bytes};
ghost use Rattle.mdc_outside.specs.Disk.{File};
ghost use Rattle.session.specs.file.Well.{AreWell};
ghost use Rattle.mdc_shell.specs.Words.{RunFile, SpellsLine};

use crate::program::{Ended, run};
use mdc_outside::{Call, Host, MemHost, MemSource, Source};
use page_store::{FileStore, OpenFault, Untold};
use std::alloc::Global;
use std::marker::Brand;
use std::mem::replace;
use std::process::Abort;
use std::test::Fail;

const TABLE: &str = "CREATE TABLE T (A INTEGER, B INTEGER) ORGANIZE BY DIMENSIONS (A);";

const TABLE_AND_ROW: &str =
    "CREATE TABLE T (A INTEGER, B INTEGER) ORGANIZE BY DIMENSIONS (A);INSERT INTO T VALUES (1, 2);";

const QUERY: &str = "SELECT * FROM T;";

const TABLE_AND_QUERIES: &str =
    "CREATE TABLE T (A INTEGER, B INTEGER) ORGANIZE BY DIMENSIONS (A);SELECT * FROM T;SELECT * FROM T;";

const FOUR_STATEMENTS: &str =
    "CREATE TABLE T (A INTEGER, B INTEGER) ORGANIZE BY DIMENSIONS (A);SELECT * FROM T; SELECT; ;SELECT * FROM T";

const CREATE: &str = "create f 16 2";

/// Words behind the program's name, cut at each blank: an empty line is one empty word.
fn words_of(alloc: Global, line: &str) -> Result<Vec<String>, Fail> {
    let mut words = Vec::new(alloc);
    for word in line.split(' ') {
        words.push(String::from_str(alloc, word)?)?;
    }
    Ok(words)
}

/// The status that a command line ends with, and the host.
fn run_owned<I: Source, H: Host>(
    alloc: Global,
    words: &Vec<String>,
    input: &mut I,
    host: H,
) -> (u8, H) {
    let ended = run(alloc, words, input, host, &mut Untold);
    (ended.status.0, ended.host)
}

/// Two command lines on one host, one after the other. Its contract shows that the promise of a run on a file goes on to the next.
fn run_both<I: Source, H: Host>(
    alloc: Global,
    first: &Vec<String>,
    second: &Vec<String>,
    input: &mut I,
    host: H,
) -> Ended<H>
    ensures later { H.clock host ≤ H.clock result.host }
    ensures well { (path other : List ℕ) → SpellsLine (map string_bytes first.now.items) (RunFile path) → SpellsLine (map string_bytes second.now.items) (RunFile other)
        → (before : File) (said : List ℕ) → H.file host ≡ Some before → H.tape host ≡ Some said → AreWell before
        → (after : File) × (H.file result.host ≡ Some after) × AreWell after }
{
    let between = run(alloc, first, input, host, &mut Untold);
    run(alloc, second, input, between.host, &mut Untold)
}

/// The status that a command line ends with where it is run a second time, and the host.
fn run_owned_twice<I: Source, H: Host>(
    alloc: Global,
    words: &Vec<String>,
    input: &mut I,
    host: H,
) -> (u8, H) {
    let ended = run_both(alloc, words, words, input, host);
    (ended.status.0, ended.host)
}

/// Takes a host from where it is lent, and leaves a new one there.
fn take_host(alloc: Global, host: &mut MemHost) -> MemHost {
    replace(host, MemHost::new(alloc, None, Vec::new(alloc)))
}

/// The status that a command line ends with on a host that is lent.
fn run_lent(alloc: Global, words: &Vec<String>, input: &mut MemSource, host: &mut MemHost) -> u8 {
    let taken = take_host(alloc, host);
    let (status, left) = run_owned(alloc, words, input, taken);
    *host = left;
    status
}

/// The same where it is run a second time.
fn run_lent_twice(
    alloc: Global,
    words: &Vec<String>,
    input: &mut MemSource,
    host: &mut MemHost,
) -> u8 {
    let taken = take_host(alloc, host);
    let (status, left) = run_owned_twice(alloc, words, input, taken);
    *host = left;
    status
}

/// A host with no file, where these calls fail.
fn host_of(alloc: Global, fails: &[u64]) -> Result<MemHost, Fail> {
    Ok(MemHost::new(alloc, None, fails.to_vec(alloc)?))
}

/// A script that comes in pieces of at most `step` bytes, where these reads fail.
fn source_of(
    alloc: Global,
    script: &str,
    step: usize,
    read_fails: &[u64],
) -> Result<MemSource, Fail> {
    let bytes = script.as_bytes().to_vec(alloc)?;
    Ok(MemSource::new(bytes, step.max(1), read_fails.to_vec(alloc)?))
}

/// The status that the words of a line end with.
fn run_words(
    alloc: Global,
    line: &str,
    input: &mut MemSource,
    host: &mut MemHost,
) -> Result<u8, Fail> {
    let words = words_of(alloc, line)?;
    Ok(run_lent(alloc, &words, input, host))
}

/// The same on a script that comes in pieces of at most `step` bytes, where these reads fail.
fn run_pieces(
    alloc: Global,
    line: &str,
    script: &str,
    step: usize,
    read_fails: &[u64],
    host: &mut MemHost,
) -> Result<u8, Fail> {
    let mut source = source_of(alloc, script, step, read_fails)?;
    run_words(alloc, line, &mut source, host)
}

/// The same on a script that comes whole.
fn run_script(alloc: Global, line: &str, script: &str, host: &mut MemHost) -> Result<u8, Fail> {
    run_pieces(alloc, line, script, 4096, &[], host)
}

/// The same on a statement that comes byte by byte.
fn run_line(alloc: Global, line: &str, host: &mut MemHost) -> Result<u8, Fail> {
    run_pieces(alloc, line, "SELECT;", 1, &[], host)
}

/// A line ended with this status, and its host has taken this in all.
fn expect_end(rt: &impl Abort, line: &str, ended: u8, host: &MemHost, status: u8, said: &str) {
    assert_eq!(*rt; (ended, host.said()), (status, said.as_bytes()), "{line}");
}

/// Runs a line, which ends with this status; then the host has taken this in all.
fn expect_line(
    rt: &impl Abort,
    alloc: Global,
    line: &str,
    host: &mut MemHost,
    status: u8,
    said: &str,
) -> Result<(), Fail> {
    let ended = run_line(alloc, line, host)?;
    expect_end(rt, line, ended, host, status, said);
    Ok(())
}

/// Runs a line on a script, which ends with this status; then the host has taken this in all.
fn expect_script(
    rt: &impl Abort,
    alloc: Global,
    line: &str,
    script: &str,
    host: &mut MemHost,
    status: u8,
    said: &str,
) -> Result<(), Fail> {
    let ended = run_script(alloc, line, script, host)?;
    expect_end(rt, line, ended, host, status, said);
    Ok(())
}

/// How many calls of this kind a host has recorded.
fn count_calls(host: &MemHost, kind: Call) -> u64 {
    let mut count: u64 = 0;
    for before in 0..host.calls() {
        if host.call(before + 1) == kind {
            count = count.wrapping_add(1);
        }
    }
    count
}

/// The number of the recorded call of this kind that has so many of its kind before it.
fn call_behind(host: &MemHost, kind: Call, earlier: u64) -> Result<u64, Fail> {
    let mut left = earlier;
    for before in 0..host.calls() {
        if host.call(before + 1) == kind {
            if left == 0 {
                return Ok(before + 1);
            }
            left = left.wrapping_sub(1);
        }
    }
    Err("no such call")?
}

/// The status of a script with four replies, and how often it speaks.
fn count_replies(alloc: Global, step: usize, host: &mut MemHost) -> Result<(u8, u64), Fail> {
    let status = run_pieces(alloc, "run -", FOUR_STATEMENTS, step, &[], host)?;
    Ok((status, count_calls(host, Call::Say)))
}

/// The same on a new host.
fn replies_of(alloc: Global, step: usize) -> Result<(u8, u64), Fail> {
    let mut host = host_of(alloc, &[])?;
    count_replies(alloc, step, &mut host)
}

// No clause says that replies aren't put together into one call.
#[test]
fn each_reply_is_said_in_a_call_of_its_own(rt: HostRuntime) -> Result<(), Fail> {
    for step in [1, 7, 4096] {
        assert_eq!(rt; replies_of(rt.alloc(), step)?, (1, 4), "{step}");
    }
    Ok(())
}

/// The first statements close in the first piece, and the second read fails.
fn fail_read(rt: &impl Abort, alloc: Global, host: &mut MemHost) -> Result<(), Fail> {
    let step = TABLE.len() + 20;
    let status = run_pieces(alloc, "run -", TABLE_AND_QUERIES, step, &[2], host)?;
    expect_end(rt, "run -", status, host, 4, "OK\nA|B\n0 ROWS\n");
    Ok(())
}

#[test]
fn a_failed_read_stops_a_script(rt: HostRuntime) -> Result<(), Fail> {
    let mut host = host_of(rt.alloc(), &[])?;
    fail_read(&rt, rt.alloc(), &mut host)
}

/// The number of the call of this kind, with so many of its kind before it, that a script on this host makes.
fn find_call(alloc: Global, kind: Call, earlier: u64, host: &mut MemHost) -> Result<u64, Fail> {
    run_script(alloc, "run -", TABLE_AND_QUERIES, host)?;
    call_behind(host, kind, earlier)
}

/// The same on a new host.
fn call_of_script(alloc: Global, kind: Call, earlier: u64) -> Result<u64, Fail> {
    let mut host = host_of(alloc, &[])?;
    find_call(alloc, kind, earlier, &mut host)
}

/// How a script ends, and what is said, where a call of this kind fails that has so many of its kind before it.
fn expect_failing(
    rt: &impl Abort,
    alloc: Global,
    kind: Call,
    earlier: u64,
    status: u8,
    said: &str,
) -> Result<(), Fail> {
    let number = call_of_script(alloc, kind, earlier)?;
    let mut host = host_of(alloc, &[number])?;
    expect_script(
        rt,
        alloc,
        "run -",
        TABLE_AND_QUERIES,
        &mut host,
        status,
        said,
    )
}

#[test]
fn what_fails_stops_a_script(rt: HostRuntime) -> Result<(), Fail> {
    expect_failing(&rt, rt.alloc(), Call::Say, 0, 5, "")?;
    expect_failing(&rt, rt.alloc(), Call::Say, 1, 5, "OK\n")?;
    // The first sync is one of the making.
    expect_failing(&rt, rt.alloc(), Call::Sync, 0, 3, "")
}

const USAGE: &str = "usage: mdc create FILE EXTENTS PAGES | run FILE | check FILE | work N\n";

/// Lines that are no command line.
const OTHER_LINES: [&str; 39] = [
    "",
    "run",
    "run - -",
    "run f g",
    "run -f",
    "run ",
    "Run -",
    "check",
    "check -",
    "check f g",
    "check -f",
    "check ",
    "create",
    "create f 16",
    "create f 16 2 x",
    "create - 16 2",
    "create -f 16 2",
    "create  16 2",
    "create f 16 3",
    "create f 16 1",
    "create f 16 64",
    "create f 3 2",
    "create f 65537 2",
    "create f 65537 4",
    "create f 65536 8",
    "create f 8193 32",
    "create f 016 2",
    "create f 16 02",
    "create f +16 2",
    "create f 0 2",
    "create f 16x 2",
    "create f 1000000000 2",
    "create f 4294967312 2",
    "Create f 16 2",
    "--help",
    "-h",
    "--version",
    "help",
    "--",
];

/// Runs a line that is no command line, with a call that says the usage and no other.
fn say_usage(rt: &impl Abort, alloc: Global, line: &str, host: &mut MemHost) -> Result<(), Fail> {
    expect_line(rt, alloc, line, host, 2, USAGE)?;
    assert_eq!(*rt; host.calls(), 1, "{line}");
    Ok(())
}

/// The same on a new host.
fn expect_usage(rt: &impl Abort, alloc: Global, line: &str) -> Result<(), Fail> {
    let mut host = host_of(alloc, &[])?;
    say_usage(rt, alloc, line, &mut host)
}

#[test]
fn other_words_are_no_command_line(rt: HostRuntime) -> Result<(), Fail> {
    for line in OTHER_LINES {
        expect_usage(&rt, rt.alloc(), line)?;
    }
    Ok(())
}

/// Lines that make a database.
const CREATE_LINES: [&str; 6] = [
    "create f 16 2",
    "create f 4 2",
    "create f 65536 4",
    "create f 8192 32",
    "create create 131 16",
    "create f-/g 512 8",
];

/// Runs a line that makes a database on a new host.
fn expect_made(rt: &impl Abort, alloc: Global, line: &str) -> Result<(), Fail> {
    let mut host = host_of(alloc, &[])?;
    expect_line(rt, alloc, line, &mut host, 0, "OK\n")
}

#[test]
fn databases_within_the_limits_are_made(rt: HostRuntime) -> Result<(), Fail> {
    for line in CREATE_LINES {
        expect_made(&rt, rt.alloc(), line)?;
    }
    Ok(())
}

/// Makes a file, and makes it again.
fn make_twice(rt: &impl Abort, alloc: Global, host: &mut MemHost) -> Result<(), Fail> {
    let status = run_twice(alloc, CREATE, host)?;
    expect_end(rt, CREATE, status, host, 6, "OK\nFILE EXISTS\n");
    Ok(())
}

/// The status that the words of a line end with where they are run a second time, on no script.
fn run_twice(alloc: Global, line: &str, host: &mut MemHost) -> Result<u8, Fail> {
    let words = words_of(alloc, line)?;
    let mut source = MemSource::new(Vec::new(alloc), 1, Vec::new(alloc));
    Ok(run_lent_twice(alloc, &words, &mut source, host))
}

#[test]
fn a_file_is_made_once(rt: HostRuntime) -> Result<(), Fail> {
    let mut host = host_of(rt.alloc(), &[])?;
    make_twice(&rt, rt.alloc(), &mut host)
}

/// Why the file of a host isn't opened, if it isn't.
fn refusal_of<H: Host + Drop>(alloc: Global, mut host: H) -> Result<Option<OpenFault>, Fail> {
    host.attach("f", true)?;
    match FileStore::<H, Brand, Untold>::open(alloc, host, Untold, 8) {
        Ok(_) => Ok(None),
        Err(unopened) => Ok(Some(unopened.fault)),
    }
}

/// How many calls a create makes.
fn calls_of_create(alloc: Global) -> Result<u64, Fail> {
    let mut host = host_of(alloc, &[])?;
    run_line(alloc, CREATE, &mut host)?;
    Ok(host.calls())
}

/// Runs a create, which ends with this status and says nothing; then the file is opened, or refused for this.
fn stop_create(
    rt: &impl Abort,
    alloc: Global,
    host: &mut MemHost,
    status: u8,
    refusal: Option<OpenFault>,
) -> Result<(), Fail> {
    expect_line(rt, alloc, CREATE, host, status, "")?;
    assert_eq!(*rt; refusal_of(alloc, take_host(alloc, host))?, refusal);
    Ok(())
}

/// The same on a new host, where the call of this number fails.
fn expect_stop(
    rt: &impl Abort,
    alloc: Global,
    call: u64,
    status: u8,
    refusal: Option<OpenFault>,
) -> Result<(), Fail> {
    let mut host = host_of(alloc, &[call])?;
    stop_create(rt, alloc, &mut host, status, refusal)
}

#[test]
fn what_fails_stops_a_create(rt: HostRuntime) -> Result<(), Fail> {
    let calls = calls_of_create(rt.alloc())?;
    assert!(rt; calls > 2);
    // The last call says the line. The last of the disk is the sync behind the write that has the file made.
    expect_stop(&rt, rt.alloc(), calls, 5, None)?;
    expect_stop(&rt, rt.alloc(), calls - 1, 3, None)?;
    for call in 1..calls - 1 {
        expect_stop(&rt, rt.alloc(), call, 3, Some(OpenFault::Unmade))?;
    }
    Ok(())
}

/// Makes a file, runs a script on it, and a query.
fn run_and_query(rt: &impl Abort, alloc: Global, host: &mut MemHost) -> Result<(), Fail> {
    expect_line(rt, alloc, CREATE, host, 0, "OK\n")?;
    expect_script(
        rt,
        alloc,
        "run f",
        TABLE_AND_ROW,
        host,
        0,
        "OK\nOK\n1 ROWS INSERTED\n",
    )?;
    expect_script(
        rt,
        alloc,
        "run f",
        QUERY,
        host,
        0,
        "OK\nOK\n1 ROWS INSERTED\nA|B\n1|2\n1 ROWS\n",
    )
}

#[test]
fn a_second_run_sees_the_rows_of_the_first(rt: HostRuntime) -> Result<(), Fail> {
    let mut host = host_of(rt.alloc(), &[])?;
    run_and_query(&rt, rt.alloc(), &mut host)
}

/// The number of the call that says the first reply of a script on a file that is made before.
fn find_first_reply(alloc: Global, host: &mut MemHost) -> Result<u64, Fail> {
    run_line(alloc, CREATE, host)?;
    run_script(alloc, "run f", TABLE, host)?;
    // The first line is that of the making, and the second the first reply.
    call_behind(host, Call::Say, 1)
}

/// The same on a new host.
fn first_reply(alloc: Global) -> Result<u64, Fail> {
    let mut host = host_of(alloc, &[])?;
    find_first_reply(alloc, &mut host)
}

/// Makes a file, runs a script on it whose first reply fails, and a query.
fn fail_and_query(rt: &impl Abort, alloc: Global, host: &mut MemHost) -> Result<(), Fail> {
    expect_line(rt, alloc, CREATE, host, 0, "OK\n")?;
    expect_script(rt, alloc, "run f", TABLE, host, 5, "OK\n")?;
    expect_script(rt, alloc, "run f", QUERY, host, 0, "OK\nA|B\n0 ROWS\n")
}

#[test]
fn a_first_reply_that_fails_is_that_of_a_commit(rt: HostRuntime) -> Result<(), Fail> {
    let number = first_reply(rt.alloc())?;
    let mut host = host_of(rt.alloc(), &[number])?;
    fail_and_query(&rt, rt.alloc(), &mut host)
}

/// How a line ends on a host whose file has these bytes, and what is said.
fn expect_on_bytes(
    rt: &impl Abort,
    alloc: Global,
    line: &str,
    bytes: Vec<u8>,
    status: u8,
    said: &str,
) -> Result<(), Fail> {
    let mut host = MemHost::new(alloc, Some(bytes), Vec::new(alloc));
    expect_line(rt, alloc, line, &mut host, status, said)
}

/// The bytes of the file of a host.
fn file_bytes<H: Host>(alloc: Global, host: &mut H) -> Result<Vec<u8>, Fail> {
    host.attach("f", false)?;
    let length = host.len()?;
    let mut bytes = vec![in alloc; 0u8; length as usize]?;
    host.read(0, &mut bytes)?;
    Ok(bytes)
}

/// The bytes of a file that is made on this host.
fn make_bytes(alloc: Global, host: &mut MemHost) -> Result<Vec<u8>, Fail> {
    run_line(alloc, CREATE, host)?;
    file_bytes(alloc, host)
}

/// The same on a new host.
fn made_bytes(alloc: Global) -> Result<Vec<u8>, Fail> {
    let mut host = host_of(alloc, &[])?;
    make_bytes(alloc, &mut host)
}

/// What is said of a whole file in which a byte is changed.
fn expect_changed(
    rt: &impl Abort,
    alloc: Global,
    at: usize,
    byte: u8,
    said: &str,
) -> Result<(), Fail> {
    let mut bytes = made_bytes(alloc)?;
    if let Some(place) = bytes.get_mut(at) {
        *place = byte;
    }
    expect_on_bytes(rt, alloc, "run f", bytes, 6, said)
}

#[test]
fn files_that_are_not_served_are_named(rt: HostRuntime) -> Result<(), Fail> {
    let zeros = vec![in rt.alloc(); 0u8; 4096]?;
    expect_on_bytes(&rt, rt.alloc(), "run f", zeros, 6, "NOT MADE\n")?;
    // The first byte of the birth page.
    expect_changed(&rt, rt.alloc(), 4_096, 0, "NOT MDC\n")?;
    // The last byte of the version, in file page 66.
    expect_changed(&rt, rt.alloc(), 270_343, 2, "VERSION 2\n")
}

#[test]
fn a_page_that_is_cut_off_is_named(rt: HostRuntime) -> Result<(), Fail> {
    let mut bytes = made_bytes(rt.alloc())?;
    bytes.pop();
    expect_on_bytes(
        &rt,
        rt.alloc(),
        "run f",
        bytes,
        9,
        "DAMAGED page 17 rule 1\n",
    )
}

/// How another `create` ends on the first bytes of a database.
fn expect_exists(rt: &impl Abort, alloc: Global, length: usize) -> Result<(), Fail> {
    let mut bytes = made_bytes(alloc)?;
    bytes.truncate(length);
    expect_on_bytes(rt, alloc, CREATE, bytes, 6, "FILE EXISTS\n")
}

#[test]
fn a_file_with_a_byte_exists(rt: HostRuntime) -> Result<(), Fail> {
    // The made byte alone, cut off before and behind the journal's gate, the first page, all but the last byte, and whole.
    for length in [1, 512, 513, 4_096, 344_063, 344_064] {
        expect_exists(&rt, rt.alloc(), length)?;
    }
    Ok(())
}

#[test]
fn a_scratch_file_with_a_byte_is_refused(rt: HostRuntime) -> Result<(), Fail> {
    expect_on_bytes(
        &rt,
        rt.alloc(),
        "run -",
        b"?".to_vec(rt.alloc())?,
        6,
        "FILE EXISTS\n",
    )
}

/// The bytes of the file of a host.
fn file_of<H: Host>(alloc: Global, host: &mut H) -> Result<Vec<u8>, Fail> {
    host.attach("f", false)?;
    let end = host.len()?;
    let mut bytes = vec![in alloc; 0u8; end as usize]?;
    host.read(0, &mut bytes)?;
    Ok(bytes)
}

/// Makes a database with a table and a row in the file of a host, and gives its bytes.
fn make_row(alloc: Global, host: &mut MemHost) -> Result<Vec<u8>, Fail> {
    let made = run_line(alloc, CREATE, host)?;
    let run = run_script(alloc, "run f", TABLE_AND_ROW, host)?;
    if made != 0 || run != 0 {
        return Err(Fail::new("no row"));
    }
    file_of(alloc, host)
}

/// The same on a new host.
fn bytes_with_row(alloc: Global) -> Result<Vec<u8>, Fail> {
    let mut host = host_of(alloc, &[])?;
    make_row(alloc, &mut host)
}

/// Writes bytes over those of a file from a place on.
fn put(file: &mut Vec<u8>, at: usize, bytes: &[u8]) -> Result<(), Fail> {
    for (i, byte) in bytes.iter().enumerate() {
        let Some(place) = file.get_mut(at.wrapping_add(i)) else {
            return Err(Fail::new("no such place"));
        };
        *place = *byte;
    }
    Ok(())
}

/// A place in the file, the bytes that are written there, and the status and the line of a check then.
type Checked = (usize, &'static [u8], u8, &'static str);

/// Page p begins at file page 66 + p. The table's block map is page 18, its index of cells page 19, and its row lies in page 22. The
/// root of the index is an inner node whose first child is itself; the block with one row is counted as of two; the first byte, the
/// birth page, the version and the form of the root page are written over.
static CHECKED: [Checked; 7] = [
    (0, b"", 0, "SOUND\n"),
    (
        348_160,
        b"\x49\x00\x00\x09\x00\x01\x00\x00\x00\x00\x00\x13\x00\x00\x00\x00",
        9,
        "BROKEN page 19 rule 4\n",
    ),
    (344_086, b"\x02", 9, "BROKEN page 22 rule 8\n"),
    (0, b"\x00", 6, "NOT MADE\n"),
    (4_096, b"X", 6, "NOT MDC\n"),
    (270_343, b"\x02", 6, "VERSION 2\n"),
    (270_339, b"U", 9, "BROKEN page 0 rule 1\n"),
];

/// A check of a file with these bytes written over ends so.
fn expect_checked(
    rt: &impl Abort,
    alloc: Global,
    file: &[u8],
    checked: &Checked,
) -> Result<(), Fail> {
    let &(at, bytes, status, said) = checked;
    let mut file = file.to_vec(alloc)?;
    put(&mut file, at, bytes)?;
    expect_on_bytes(rt, alloc, "check f", file, status, said)
}

#[test]
fn a_check_says_its_verdict(rt: HostRuntime) -> Result<(), Fail> {
    let file = bytes_with_row(rt.alloc())?;
    for checked in &CHECKED {
        expect_checked(&rt, rt.alloc(), file.as_slice(), checked)?;
    }
    Ok(())
}

#[test]
fn a_check_names_a_page_that_is_cut_off(rt: HostRuntime) -> Result<(), Fail> {
    let mut bytes = bytes_with_row(rt.alloc())?;
    bytes.truncate(339_968);
    expect_on_bytes(
        &rt,
        rt.alloc(),
        "check f",
        bytes,
        9,
        "BROKEN page 17 rule 1\n",
    )
}

/// Runs a check on a file of these bytes, where these calls fail, and tells its status and how many calls were made.
fn check_failing(alloc: Global, file: &[u8], fails: &[u64]) -> Result<(u8, u64), Fail> {
    let mut host = MemHost::new(alloc, Some(file.to_vec(alloc)?), fails.to_vec(alloc)?);
    let status = run_line(alloc, "check f", &mut host)?;
    Ok((status, host.calls()))
}

#[test]
fn what_fails_stops_a_check(rt: HostRuntime) -> Result<(), Fail> {
    let file = bytes_with_row(rt.alloc())?;
    let (_, calls) = check_failing(rt.alloc(), file.as_slice(), &[])?;
    // The first call attaches the file, and the last one says the line.
    for (call, status) in [(1, 3), (2, 3), (calls, 5)] {
        let (ended, _) = check_failing(rt.alloc(), file.as_slice(), &[call])?;
        assert_eq!(rt; ended, status, "{call}");
    }
    Ok(())
}
