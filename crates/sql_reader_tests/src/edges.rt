// Statements at the limit, what is skipped, and how much a reader keeps.

use crate::tally::{Tally, read_script, repeated};
use mdc_values::Memory;
use std::alloc::Global;
use std::test::Fail;

/// The greatest number of bytes that a reader keeps: a statement and one read.
const MOST: usize = 69_632;

/// Whether a script is one statement, which is understood, whatever pieces it comes in.
fn is_understood(alloc: Global, script: &[u8]) -> Result<bool, Memory> {
    let by_byte = read_script(alloc, script, 1)?;
    let by_part = read_script(alloc, script, 1_000)?;
    let whole = read_script(alloc, script, 4_096)?;
    Ok(fits(&by_byte) && fits(&by_part) && fits(&whole))
}

fn fits(tally: &Tally) -> bool {
    tally.is_understood() && tally.most_kept <= MOST
}

/// Whether a script is one statement, which is too long, whatever pieces it comes in.
fn is_too_long(alloc: Global, script: &[u8]) -> Result<bool, Memory> {
    let by_byte = read_script(alloc, script, 1)?;
    let by_part = read_script(alloc, script, 1_000)?;
    let whole = read_script(alloc, script, 4_096)?;
    Ok(passes(&by_byte) && passes(&by_part) && passes(&whole))
}

fn passes(tally: &Tally) -> bool {
    tally.is_refused(11, 0, 65_536) && tally.most_kept <= MOST
}

#[test]
fn the_limit_of_a_statement_is_sharp(rt: HostRuntime) -> Result<(), Fail> {
    let alloc = rt.alloc();
    let long = repeated(alloc, b"BEGIN", b" ", 65_531, b"")?;
    assert!(rt; is_understood(alloc, &long)?);
    let closed = repeated(alloc, b"BEGIN", b" ", 65_531, b";")?;
    assert!(rt; is_understood(alloc, &closed)?);
    let longer = repeated(alloc, b"BEGIN", b" ", 65_532, b"")?;
    assert!(rt; is_too_long(alloc, &longer)?);
    let longer_closed = repeated(alloc, b"BEGIN", b" ", 65_532, b";")?;
    assert!(rt; is_too_long(alloc, &longer_closed)?);
    Ok(())
}

#[test]
fn blanks_and_comments_before_a_statement_are_none_of_it(rt: HostRuntime) -> Result<(), Fail> {
    let alloc = rt.alloc();
    let comments = repeated(alloc, b" \n", b"-- a; 'b'\n", 9_000, b"")?;
    let long = repeated(alloc, &comments, b"", 0, b"BEGIN")?;
    let tally = read_script(alloc, &long, 4_096)?;
    assert!(rt; tally.is_understood());
    // Comments are dropped as they come: of one that is open two dashes are kept.
    assert!(rt; tally.most_kept <= 4_098);
    let full = repeated(alloc, &comments, b"", 0, b"BEGIN")?;
    let full = repeated(alloc, &full, b" ", 65_531, b"")?;
    assert!(rt; is_understood(alloc, &full)?);
    let line = repeated(alloc, b"--", b"-;'", 40_000, b"\nBEGIN")?;
    let tally = read_script(alloc, &line, 4_096)?;
    assert!(rt; tally.is_understood());
    assert!(rt; tally.most_kept <= 4_098);
    Ok(())
}

#[test]
fn a_statement_that_is_too_long_is_skipped(rt: HostRuntime) -> Result<(), Fail> {
    let alloc = rt.alloc();
    // No semicolon in a text or a comment cuts within the part that is skipped.
    let text = repeated(alloc, b"INSERT INTO T VALUES ('", b"a;''", 50_000, b"')")?;
    assert!(rt; is_too_long(alloc, &text)?);
    let comment = repeated(alloc, b"BEGIN", b" ", 70_000, b"-- a; b\n '-- c;'")?;
    assert!(rt; is_too_long(alloc, &comment)?);
    // What stands behind it is read.
    let more = repeated(alloc, &text, b";", 3, b"COMMIT; BEGIN")?;
    let tally = read_script(alloc, &more, 333)?;
    assert_eq!(rt; tally.statements, 2);
    assert_eq!(rt; tally.refusals, 1);
    assert!(rt; tally.most_kept <= MOST);
    Ok(())
}
