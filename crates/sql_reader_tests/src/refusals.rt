// Worked rows: what is understood, and what is refused where.
use crate::tally::{read_script, repeated};
use mdc_values::Memory;
use std::alloc::Global;
use std::test::Fail;

/// Whether a script is one statement, which is refused so.
fn is_refused(
    alloc: Global,
    script: &[u8],
    number: u16,
    place: u32,
    kept: u64,
) -> Result<bool, Memory> {
    let tally = read_script(alloc, script, 4_096)?;
    Ok(tally.is_refused(number, place, kept))
}

/// Whether a script is one statement, which is understood.
fn is_understood(alloc: Global, script: &[u8]) -> Result<bool, Memory> {
    let tally = read_script(alloc, script, 4_096)?;
    Ok(tally.is_understood())
}

#[test]
fn a_refusal_has_its_place(rt: HostRuntime) -> Result<(), Fail> {
    // A byte that begins nothing, a word that no statement goes on with, and an end too early.
    assert!(rt; is_refused(rt.alloc(), b"SELECT # FROM T", 10, 8, 0)?);
    assert!(rt; is_refused(rt.alloc(), b"SELEC A FROM T", 10, 1, 0)?);
    assert!(rt; is_refused(rt.alloc(), b"\t-- x\n SELECT A FROM", 10, 14, 0)?);
    // A text that isn't closed stands at its first quote.
    assert!(rt; is_refused(rt.alloc(), b"INSERT INTO T VALUES ('a''b, 1)", 10, 23, 0)?);
    // Bytes that no statement has, outside comments.
    assert!(rt; is_refused(rt.alloc(), b"SELECT A\x01", 13, 9, 1)?);
    assert!(rt; is_refused(rt.alloc(), b"INSERT INTO T VALUES ('\x7f')", 13, 24, 127)?);
    assert!(rt; is_understood(rt.alloc(), b"SELECT A -- \x01\n FROM T")?);
    // An option of a column stands once.
    assert!(rt;
        is_refused(
            rt.alloc(),
            b"CREATE TABLE T (A INT NOT NULL NOT NULL) ORGANIZE BY (A)",
            10,
            32,
            0
        )?
    );
    Ok(())
}

#[test]
fn nesting_is_limited(rt: HostRuntime) -> Result<(), Fail> {
    let deep = repeated(rt.alloc(), b"DELETE FROM T WHERE ", b"NOT ", 64, b"A = 1")?;
    assert!(rt; is_understood(rt.alloc(), &deep)?);
    let deeper = repeated(rt.alloc(), b"DELETE FROM T WHERE ", b"NOT ", 65, b"A = 1")?;
    assert!(rt; is_refused(rt.alloc(), &deeper, 26, 0, 64)?);
    let open = repeated(rt.alloc(), b"DELETE FROM T WHERE ", b"(", 65, b"5")?;
    assert!(rt; is_refused(rt.alloc(), &open, 26, 0, 64)?);
    Ok(())
}

#[test]
fn words_that_may_be_names(rt: HostRuntime) -> Result<(), Fail> {
    assert!(rt;
        is_understood(
            rt.alloc(),
            b"select count, sum(min) from work where date = DATE '2003-01-15'"
        )?
    );
    assert!(rt;
        is_understood(
            rt.alloc(),
            b"UPDATE T SET INT = YEAR * -2, B = NULL WHERE A NOT IN (1, 'x') OR NOT (B IS NULL)"
        )?
    );
    assert!(rt;
        is_understood(
            rt.alloc(),
            b"CREATE TABLE T (D DATE, Y INT GENERATED ALWAYS AS (YEAR(D)) NOT NULL, Z INT GENERATED ALWAYS AS (YEAR + -1)) ORGANIZE BY (Y, (D, Z))"
        )?
    );
    assert!(rt;
        is_understood(
            rt.alloc(),
            b"EXPLAIN SELECT * FROM T GROUP BY A ORDER BY A DESC FETCH FIRST ROW ONLY"
        )?
    );
    Ok(())
}

#[test]
fn tokens_are_as_long_as_they_can_be(rt: HostRuntime) -> Result<(), Fail> {
    // A number and a word need no blank between them, and two symbols don't either.
    assert!(rt; is_understood(rt.alloc(), b"DELETE FROM T WHERE A=1AND B<>2OR(C<=-3)")?);
    // A symbol is taken whole: `>` and `=` apart are none.
    assert!(rt; is_refused(rt.alloc(), b"DELETE FROM T WHERE A > = 1", 10, 25, 0)?);
    // A comment ends a word, and two quotes stand within a text.
    assert!(rt; is_understood(rt.alloc(), b"INSERT INTO T--b\nVALUES ('it''s''', '')")?);
    // A text that isn't closed is no token.
    assert!(rt; is_refused(rt.alloc(), b"INSERT INTO T VALUES ('', 'open'')", 10, 27, 0)?);
    Ok(())
}
