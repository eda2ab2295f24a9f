// What a transaction leaves to the next run.
use crate::hosts::{host_of, small_database};
use crate::runs::{run_script, said_by};
use session::Served;
use std::test::Fail;

const LEFT_OPEN: &[u8] = b"CREATE TABLE T (A INTEGER, B INTEGER) ORGANIZE BY (A);
INSERT INTO T VALUES (1, 10);
BEGIN;
INSERT INTO T VALUES (2, 20);
CREATE TABLE U (A INTEGER) ORGANIZE BY (A);
SELECT B FROM T;";

const LEFT_OPEN_SAID: &[u8] = b"OK
1 ROWS INSERTED
OK
1 ROWS INSERTED
OK
B
10
20
2 ROWS
";

const BEHIND_OPEN: &[u8] = b"COMMIT;
SELECT B FROM T;
SELECT A FROM U;";

const BEHIND_OPEN_SAID: &[u8] = b"ERROR 12 transaction state
B
10
1 ROWS
ERROR 21 no table U
";

#[test]
fn a_transaction_that_is_open_at_the_end_is_gone(rt: HostRuntime) -> Result<(), Fail> {
    let alloc = rt.alloc();
    let file = small_database(alloc)?;
    let (end, host) = run_script(alloc, LEFT_OPEN, host_of(alloc, &file, &[])?)?;
    assert_eq!(rt; end, Ok(Served::AllDone));
    assert_eq!(rt; host.said(), LEFT_OPEN_SAID);
    let (end, said) = said_by(alloc, BEHIND_OPEN, host)?;
    assert_eq!(rt; end, Ok(Served::SomeRefused));
    assert_eq!(rt; said.as_slice(), BEHIND_OPEN_SAID);
    Ok(())
}

const REFUSED: &[u8] = b"CREATE TABLE T (A INTEGER, B INTEGER) ORGANIZE BY (A);
BEGIN;
INSERT INTO T VALUES (1, 10);
INSERT INTO T VALUES (2);
INSERT INTO T VALUES (3, 30);
COMMIT;";

const REFUSED_SAID: &[u8] = b"OK
OK
1 ROWS INSERTED
ERROR 35 wrong number of values
1 ROWS INSERTED
OK
";

const BEHIND_REFUSED_SAID: &[u8] = b"A|B
1|10
3|30
2 ROWS
";

#[test]
fn a_transaction_that_was_refused_a_statement_keeps_the_others(
    rt: HostRuntime,
) -> Result<(), Fail> {
    let alloc = rt.alloc();
    let file = small_database(alloc)?;
    let (end, host) = run_script(alloc, REFUSED, host_of(alloc, &file, &[])?)?;
    assert_eq!(rt; end, Ok(Served::SomeRefused));
    assert_eq!(rt; host.said(), REFUSED_SAID);
    let (end, said) = said_by(alloc, b"SELECT * FROM T;", host)?;
    assert_eq!(rt; end, Ok(Served::AllDone));
    assert_eq!(rt; said.as_slice(), BEHIND_REFUSED_SAID);
    Ok(())
}
