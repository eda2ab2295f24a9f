// Stores that are opened again.
ghost use Rattle.std.specs.Prelude.{◌≡◌, false, None};

use crate::scripts::{AMPLE, run_on};
use crate::stores::fresh_store;
use std::alloc::Global;
use std::test::Fail;
use store_api::Store;

// What is answered by two engines, one after the other. The second has the pages of the last commit.
fn said_twice<S: Store + Drop>(
    alloc: Global,
    store: S,
    first: &[u8],
    second: &[u8],
) -> Result<(Vec<u8>, Vec<u8>), Fail>
    requires going { (S.state store).ended ≡ false }
    requires unmarked { (S.state store).marked ≡ None }
{
    let (said_first, left) = run_on(alloc, store, AMPLE, first)?;
    let mut store = left;
    store.rollback();
    let (said_second, _) = run_on(alloc, store, AMPLE, second)?;
    Ok((said_first, said_second))
}

// What is answered by two engines, the second of which has the pages as the first left them.
fn said_on<S: Store + Drop>(
    alloc: Global,
    store: S,
    first: &[u8],
    second: &[u8],
) -> Result<(Vec<u8>, Vec<u8>), Fail>
    requires going { (S.state store).ended ≡ false }
    requires unmarked { (S.state store).marked ≡ None }
{
    let (said_first, left) = run_on(alloc, store, AMPLE, first)?;
    let (said_second, _) = run_on(alloc, left, AMPLE, second)?;
    Ok((said_first, said_second))
}

// An index has the name of a table.
const FIRST: &[u8] = b"CREATE TABLE T (A INTEGER, B CHAR(9)) ORGANIZE BY (A);
CREATE TABLE U (X BIGINT NOT NULL) ORGANIZE BY (X);
INSERT INTO T VALUES (1, 'one'), (NULL, 'none');
CREATE UNIQUE INDEX U ON T (B DESC);
CREATE INDEX V ON U (X);
INSERT INTO U VALUES (-9223372036854775808);
DELETE FROM T WHERE A = 1;
INSERT INTO T VALUES (2, NULL)";

const FIRST_SAID: &[u8] = b"OK
OK
2 ROWS INSERTED
OK
OK
1 ROWS INSERTED
1 ROWS DELETED
1 ROWS INSERTED
";

const SECOND: &[u8] = b"SELECT * FROM T;
SELECT * FROM U;
INSERT INTO T VALUES (3, 'x'), (4, 'none');
INSERT INTO T VALUES (4, NULL);
CREATE INDEX V ON T (A);
INSERT INTO T VALUES (3, 'x'), (4, 'one');
UPDATE T SET B = 'y' WHERE B IS NULL;
DROP INDEX V;
DROP INDEX U;
INSERT INTO T VALUES (4, 'none');
CREATE UNIQUE INDEX V ON T (A, B);
DELETE FROM U;
SELECT * FROM T";

const SECOND_SAID: &[u8] = b"A|B
NULL|'none'
2|NULL
2 ROWS
X
-9223372036854775808
1 ROWS
ERROR 40 duplicate key in U
ERROR 40 duplicate key in U
ERROR 24 index V exists
2 ROWS INSERTED
1 ROWS UPDATED
OK
OK
1 ROWS INSERTED
OK
1 ROWS DELETED
A|B
NULL|'none'
2|'y'
3|'x'
4|'one'
4|'none'
5 ROWS
";

// Each statement was committed, so the pages of the last commit are those that the first engine left.
#[test]
fn a_store_that_is_opened_again_answers_the_same(rt: HostRuntime) -> Result<(), Fail> {
    let alloc = rt.alloc();
    let (said, again) = said_on(alloc, fresh_store(alloc)?, FIRST, SECOND)?;
    assert_eq!(rt; said.as_slice(), FIRST_SAID);
    assert_eq!(rt; again.as_slice(), SECOND_SAID);
    let (said, again) = said_twice(alloc, fresh_store(alloc)?, FIRST, SECOND)?;
    assert_eq!(rt; said.as_slice(), FIRST_SAID);
    assert_eq!(rt; again.as_slice(), SECOND_SAID);
    Ok(())
}

const LEFT_OPEN: &[u8] = b"CREATE TABLE T (A INTEGER) ORGANIZE BY (A);
INSERT INTO T VALUES (1);
BEGIN;
INSERT INTO T VALUES (2);
CREATE TABLE U (A INTEGER) ORGANIZE BY (A);
CREATE UNIQUE INDEX V ON T (A);
SELECT * FROM T";

const LEFT_OPEN_SAID: &[u8] = b"OK
1 ROWS INSERTED
OK
1 ROWS INSERTED
OK
OK
A
1
2
2 ROWS
";

const CLOSED: &[u8] = b"COMMIT;
SELECT * FROM T;
SELECT * FROM U;
DROP INDEX V";

const CLOSED_SAID: &[u8] = b"ERROR 12 transaction state
A
1
1 ROWS
ERROR 21 no table U
ERROR 25 no index V
";

#[test]
fn a_transaction_that_is_left_open_is_gone(rt: HostRuntime) -> Result<(), Fail> {
    let alloc = rt.alloc();
    let (said, again) = said_twice(alloc, fresh_store(alloc)?, LEFT_OPEN, CLOSED)?;
    assert_eq!(rt; said.as_slice(), LEFT_OPEN_SAID);
    assert_eq!(rt; again.as_slice(), CLOSED_SAID);
    Ok(())
}
