// Transactions.
ghost use Rattle.std.specs.Prelude.{◌≡◌, false, None};

use crate::scripts::{AMPLE, run_on};
use crate::stores::fresh_store;
use std::alloc::Global;
use std::test::Fail;
use store_api::Store;
use stored_catalog::load_catalog;

// What a script answers, and the next row number of the table in place 0.
fn said<S: Store + Drop>(
    alloc: Global,
    store: S,
    script: &[u8],
) -> Result<(Vec<u8>, Option<u64>), Fail>
    requires going { (S.state store).ended ≡ false }
    requires unmarked { (S.state store).marked ≡ None }
{
    let (said, left) = run_on(alloc, store, AMPLE, script)?;
    let mut store = left;
    let catalog = load_catalog(alloc, &mut store)?;
    match catalog.def(0) {
        Some(def) => Ok((said, Some(def.next))),
        None => Ok((said, None)),
    }
}

const ROLLED_BACK: &[u8] = b"CREATE TABLE T (A INTEGER, B INTEGER) ORGANIZE BY (A);
INSERT INTO T VALUES (1, 10);
COMMIT;
ROLLBACK WORK;
BEGIN;
BEGIN;
INSERT INTO T VALUES (2, 20), (1, 30);
CREATE TABLE U (X DATE) ORGANIZE BY (X);
INSERT INTO U VALUES ('2003-01-31');
UPDATE T SET A = 2147483647 WHERE B = 10;
UPDATE T SET A = A + 1;
INSERT INTO T VALUES (4);
SELECT * FROM T;
SELECT * FROM U;
ROLLBACK;
SELECT * FROM T;
SELECT * FROM U;
CREATE TABLE U (Y INTEGER) ORGANIZE BY (Y);
SELECT * FROM U;
BEGIN;
DROP TABLE T;
SELECT * FROM T;
CREATE TABLE T (Z INTEGER) ORGANIZE BY (Z);
INSERT INTO T VALUES (5);
ROLLBACK;
INSERT INTO T VALUES (2, 40);
SELECT * FROM T";

const ROLLED_BACK_SAID: &[u8] = b"OK
1 ROWS INSERTED
ERROR 12 transaction state
ERROR 12 transaction state
OK
ERROR 12 transaction state
2 ROWS INSERTED
OK
1 ROWS INSERTED
1 ROWS UPDATED
ERROR 37 overflow in A
ERROR 35 wrong number of values
A|B
2147483647|10
2|20
1|30
3 ROWS
X
2003-01-31
1 ROWS
OK
A|B
1|10
1 ROWS
ERROR 21 no table U
OK
Y
0 ROWS
OK
OK
ERROR 21 no table T
OK
1 ROWS INSERTED
OK
1 ROWS INSERTED
A|B
1|10
2|40
2 ROWS
";

// Of the rows of T two are left, which have the numbers 0 and 1.
#[test]
fn a_rollback_goes_back_to_the_last_commit(rt: HostRuntime) -> Result<(), Fail> {
    let alloc = rt.alloc();
    let (said, next) = said(alloc, fresh_store(alloc)?, ROLLED_BACK)?;
    assert_eq!(rt; said.as_slice(), ROLLED_BACK_SAID);
    assert_eq!(rt; next, Some(2));
    Ok(())
}

const COMMITTED: &[u8] = b"CREATE TABLE T (A INTEGER, B INTEGER) ORGANIZE BY (A);
BEGIN;
INSERT INTO T VALUES (1, 10), (2, 20);
DELETE FROM T WHERE A = 1;
INSERT INTO T VALUES (3, 30);
COMMIT;
ROLLBACK;
SELECT * FROM T;
BEGIN;
DELETE FROM T;
SELECT * FROM T;
COMMIT WORK;
COMMIT;
SELECT * FROM T";

const COMMITTED_SAID: &[u8] = b"OK
OK
2 ROWS INSERTED
1 ROWS DELETED
1 ROWS INSERTED
OK
ERROR 12 transaction state
A|B
2|20
3|30
2 ROWS
OK
2 ROWS DELETED
A|B
0 ROWS
OK
ERROR 12 transaction state
A|B
0 ROWS
";

#[test]
fn a_commit_keeps_what_was_done(rt: HostRuntime) -> Result<(), Fail> {
    let alloc = rt.alloc();
    let (said, next) = said(alloc, fresh_store(alloc)?, COMMITTED)?;
    assert_eq!(rt; said.as_slice(), COMMITTED_SAID);
    assert_eq!(rt; next, Some(3));
    Ok(())
}

// LIST BLOCKS tells the blocks as they are in the transaction, and as they were once it is rolled back.
const BLOCKS: &[u8] = b"CREATE TABLE T (A INTEGER, B INTEGER) ORGANIZE BY (A);
INSERT INTO T VALUES (1, 10);
BEGIN;
INSERT INTO T VALUES (2, 20), (NULL, 30);
DELETE FROM T WHERE A = 1;
LIST BLOCKS T;
ROLLBACK;
LIST BLOCKS T;
BEGIN;
DELETE FROM T;
LIST BLOCKS U;
COMMIT;
LIST BLOCKS T";

const BLOCKS_SAID: &[u8] = b"OK
1 ROWS INSERTED
OK
2 ROWS INSERTED
1 ROWS DELETED
USED 2 FREE 1 PENDING 0
OK
USED 1 FREE 0 PENDING 0
OK
1 ROWS DELETED
ERROR 21 no table U
OK
USED 0 FREE 1 PENDING 0
";

#[test]
fn blocks_are_those_of_the_transaction(rt: HostRuntime) -> Result<(), Fail> {
    let alloc = rt.alloc();
    let (said, next) = said(alloc, fresh_store(alloc)?, BLOCKS)?;
    assert_eq!(rt; said.as_slice(), BLOCKS_SAID);
    assert_eq!(rt; next, Some(1));
    Ok(())
}
