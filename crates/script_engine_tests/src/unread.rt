// Row pages that are broken, and aren't met: which ones a statement fetches hangs on how it goes, and so on what a mode is set to.
use crate::broken::{damage_of, tried};
use crate::patches::{Patch, bytes_at};
use std::process::Abort;
use std::test::Fail;
use store_api::Damage;

// The trees of T are the pages 18 to 20; the block of the cell of 1 has the pages 22 and 23, and that of 2 has 24 and 25.
const TABLE: &[u8] = b"CREATE TABLE T (A INTEGER, B INTEGER) ORGANIZE BY (A);
INSERT INTO T VALUES (1, 10), (2, 20), (1, 30)";

// The same with a record index, on page 21.
const INDEXED: &[u8] = b"CREATE TABLE T (A INTEGER, B INTEGER) ORGANIZE BY (A);
INSERT INTO T VALUES (1, 10), (2, 20), (1, 30);
CREATE INDEX V ON T (B)";

// The same with 64 rows in the cell of 2, of which that of 1 is no large part.
const MANY: &[u8] = b"CREATE TABLE T (A INTEGER, B INTEGER) ORGANIZE BY (A);
INSERT INTO T VALUES (1, 10), (2, 1), (2, 2), (2, 3), (2, 4), (2, 5), (2, 6), (2, 7), (2, 8), (2, 9), (2, 10), (2, 11), (2, 12), (2, 13),
(2, 14), (2, 15), (2, 16), (2, 17), (2, 18), (2, 19), (2, 20), (2, 21), (2, 22), (2, 23), (2, 24), (2, 25), (2, 26),
(2, 27), (2, 28), (2, 29), (2, 30), (2, 31), (2, 32), (2, 33), (2, 34), (2, 35), (2, 36), (2, 37), (2, 38), (2, 39),
(2, 40), (2, 41), (2, 42), (2, 43), (2, 44), (2, 45), (2, 46), (2, 47), (2, 48), (2, 49), (2, 50), (2, 51), (2, 52),
(2, 53), (2, 54), (2, 55), (2, 56), (2, 57), (2, 58), (2, 59), (2, 60), (2, 61), (2, 62), (2, 63), (2, 64);
CREATE INDEX V ON T (B)";

// On broken tables a script is answered so up to the damage that is named, or to its end.
fn comes(
    rt: &(impl Abort + AllocGlobal),
    making: &[u8],
    patches: &[Patch],
    script: &[u8],
    replies: &[u8],
    named: Option<Damage>,
) -> Result<(), Fail> {
    let came = tried(rt.alloc(), making, patches, script)?;
    assert_eq!(rt; came.damage, named, "{}", script.escape_ascii());
    assert_eq!(rt; came.said.as_slice(), replies, "{}", script.escape_ascii());
    Ok(())
}

// On T with the first row page broken a script comes to its end.
fn passes(rt: &(impl Abort + AllocGlobal), script: &[u8], replies: &[u8]) -> Result<(), Fail> {
    comes(rt, TABLE, &[bytes_at(22, 0, b"S")], script, replies, None)
}

// On T with the first row page broken a script stops there.
fn stops(rt: &(impl Abort + AllocGlobal), script: &[u8], replies: &[u8]) -> Result<(), Fail> {
    let broken = [bytes_at(22, 0, b"S")];
    comes(rt, TABLE, &broken, script, replies, damage_of(7, 22))
}

#[test]
fn a_rollout_fetches_no_row_page_where_no_record_index_is(rt: HostRuntime) -> Result<(), Fail> {
    let script =
        b"DELETE FROM T WHERE A = 1; LIST BLOCKS T; INSERT INTO T VALUES (1, 40); SELECT B FROM T";
    let said = b"2 ROWS DELETED\nUSED 1 FREE 1 PENDING 0\n1 ROWS INSERTED\nB\n20\n40\n2 ROWS\n";
    passes(&rt, script, said)?;
    passes(&rt, b"DELETE FROM T", b"3 ROWS DELETED\n")?;
    stops(&rt, b"DELETE FROM T WHERE A = 1 AND B > 5", b"")?;
    stops(&rt, b"DELETE FROM T WHERE B = 20 OR A = 1", b"")?;
    Ok(())
}

#[test]
fn a_rollout_that_sweeps_a_record_index_fetches_no_row_page(rt: HostRuntime) -> Result<(), Fail> {
    let broken = [bytes_at(22, 0, b"S"), bytes_at(24, 0, b"S")];
    let script = b"DELETE FROM T WHERE A = 1; LIST BLOCKS T; DELETE FROM T; LIST BLOCKS T";
    let said =
        b"2 ROWS DELETED\nUSED 1 FREE 1 PENDING 0\n1 ROWS DELETED\nUSED 0 FREE 2 PENDING 0\n";
    comes(&rt, INDEXED, &broken, script, said, None)
}

#[test]
fn a_rollout_of_few_rows_fetches_row_pages_of_their_cell_alone(
    rt: HostRuntime,
) -> Result<(), Fail> {
    let own = [bytes_at(22, 0, b"S")];
    let script = b"DELETE FROM T WHERE A = 1; LIST BLOCKS T";
    comes(&rt, MANY, &own, script, b"", damage_of(7, 22))?;
    let other = [bytes_at(24, 0, b"S")];
    let said = b"1 ROWS DELETED\nUSED 1 FREE 1 PENDING 0\n";
    comes(&rt, MANY, &other, script, said, None)
}

#[test]
fn a_rollout_mode_outlives_a_rollback_and_what_is_refused(rt: HostRuntime) -> Result<(), Fail> {
    stops(
        &rt,
        b"SET CURRENT MDC ROLLOUT MODE NONE; DELETE FROM T WHERE A = 1",
        b"OK\n",
    )?;
    stops(
        &rt,
        b"BEGIN; SET CURRENT MDC ROLLOUT MODE NONE; ROLLBACK; DELETE FROM T WHERE A = 1",
        b"OK\nOK\nOK\n",
    )?;
    stops(
        &rt,
        b"SET CURRENT MDC ROLLOUT MODE NONE; SET CURRENT MDC ROLLOUT MODE DEFERRED; DELETE FROM T WHERE A = 1",
        b"OK\nERROR 14 not built\n",
    )?;
    passes(
        &rt,
        b"SET CURRENT MDC ROLLOUT MODE NONE; BEGIN; SET CURRENT MDC ROLLOUT MODE IMMEDIATE; ROLLBACK; DELETE FROM T WHERE A = 1",
        b"OK\nOK\nOK\nOK\n2 ROWS DELETED\n",
    )?;
    passes(
        &rt,
        b"SET CURRENT MDC ROLLOUT MODE DEFERRED; DELETE FROM T WHERE A = 1",
        b"ERROR 14 not built\n2 ROWS DELETED\n",
    )?;
    Ok(())
}

const PLANS: &[u8] = b"EXPLAIN SELECT * FROM T WHERE A = 2;
EXPLAIN SELECT * FROM T WHERE B = 20;
EXPLAIN SELECT * FROM T WHERE A = 2 OR B = 20;
EXPLAIN SELECT * FROM T WHERE A = 1 AND B = 20";

const PLANS_SAID: &[u8] = b"PLAN BLOCK
BLOCKS 1
ROWS 1
PLAN RECORD
BLOCKS 1
ROWS 1
PLAN MIXED
BLOCKS 1
ROWS 1
PLAN MIXED
BLOCKS 0
ROWS 0
";

const BY_PLANS: &[u8] = b"SELECT A FROM T WHERE B = 20;
SELECT SUM(B) FROM T WHERE A = 2 OR B = 20;
UPDATE T SET B = 21 WHERE B = 20;
SET CURRENT MDC ROLLOUT MODE NONE;
DELETE FROM T WHERE A = 2";

const BY_PLANS_SAID: &[u8] = b"A
2
1 ROWS
SUM(B)
20
1 ROWS
1 ROWS UPDATED
OK
1 ROWS DELETED
";

#[test]
fn a_plan_fetches_row_pages_of_its_blocks_alone(rt: HostRuntime) -> Result<(), Fail> {
    let broken = [bytes_at(22, 0, b"S")];
    comes(&rt, INDEXED, &broken, PLANS, PLANS_SAID, None)?;
    comes(&rt, INDEXED, &broken, BY_PLANS, BY_PLANS_SAID, None)?;
    let named = damage_of(7, 22);
    let script = b"SET PLAN SCAN; EXPLAIN SELECT * FROM T WHERE A = 2";
    comes(&rt, INDEXED, &broken, script, b"OK\n", named)?;
    let script = b"SET PLAN SCAN; SELECT B FROM T WHERE A = 2";
    comes(&rt, INDEXED, &broken, script, b"OK\n", named)?;
    let script = b"SET PLAN RECORD; SELECT SUM(B) FROM T WHERE A = 2";
    comes(&rt, INDEXED, &broken, script, b"OK\n", named)?;
    let script = b"SET PLAN BLOCK; UPDATE T SET B = 21 WHERE B = 20";
    comes(&rt, INDEXED, &broken, script, b"OK\n", named)?;
    Ok(())
}

// The row of B = 20 is on page 24, and there is no other in its block.
#[test]
fn a_place_of_a_record_index_fetches_its_page_alone(rt: HostRuntime) -> Result<(), Fail> {
    let broken = [bytes_at(25, 1, b"S")];
    let script = b"SELECT A FROM T WHERE B = 20";
    comes(&rt, INDEXED, &broken, script, b"A\n2\n1 ROWS\n", None)?;
    Ok(())
}

// The rows of the cell of 1 are on page 22, so that page 23 isn't met, whatever finds them.
const WHOLE_BLOCKS: &[u8] = b"SELECT B FROM T WHERE A = 1;
SELECT SUM(B) FROM T;
UPDATE T SET B = 11 WHERE A = 1 AND B < 20;
SET PLAN SCAN;
SELECT B FROM T WHERE B > 10";

const WHOLE_BLOCKS_SAID: &[u8] = b"B
10
30
2 ROWS
SUM(B)
60
1 ROWS
1 ROWS UPDATED
OK
B
11
20
30
3 ROWS
";

#[test]
fn a_block_is_read_no_further_than_its_last_row(rt: HostRuntime) -> Result<(), Fail> {
    let behind = [bytes_at(23, 0, b"S")];
    comes(&rt, TABLE, &behind, WHOLE_BLOCKS, WHOLE_BLOCKS_SAID, None)?;
    stops(&rt, b"SELECT B FROM T WHERE A = 1", b"")?;
    Ok(())
}

// Whatever the mode is.
#[test]
fn a_count_by_cells_fetches_no_row_page(rt: HostRuntime) -> Result<(), Fail> {
    let script =
        b"SELECT COUNT(*) FROM T WHERE A = 1; SET PLAN SCAN; SELECT COUNT(*) FROM T WHERE A < 3";
    let said = b"COUNT(*)\n2\n1 ROWS\nOK\nCOUNT(*)\n3\n1 ROWS\n";
    passes(&rt, script, said)?;
    stops(&rt, b"SELECT COUNT(B) FROM T WHERE A = 1", b"")?;
    Ok(())
}
