// What a run is set to, which no file keeps.
use crate::hosts::{host_of, small_database};
use crate::runs::{run_script, said_by};
use session::Served;
use std::test::Fail;

const SET: &[u8] = b"CREATE TABLE T (A INTEGER, B INTEGER) ORGANIZE BY (A);
INSERT INTO T VALUES (1, 10), (2, 20);
SET PLAN RECORD;
EXPLAIN SELECT B FROM T WHERE A = 1;
UPDATE T SET B = 11 WHERE A = 1;";

const SET_SAID: &[u8] = b"OK
2 ROWS INSERTED
OK
PLAN SCAN
BLOCKS 2
ROWS 1
1 ROWS UPDATED
";

const NEXT: &[u8] = b"EXPLAIN SELECT B FROM T WHERE A = 1;
SELECT B FROM T WHERE A = 1;";

const NEXT_SAID: &[u8] = b"PLAN BLOCK
BLOCKS 1
ROWS 1
B
11
1 ROWS
";

#[test]
fn a_run_begins_in_mode_auto(rt: HostRuntime) -> Result<(), Fail> {
    let alloc = rt.alloc();
    let file = small_database(alloc)?;
    let (end, host) = run_script(alloc, SET, host_of(alloc, &file, &[])?)?;
    assert_eq!(rt; end, Ok(Served::AllDone));
    assert_eq!(rt; host.said(), SET_SAID);
    let (end, said) = said_by(alloc, NEXT, host)?;
    assert_eq!(rt; end, Ok(Served::AllDone));
    assert_eq!(rt; said.as_slice(), NEXT_SAID);
    Ok(())
}
