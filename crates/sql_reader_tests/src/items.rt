// How many items a script has, and how its reader ends.
use crate::tally::{read_all, read_script};
use mdc_outside::MemSource;
use sql_reader::ReadStop;
use std::test::Fail;

const SCRIPT: &[u8] = b"CREATE TABLE T (A INTEGER NOT NULL, B CHAR(8)) ORGANIZE BY DIMENSIONS (A);
-- A comment; with a semicolon.
INSERT INTO T VALUES (1, 'a;b'), (2, NULL);
UPDATE T SET B = 'c' WHERE A BETWEEN 1 AND 3 OR NOT (A IN (4, 5));
SELECT FROM T;
;;
DELETE FROM T WHERE A = 1;
SELECT A, B FROM T";

#[test]
fn the_items_are_the_same_in_whatever_pieces(rt: HostRuntime) -> Result<(), Fail> {
    for step in [1, 7, 4_096] {
        let tally = read_script(rt.alloc(), SCRIPT, step)?;
        assert_eq!(rt; tally.statements, 5, "in steps of {step}");
        assert_eq!(rt; tally.refusals, 1, "in steps of {step}");
        assert_eq!(rt;
            tally.refusal.map(|told| (told.number, told.place)),
            Some((10, 8))
        );
        assert_eq!(rt; tally.stop, None);
    }
    Ok(())
}

#[test]
fn a_read_that_fails_stops_the_reader(rt: HostRuntime) -> Result<(), Fail> {
    // The third piece of 100 bytes begins within the UPDATE.
    let mut source = MemSource::new(
        Vec::from_slice(rt.alloc(), SCRIPT)?,
        100,
        Vec::from_slice(rt.alloc(), &[3])?,
    );
    let tally = read_all(rt.alloc(), &mut source)?;
    assert_eq!(rt; tally.statements, 2);
    assert_eq!(rt; tally.refusals, 0);
    assert_eq!(rt; tally.stop, Some(ReadStop::Source));
    Ok(())
}
