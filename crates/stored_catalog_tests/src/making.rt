// A table is made in an empty database.
use crate::looks::Look;
use crate::steps::{Step, run_steps};
use std::test::Fail;

// The table. Its trees take three index pages in the extents 0 and 1, of the pages 18 to 21.
const MADE: Option<Look> = Some(Look {
    name: b'W',
    number: 0,
    next: 0,
    roots: [18, 19, 20],
});

#[test]
fn a_table_is_made_in_an_empty_database(rt: HostRuntime) -> Result<(), Fail> {
    let steps = [
        Step::Kept([None, None]),
        Step::Create(b'W', 0),
        Step::Kept([MADE, None]),
        Step::Loaded([MADE, None]),
        Step::Count(22),
        Step::Root(22),
        Step::Definition(1, b'W', [18, 19, 20]),
        Step::Map([
            *b"\x02\x00\x00\x00\x00\x00\x00\x03",
            *b"\x02\x00\x00\x00\x00\x00\x00\x01",
            *b"\x00\x00\x00\x00\x00\x00\x00\x00",
            *b"\x00\x00\x00\x00\x00\x00\x00\x00",
        ]),
    ];
    run_steps(rt.alloc(), &steps)
}
