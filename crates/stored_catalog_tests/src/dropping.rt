// Tables are dropped, and made again.
use crate::looks::Look;
use crate::steps::{Step, run_steps};
use mdc_values::Rid;
use std::test::Fail;

// A table that has fourteen rows.
const FULL: Option<Look> = Some(Look {
    name: b'W',
    number: 0,
    next: 14,
    roots: [18, 19, 20],
});

// Its fourteen rows come, from block 2 on.
const FILL: Step = Step::Fill {
    table: 0,
    rows: 14,
    first: 2,
};

// Fourteen rows take all extents that the trees leave, so they come again only where each was given back.
#[test]
fn a_table_is_dropped_and_made_again(rt: HostRuntime) -> Result<(), Fail> {
    let steps = [
        Step::Create(b'W', 0),
        FILL,
        Step::Loaded([FULL, None]),
        Step::Count(50),
        Step::DropTable(0),
        Step::Kept([None, None]),
        Step::Loaded([None, None]),
        Step::Blank(17),
        Step::Blank(1),
        Step::Count(50),
        Step::Load,
        Step::Create(b'W', 0),
        FILL,
        Step::Loaded([FULL, None]),
        Step::Count(50),
    ];
    run_steps(rt.alloc(), &steps)
}

// The second table, which has the pages 21, 22 and 23, once it has a row.
const SECOND: Option<Look> = Some(Look {
    name: b'B',
    number: 1,
    next: 1,
    roots: [21, 22, 23],
});

// The third, which takes the lowest unused page of the extents of the second, 20, and then extent 0.
const THIRD: Option<Look> = Some(Look {
    name: b'C',
    number: 0,
    next: 0,
    roots: [20, 18, 19],
});

// The row of the second comes into block 3.
const PUT: Step = Step::Fill {
    table: 1,
    rows: 1,
    first: 3,
};

// Two tables come, the second with a row, and the first is dropped; then a third comes. The map says behind the drop that the
// trees of the second are left in the extents 1 and 2, and its block 3.
#[test]
fn the_second_table_stays_where_it_is(rt: HostRuntime) -> Result<(), Fail> {
    let steps = [
        Step::Create(b'A', 0),
        Step::Create(b'B', 1),
        PUT,
        Step::DropTable(0),
        Step::Map([
            *b"\x00\x00\x00\x00\x00\x00\x00\x00",
            *b"\x02\x00\x00\x00\x00\x00\x00\x02",
            *b"\x02\x00\x00\x00\x00\x00\x00\x03",
            *b"\x01\x01\x00\x00\x00\x00\x00\x00",
        ]),
        Step::Loaded([None, SECOND]),
        Step::RowOfSecond(Rid { block: 3, slot: 0 }),
        Step::Kept([None, SECOND]),
        Step::Create(b'C', 0),
        Step::Kept([THIRD, SECOND]),
        Step::Count(26),
    ];
    run_steps(rt.alloc(), &steps)
}
