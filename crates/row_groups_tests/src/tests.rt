// Lines written by hand.
use mdc_ast::{BoundOut, BoundSelect, KeyPart, Row};
use mdc_values::{Chars, List, Memory, Value, print};
use row_groups::{GroupFault, Groups, Line, Shown, shares_lines, shown_lines};
use std::alloc::{AllocError, Global};
use std::process::Abort;
use std::test::Fail;

/// A value that a test writes.
#[derive(Clone, Copy, Debug)]
enum Cell {
    Null,
    Number(i64),
    Text(&'static [u8]),
    Day(u32),
}

use Cell::{Day, Null, Number, Text};

/// What a test asks for: the list, GROUP BY, ORDER BY by places and DESC, and FETCH FIRST.
#[derive(Clone, Copy)]
struct Asked<'q> {
    outs: &'q [BoundOut],
    group: &'q [u8],
    order: &'q [(u8, bool)],
    first: Option<u32>,
}

fn value_of(alloc: Global, cell: Cell) -> Result<Value, Memory> {
    match cell {
        Null => Ok(Value::Null),
        Number(number) => Ok(Value::Int(number)),
        Text(text) => Ok(Value::Text(Chars::of(alloc, text)?)),
        Day(day) => Ok(Value::Day(day)),
    }
}

fn values_of(alloc: Global, cells: &[Cell]) -> Result<List<Value>, Memory> {
    let mut values = List::new(alloc);
    for cell in cells {
        values.push(value_of(alloc, *cell)?)?;
    }
    Ok(values)
}

/// Rows by rising number.
fn rows_of(alloc: Global, rows: &[&[Cell]]) -> Result<List<Row>, Memory> {
    let mut found = List::new(alloc);
    for cells in rows {
        let number = found.as_slice().len() as u64;
        let values = values_of(alloc, cells)?;
        found.push(Row { number, values })?;
    }
    Ok(found)
}

fn order_of(alloc: Global, order: &[(u8, bool)]) -> Result<List<KeyPart>, Memory> {
    let mut parts = List::new(alloc);
    for (column, descending) in order {
        parts.push(KeyPart {
            column: *column,
            descending: *descending,
        })?;
    }
    Ok(parts)
}

fn query_of(alloc: Global, asked: &Asked) -> Result<BoundSelect, Memory> {
    Ok(BoundSelect {
        table: 0,
        outs: List::from_vec(Vec::from_slice(alloc, asked.outs)?),
        pred: None,
        group: List::from_vec(Vec::from_slice(alloc, asked.group)?),
        order: order_of(alloc, asked.order)?,
        first: asked.first,
    })
}

/// Appends what a place shows.
fn append_shown(alloc: Global, shown: &Shown, out: &mut Vec<u8>) -> Result<(), Memory> {
    match shown {
        Shown::Value(value) => print(value, out),
        Shown::Count(count) => append(format!(in alloc; "{count}"), out),
        Shown::Sum(None) => append(format!(in alloc; "no sum"), out),
        Shown::Sum(Some(sum)) => append(format!(in alloc; "sum {sum}"), out),
    }
}

fn append(text: Result<String, AllocError>, out: &mut Vec<u8>) -> Result<(), Memory> {
    let Ok(text) = text else {
        return Err(Memory);
    };
    out.extend_from_slice(text.as_bytes())?;
    Ok(())
}

/// The lines, each with a bar behind every place and a slash at its end.
fn text_of(alloc: Global, lines: &[Line]) -> Result<Vec<u8>, Memory> {
    let mut text = Vec::new(alloc);
    for line in lines {
        for shown in line.shows.as_slice() {
            append_shown(alloc, shown, &mut text)?;
            text.push(b'|')?;
        }
        text.push(b'/')?;
    }
    Ok(text)
}

/// The lines of a query over these rows, or the column of the sum that is outside BIGINT.
fn answer_of(alloc: Global, asked: &Asked, rows: &[&[Cell]]) -> Result<Vec<u8>, Memory> {
    let query = query_of(alloc, asked)?;
    let rows = rows_of(alloc, rows)?;
    match shown_lines(alloc, &query, rows.as_slice()) {
        Ok(lines) => text_of(alloc, lines.as_slice()),
        Err(GroupFault::Overflow(column)) => {
            let mut text = Vec::new(alloc);
            append(format!(in alloc; "overflow in {column}"), &mut text)?;
            Ok(text)
        }
        Err(GroupFault::Memory) => Err(Memory),
    }
}

/// Tests the lines of a query over these rows.
fn answers(
    rt: &impl Abort,
    alloc: Global,
    asked: &Asked,
    rows: &[&[Cell]],
    wanted: &str,
) -> Result<(), Fail> {
    let text = answer_of(alloc, asked, rows)?;
    assert_eq!(rt; text.as_slice(), wanted.as_bytes());
    Ok(())
}

/// All aggregates of column 1.
const AGGREGATES: [BoundOut; 5] = [
    BoundOut::CountAll,
    BoundOut::Count(1),
    BoundOut::Sum(1),
    BoundOut::Min(1),
    BoundOut::Max(1),
];

/// All aggregates of column 1 over all rows.
fn of_all(outs: &[BoundOut]) -> Asked<'_> {
    Asked {
        outs,
        group: &[],
        order: &[],
        first: None,
    }
}

#[test]
fn no_rows_have_one_line(rt: HostRuntime) -> Result<(), Fail> {
    answers(
        &rt,
        rt.alloc(),
        &of_all(&AGGREGATES),
        &[],
        "0|0|no sum|NULL|NULL|/",
    )
}

#[test]
fn no_rows_have_no_groups(rt: HostRuntime) -> Result<(), Fail> {
    let asked = Asked {
        outs: &[BoundOut::Column(0), BoundOut::CountAll],
        group: &[0],
        order: &[],
        first: None,
    };
    answers(&rt, rt.alloc(), &asked, &[], "")
}

#[test]
fn aggregates_leave_nulls_out(rt: HostRuntime) -> Result<(), Fail> {
    let rows: [&[Cell]; 4] = [
        &[Null, Null],
        &[Null, Number(7)],
        &[Null, Number(-9)],
        &[Null, Null],
    ];
    answers(
        &rt,
        rt.alloc(),
        &of_all(&AGGREGATES),
        &rows,
        "4|2|sum -2|-9|7|/",
    )
}

#[test]
fn nulls_alone_have_no_sum(rt: HostRuntime) -> Result<(), Fail> {
    let rows: [&[Cell]; 2] = [&[Null, Null], &[Null, Null]];
    answers(
        &rt,
        rt.alloc(),
        &of_all(&AGGREGATES),
        &rows,
        "2|0|no sum|NULL|NULL|/",
    )
}

#[test]
fn texts_and_days_have_a_least_and_a_greatest(rt: HostRuntime) -> Result<(), Fail> {
    let outs = [
        BoundOut::Min(0),
        BoundOut::Max(0),
        BoundOut::Min(1),
        BoundOut::Max(1),
    ];
    let rows: [&[Cell]; 3] = [
        &[Text(b"b"), Day(20_040_229)],
        &[Text(b"ab"), Day(20_031_231)],
        &[Text(b"a!"), Null],
    ];
    answers(
        &rt,
        rt.alloc(),
        &of_all(&outs),
        &rows,
        "'a!'|'b'|2003-12-31|2004-02-29|/",
    )
}

/// COUNT(*) and SUM of column 1 for each value of column 0.
const BY_FIRST: Asked<'static> = Asked {
    outs: &[BoundOut::Column(0), BoundOut::CountAll, BoundOut::Sum(1)],
    group: &[0],
    order: &[],
    first: None,
};

#[test]
fn groups_stand_in_the_order_of_their_first_rows(rt: HostRuntime) -> Result<(), Fail> {
    let rows: [&[Cell]; 6] = [
        &[Text(b"WEST"), Number(1)],
        &[Null, Number(2)],
        &[Text(b"EAST"), Number(4)],
        &[Text(b"WEST  "), Number(8)],
        &[Null, Number(16)],
        &[Text(b" WEST"), Null],
    ];
    let wanted = "'WEST'|2|sum 9|/NULL|2|sum 18|/'EAST'|1|sum 4|/' WEST'|1|no sum|/";
    answers(&rt, rt.alloc(), &BY_FIRST, &rows, wanted)
}

#[test]
fn groups_are_left_and_come_back(rt: HostRuntime) -> Result<(), Fail> {
    let rows: [&[Cell]; 10] = [
        &[Text(b"A"), Number(1)],
        &[Text(b"A  "), Number(2)],
        &[Text(b"AB"), Number(4)],
        &[Text(b"AB"), Number(8)],
        &[Text(b"A"), Number(16)],
        &[Null, Number(32)],
        &[Null, Number(64)],
        &[Text(b""), Number(128)],
        &[Text(b" "), Number(256)],
        &[Text(b"A"), Number(512)],
    ];
    let wanted = "'A'|4|sum 531|/'AB'|2|sum 12|/NULL|2|sum 96|/''|2|sum 384|/";
    answers(&rt, rt.alloc(), &BY_FIRST, &rows, wanted)
}

#[test]
fn a_number_is_no_day(rt: HostRuntime) -> Result<(), Fail> {
    let rows: [&[Cell]; 3] = [
        &[Number(20_030_131), Number(1)],
        &[Day(20_030_131), Number(2)],
        &[Number(20_030_131), Number(4)],
    ];
    answers(
        &rt,
        rt.alloc(),
        &BY_FIRST,
        &rows,
        "20030131|2|sum 5|/2003-01-31|1|sum 2|/",
    )
}

#[test]
fn long_texts_are_compared_whole(rt: HostRuntime) -> Result<(), Fail> {
    let rows: [&[Cell]; 3] = [
        &[Text(&[b'x'; 254]), Number(1)],
        &[Text(&[b'x'; 253]), Number(2)],
        &[Text(&[b'x'; 254]), Number(4)],
    ];
    let asked = Asked {
        outs: &[BoundOut::CountAll, BoundOut::Sum(1)],
        group: &[0],
        order: &[],
        first: None,
    };
    answers(&rt, rt.alloc(), &asked, &rows, "2|sum 5|/1|sum 2|/")
}

#[test]
fn sixteen_columns_make_a_group(rt: HostRuntime) -> Result<(), Fail> {
    let one = [Number(3); 16];
    let mut other = [Number(3); 16];
    other[15] = Number(4);
    let asked = Asked {
        outs: &[BoundOut::Column(15), BoundOut::CountAll],
        group: &[0, 1, 2, 3, 4, 5, 6, 7, 8, 9, 10, 11, 12, 13, 14, 15],
        order: &[],
        first: None,
    };
    answers(&rt, rt.alloc(), &asked, &[&one, &other, &one], "3|2|/4|1|/")
}

/// Rows as they are, in the order of column 0.
fn ordered(descending: &[(u8, bool)], first: Option<u32>) -> Asked<'_> {
    Asked {
        outs: &[BoundOut::Column(0), BoundOut::Column(1)],
        group: &[],
        order: descending,
        first,
    }
}

const TIES: [&[Cell]; 5] = [
    &[Number(2), Number(1)],
    &[Null, Number(2)],
    &[Number(1), Number(3)],
    &[Number(2), Number(4)],
    &[Null, Number(5)],
];

#[test]
fn ties_keep_their_order(rt: HostRuntime) -> Result<(), Fail> {
    let asked = ordered(&[(0, false)], None);
    answers(
        &rt,
        rt.alloc(),
        &asked,
        &TIES,
        "1|3|/2|1|/2|4|/NULL|2|/NULL|5|/",
    )
}

#[test]
fn a_null_comes_first_under_desc(rt: HostRuntime) -> Result<(), Fail> {
    let asked = ordered(&[(0, true)], None);
    answers(
        &rt,
        rt.alloc(),
        &asked,
        &TIES,
        "NULL|2|/NULL|5|/2|1|/2|4|/1|3|/",
    )
}

#[test]
fn the_second_part_decides_ties(rt: HostRuntime) -> Result<(), Fail> {
    let asked = ordered(&[(0, false), (1, true)], None);
    answers(
        &rt,
        rt.alloc(),
        &asked,
        &TIES,
        "1|3|/2|4|/2|1|/NULL|5|/NULL|2|/",
    )
}

#[test]
fn the_first_lines_are_fetched(rt: HostRuntime) -> Result<(), Fail> {
    let order = [(0, false)];
    let all = "1|3|/2|1|/2|4|/NULL|2|/NULL|5|/";
    answers(&rt, rt.alloc(), &ordered(&order, Some(0)), &TIES, "")?;
    answers(&rt, rt.alloc(), &ordered(&order, Some(1)), &TIES, "1|3|/")?;
    answers(&rt, rt.alloc(), &ordered(&order, Some(5)), &TIES, all)?;
    answers(&rt, rt.alloc(), &ordered(&order, Some(6)), &TIES, all)
}

#[test]
fn groups_are_ordered_by_a_column_that_is_not_shown(rt: HostRuntime) -> Result<(), Fail> {
    let asked = Asked {
        outs: &[BoundOut::CountAll],
        group: &[0],
        order: &[(0, true)],
        first: None,
    };
    answers(&rt, rt.alloc(), &asked, &TIES, "2|/2|/1|/")
}

#[test]
fn a_whole_sum_is_within_bigint(rt: HostRuntime) -> Result<(), Fail> {
    let outs = [BoundOut::Sum(0)];
    let asked = of_all(&outs);
    let high: [&[Cell]; 2] = [&[Number(i64::MAX)], &[Number(1)]];
    answers(&rt, rt.alloc(), &asked, &high, "overflow in 0")?;
    let low: [&[Cell]; 2] = [&[Number(i64::MIN)], &[Number(-1)]];
    answers(&rt, rt.alloc(), &asked, &low, "overflow in 0")?;
    let back: [&[Cell]; 3] = [&[Number(i64::MAX)], &[Number(1)], &[Number(-1)]];
    answers(&rt, rt.alloc(), &asked, &back, "sum 9223372036854775807|/")?;
    let least: [&[Cell]; 1] = [&[Number(i64::MIN)]];
    answers(
        &rt,
        rt.alloc(),
        &asked,
        &least,
        "sum -9223372036854775808|/",
    )
}

/// Two sums for each value of column 0, of which the first line alone is shown.
const TWO_SUMS: Asked<'static> = Asked {
    outs: &[BoundOut::Sum(2), BoundOut::Sum(1)],
    group: &[0],
    order: &[(0, false)],
    first: Some(1),
};

#[test]
fn the_first_group_names_the_overflow(rt: HostRuntime) -> Result<(), Fail> {
    let rows: [&[Cell]; 4] = [
        &[Number(2), Number(i64::MAX), Number(0)],
        &[Number(1), Number(0), Number(i64::MAX)],
        &[Number(1), Number(0), Number(1)],
        &[Number(2), Number(1), Number(0)],
    ];
    answers(&rt, rt.alloc(), &TWO_SUMS, &rows, "overflow in 1")
}

#[test]
fn the_first_of_the_list_names_the_overflow(rt: HostRuntime) -> Result<(), Fail> {
    let rows: [&[Cell]; 2] = [
        &[Number(1), Number(i64::MAX), Number(i64::MAX)],
        &[Number(1), Number(i64::MAX), Number(i64::MAX)],
    ];
    answers(&rt, rt.alloc(), &TWO_SUMS, &rows, "overflow in 2")
}

#[test]
fn a_line_that_is_cut_names_the_overflow(rt: HostRuntime) -> Result<(), Fail> {
    let rows: [&[Cell]; 3] = [
        &[Number(1), Number(0), Number(0)],
        &[Number(2), Number(i64::MAX), Number(0)],
        &[Number(2), Number(i64::MAX), Number(0)],
    ];
    answers(&rt, rt.alloc(), &TWO_SUMS, &rows, "overflow in 1")
}

/// The region of the sale with a number.
fn region_of(number: u32) -> Cell {
    match number % 4 {
        0 => Text(b"NORTH"),
        1 => Text(b"SOUTH"),
        2 => Text(b"EAST"),
        _ => Text(b"WEST"),
    }
}

/// The sums of 2,000 sales by region, without those of the first of twelve months. They come from the last to the first.
fn sums_of_sales(alloc: Global, query: &BoundSelect) -> Result<List<Line>, GroupFault> {
    let mut groups = Groups::new(alloc, query)?;
    for behind in 1..2001 {
        let number = 2000 - behind;
        if number % 12 != 0 {
            let values = values_of(alloc, &[region_of(number), Number(i64::from(number))])?;
            groups.add(alloc, u64::from(number), values.as_slice())?;
        }
    }
    groups.finish(alloc)
}

/// Tests the sums of sales by region, in this order.
fn sells(rt: &impl Abort, alloc: Global, order: &[(u8, bool)], wanted: &str) -> Result<(), Fail> {
    let asked = Asked {
        outs: &[BoundOut::Column(0), BoundOut::CountAll, BoundOut::Sum(1)],
        group: &[0],
        order,
        first: None,
    };
    let query = query_of(alloc, &asked)?;
    let lines = sums_of_sales(alloc, &query)?;
    let text = text_of(alloc, lines.as_slice())?;
    assert_eq!(rt; text.as_slice(), wanted.as_bytes());
    Ok(())
}

#[test]
fn sales_are_summed_by_region(rt: HostRuntime) -> Result<(), Fail> {
    let wanted =
        "'EAST'|500|sum 500000|/'NORTH'|333|sum 332668|/'SOUTH'|500|sum 499500|/'WEST'|500|sum 500500|/";
    sells(&rt, rt.alloc(), &[(0, false)], wanted)
}

#[test]
fn groups_stand_by_the_numbers_of_their_first_rows(rt: HostRuntime) -> Result<(), Fail> {
    let wanted =
        "'SOUTH'|500|sum 499500|/'EAST'|500|sum 500000|/'WEST'|500|sum 500500|/'NORTH'|333|sum 332668|/";
    sells(&rt, rt.alloc(), &[], wanted)
}

/// The counts of three blocks of rows.
fn counts_of_blocks(alloc: Global, query: &BoundSelect) -> Result<List<Line>, GroupFault> {
    let mut groups = Groups::new(alloc, query)?;
    if shares_lines(query) {
        let west = values_of(alloc, &[Text(b"WEST"), Number(7)])?;
        let east = values_of(alloc, &[Text(b"EAST"), Number(-1)])?;
        groups.add_alike(alloc, 40, 3, west.as_slice())?;
        groups.add_alike(alloc, 10, 2, east.as_slice())?;
        groups.add_alike(alloc, 5, 4, west.as_slice())?;
    }
    groups.finish(alloc)
}

#[test]
fn blocks_are_counted_at_once(rt: HostRuntime) -> Result<(), Fail> {
    let query = query_of(rt.alloc(), &BY_FIRST)?;
    let lines = counts_of_blocks(rt.alloc(), &query)?;
    let text = text_of(rt.alloc(), lines.as_slice())?;
    assert_eq!(rt;
        text.as_slice(),
        b"'WEST'|7|sum 49|/'EAST'|2|sum -2|/".as_slice()
    );
    Ok(())
}
