// Spans of values as ranges of keys, by bytes worked by hand.
ghost use Rattle.std.specs.Prelude.{◌≡◌, ◌≤◌, IsTrue};
ghost use Rattle.mdc_values.specs.declared.value.Value.TheVariants as value;
ghost use Rattle.mdc_ast.specs.declared.span.Cut.TheVariants as cut;
ghost use Rattle.key_codec.specs.Keys as spec;
ghost use Rattle.key_codec.specs.Spans.{cut_has_kind_of, span_has_kind_of};

use crate::keys::column;
use key_codec::key_range;
use mdc_ast::Cut::{After, Before, First, Last};
use mdc_ast::{Cut, KeyPart, Span};
use mdc_values::ColType::{Bigint, Char, Integer};
use mdc_values::Value::{Int, Null, Text};
use mdc_values::{Chars, ColType, List};
use std::process::Abort;
use std::test::Fail;

/// What lies between two cuts is this range of keys, in an ascending column.
fn rises(
    rt: &(impl Abort + AllocGlobal),
    ty: ColType,
    low: Cut,
    high: Cut,
    from: &[u8],
    end: Option<&[u8]>,
) -> Result<(), Fail>
    requires low { IsTrue (cut_has_kind_of ty low) }
    requires high { IsTrue (cut_has_kind_of ty high) }
    requires short { spec.part_width ty ≤ 128 }
{
    is_range(rt, ty, false, Span { low, high }, from, end)
}

/// What lies between two cuts is this range of keys, in a descending column.
fn falls(
    rt: &(impl Abort + AllocGlobal),
    ty: ColType,
    low: Cut,
    high: Cut,
    from: &[u8],
    end: Option<&[u8]>,
) -> Result<(), Fail>
    requires low { IsTrue (cut_has_kind_of ty low) }
    requires high { IsTrue (cut_has_kind_of ty high) }
    requires short { spec.part_width ty ≤ 128 }
{
    is_range(rt, ty, true, Span { low, high }, from, end)
}

fn is_range(
    rt: &(impl Abort + AllocGlobal),
    ty: ColType,
    descending: bool,
    span: Span,
    from: &[u8],
    end: Option<&[u8]>,
) -> Result<(), Fail>
    requires kind { IsTrue (span_has_kind_of ty span) }
    requires short { spec.part_width ty ≤ 128 }
{
    let alloc = rt.alloc();
    let columns = List::from_vec(vec![in alloc; column(alloc, b"A", ty)?]?);
    let part = KeyPart {
        column: 0,
        descending,
    };
    let parts = List::from_vec(vec![in alloc; part]?);
    let range = key_range(alloc, &columns, &parts, &span)?;
    assert_eq!(rt; range.0.bytes(), from);
    match (&range.1, end) {
        (Some(key), Some(end)) => assert_eq!(rt; key.bytes(), end),
        (None, None) => {}
        _ => panic!(rt; "one range has an end"),
    }
    Ok(())
}

fn before(n: i64) -> Cut
    ensures { result ≡ cut.Before (value.Int n) }
{
    Before(Int(n))
}

fn after(n: i64) -> Cut
    ensures { result ≡ cut.After (value.Int n) }
{
    After(Int(n))
}

#[test]
fn numbers_in_an_ascending_part(rt: HostRuntime) -> Result<(), Fail> {
    let two = b"\0\x80\0\0\x02";
    let three = b"\0\x80\0\0\x03";
    rises(&rt, Integer, before(2), after(2), two, Some(three))?;
    rises(&rt, Integer, First, before(2), b"", Some(two))?;
    rises(&rt, Integer, First, after(2), b"", Some(three))
}

#[test]
fn nulls_lie_last_in_an_ascending_part(rt: HostRuntime) -> Result<(), Fail> {
    let two = b"\0\x80\0\0\x02";
    let three = b"\0\x80\0\0\x03";
    rises(&rt, Integer, after(2), Before(Null), three, Some(b"\x01"))?;
    rises(&rt, Integer, before(2), Before(Null), two, Some(b"\x01"))?;
    rises(&rt, Integer, Before(Null), Last, b"\x01", None)?;
    rises(&rt, Integer, First, Before(Null), b"", Some(b"\x01"))?;
    rises(&rt, Integer, Last, First, b"", Some(b""))
}

#[test]
fn numbers_in_a_descending_part(rt: HostRuntime) -> Result<(), Fail> {
    let two = b"\xff\x7f\xff\xff\xfd";
    let one = b"\xff\x7f\xff\xff\xfe";
    falls(&rt, Integer, before(2), after(2), two, Some(one))?;
    falls(&rt, Integer, First, before(2), one, None)?;
    falls(&rt, Integer, First, after(2), two, None)
}

#[test]
fn nulls_lie_first_in_a_descending_part(rt: HostRuntime) -> Result<(), Fail> {
    let two = b"\xff\x7f\xff\xff\xfd";
    let one = b"\xff\x7f\xff\xff\xfe";
    falls(&rt, Integer, after(2), Before(Null), b"\xff", Some(two))?;
    falls(&rt, Integer, before(2), Before(Null), b"\xff", Some(one))?;
    falls(&rt, Integer, Before(Null), Last, b"", Some(b"\xff"))?;
    falls(&rt, Integer, First, Before(Null), b"\xff", None)?;
    falls(&rt, Integer, Last, First, b"", Some(b""))
}

#[test]
fn numbers_outside_the_type(rt: HostRuntime) -> Result<(), Fail> {
    let large = 5_000_000_000;
    let nulls = b"\x01";
    rises(&rt, Integer, after(large), Before(Null), nulls, Some(nulls))?;
    rises(&rt, Integer, First, before(large), b"", Some(nulls))?;
    rises(&rt, Integer, after(-large), Before(Null), b"", Some(nulls))?;
    falls(&rt, Integer, before(-large), after(large), b"\xff", None)
}

#[test]
fn numbers_at_the_ends_of_the_type(rt: HostRuntime) -> Result<(), Fail> {
    let nulls = b"\x01";
    rises(&rt, Integer, First, after(2_147_483_647), b"", Some(nulls))?;
    rises(&rt, Bigint, First, after(i64::MAX), b"", Some(nulls))
}

#[test]
fn texts_longer_than_the_column_and_shorter(rt: HostRuntime) -> Result<(), Fail> {
    let alloc = rt.alloc();
    let longer = Text(Chars::of(alloc, b"abcd")?);
    let lower = Text(Chars::of(alloc, b"abc\x01")?);
    let blanks = Text(Chars::of(alloc, b"a  ")?);
    rises(&rt, Char(3), Before(longer), Last, b"\0abd", None)?;
    rises(&rt, Char(3), After(lower), Last, b"\0abc", None)?;
    rises(&rt, Char(3), After(blanks), Last, b"\0a !", None)
}
