// Values worked by hand: what fits, how it is shown, and what stands before what.
use mdc_values::{
    Blocks, Chars, ColType, List, Literal, Memory, Op, Rid, Rids, Truth, Value, ValueFault,
    compare, day, fit, place, print,
};
use std::alloc::Global;
use std::cmp::Ordering;
use std::process::Abort;
use std::test::Fail;

fn number(negative: bool, size: u64) -> Literal {
    Literal::Number { negative, size }
}

fn text(alloc: Global, bytes: &[u8]) -> Result<Literal, Memory> {
    Ok(Literal::Text(Chars::of(alloc, bytes)?))
}

/// The literal fits, and its value and a copy of it are shown so.
fn fits_as(
    rt: &impl Abort,
    alloc: Global,
    ty: ColType,
    literal: Literal,
    shown: &[u8],
) -> Result<(), Fail> {
    let value = fit(alloc, ty, &literal)?;
    let mut out = b"= ".to_vec(alloc)?;
    print(&value.copy(alloc)?, &mut out)?;
    print(&value, &mut out)?;
    let mut expected = b"= ".to_vec(alloc)?;
    expected.extend_from_slice(shown)?;
    expected.extend_from_slice(shown)?;
    assert_eq!(rt; out.as_slice(), expected.as_slice());
    Ok(())
}

fn fails_with(rt: &impl Abort, alloc: Global, ty: ColType, literal: Literal, fault: ValueFault) {
    let answer = fit(alloc, ty, &literal).err();
    assert_eq!(rt; answer, Some(fault));
}

#[test]
fn numbers_fit(rt: HostRuntime) -> Result<(), Fail> {
    let alloc = rt.alloc();
    fits_as(&rt, alloc, ColType::Integer, number(true, 0), b"0")?;
    fits_as(
        &rt,
        alloc,
        ColType::Integer,
        number(true, 2_147_483_648),
        b"-2147483648",
    )?;
    fits_as(
        &rt,
        alloc,
        ColType::Integer,
        number(false, 2_147_483_647),
        b"2147483647",
    )?;
    fits_as(
        &rt,
        alloc,
        ColType::Bigint,
        number(true, 9_223_372_036_854_775_808),
        b"-9223372036854775808",
    )?;
    fits_as(
        &rt,
        alloc,
        ColType::Bigint,
        number(false, 9_223_372_036_854_775_807),
        b"9223372036854775807",
    )?;
    fits_as(&rt, alloc, ColType::Date, Literal::Null, b"NULL")?;
    Ok(())
}

#[test]
fn numbers_outside_are_refused(rt: HostRuntime) -> Result<(), Fail> {
    let alloc = rt.alloc();
    let past = ValueFault::OutOfRange;
    fails_with(
        &rt,
        alloc,
        ColType::Integer,
        number(true, 2_147_483_649),
        past,
    );
    fails_with(
        &rt,
        alloc,
        ColType::Integer,
        number(false, 2_147_483_648),
        past,
    );
    fails_with(
        &rt,
        alloc,
        ColType::Bigint,
        number(true, 9_223_372_036_854_775_809),
        past,
    );
    fails_with(&rt, alloc, ColType::Bigint, number(false, u64::MAX), past);
    fails_with(
        &rt,
        alloc,
        ColType::Char(9),
        number(false, 1),
        ValueFault::WrongType,
    );
    fails_with(
        &rt,
        alloc,
        ColType::Integer,
        text(alloc, b"1")?,
        ValueFault::WrongType,
    );
    Ok(())
}

#[test]
fn texts_lose_the_blanks_at_their_end(rt: HostRuntime) -> Result<(), Fail> {
    let alloc = rt.alloc();
    fits_as(
        &rt,
        alloc,
        ColType::Char(3),
        text(alloc, b"it'   ")?,
        b"'it'''",
    )?;
    fits_as(&rt, alloc, ColType::Char(1), text(alloc, b"   ")?, b"''")?;
    fits_as(&rt, alloc, ColType::Char(2), text(alloc, b" A")?, b"' A'")?;
    fails_with(
        &rt,
        alloc,
        ColType::Char(3),
        text(alloc, b"abcd ")?,
        ValueFault::TooLong,
    );
    let date = Literal::Date(Chars::of(alloc, b"2003-01-15")?);
    fails_with(&rt, alloc, ColType::Char(20), date, ValueFault::WrongType);
    Ok(())
}

#[test]
fn dates_that_exist_fit(rt: HostRuntime) -> Result<(), Fail> {
    let alloc = rt.alloc();
    let date = Literal::Date(Chars::of(alloc, b"0001-01-01")?);
    fits_as(&rt, alloc, ColType::Date, date, b"0001-01-01")?;
    fits_as(
        &rt,
        alloc,
        ColType::Date,
        text(alloc, b"2004-02-29")?,
        b"2004-02-29",
    )?;
    fits_as(
        &rt,
        alloc,
        ColType::Date,
        text(alloc, b"9999-12-31")?,
        b"9999-12-31",
    )?;
    Ok(())
}

#[test]
fn other_dates_fit_nowhere(rt: HostRuntime) -> Result<(), Fail> {
    let alloc = rt.alloc();
    let texts: [&[u8]; 6] = [
        b"2003-02-29",
        b"1900-02-29",
        b"0000-01-01",
        b"2003-1-15",
        b"2003-01-15 ",
        b"2003/01/15",
    ];
    for date in texts {
        let date = text(alloc, date)?;
        fails_with(&rt, alloc, ColType::Date, date, ValueFault::NoDate);
    }
    Ok(())
}

#[test]
fn days_are_numbers(rt: HostRuntime) {
    assert_eq!(rt; day(2000, 2, 29), Some(20_000_229));
    assert_eq!(rt; day(2001, 2, 29), None);
    assert_eq!(rt; day(0, 12, 31), None);
    assert_eq!(rt; day(10_000, 1, 1), None);
    assert_eq!(rt; day(1, 13, 1), None);
}

#[test]
fn values_are_compared(rt: HostRuntime) -> Result<(), Fail> {
    let alloc = rt.alloc();
    let short = Value::Text(Chars::of(alloc, b"AB")?);
    let padded = Value::Text(Chars::of(alloc, b"AB  ")?);
    let lower = Value::Text(Chars::of(alloc, b"AB\x1f")?);
    assert_eq!(rt; place(&short, &padded), Ordering::Equal);
    assert_eq!(rt; place(&lower, &short), Ordering::Less);
    assert_eq!(rt; compare(Op::Equal, &padded, &short), Truth::True);
    assert_eq!(rt;
        place(&Value::Null, &Value::Int(i64::MAX)),
        Ordering::Greater
    );
    assert_eq!(rt; place(&Value::Null, &Value::Null), Ordering::Equal);
    assert_eq!(rt;
        compare(Op::Equal, &Value::Null, &Value::Null),
        Truth::Unknown
    );
    assert_eq!(rt;
        compare(Op::Unequal, &Value::Int(-1), &Value::Int(1)),
        Truth::True
    );
    assert_eq!(rt;
        compare(Op::AtMost, &Value::Day(20_030_115), &Value::Day(20_030_114)),
        Truth::False
    );
    Ok(())
}

#[test]
fn lists_grow_and_close_up(rt: HostRuntime) -> Result<(), Fail> {
    let mut list = List::new(rt.alloc());
    for number in 0..4 {
        list.push(number)?;
    }
    assert_eq!(rt; list.len(), 4);
    if list.len() == 4 {
        assert_eq!(rt; list.remove(1), 1);
        assert_eq!(rt; *list.at(1), 2);
    }
    assert_eq!(rt; list.as_slice(), [0, 2, 3].as_slice());
    assert_eq!(rt; List::from_vec([7].to_vec(rt.alloc())?).len(), 1);
    Ok(())
}

#[test]
fn rising_lists_keep_what_they_are_given(rt: HostRuntime) -> Result<(), Fail> {
    let mut blocks = Blocks::new(rt.alloc());
    blocks.push(3)?;
    assert_eq!(rt; blocks.as_slice(), [3].as_slice());
    let mut rids = Rids::new(rt.alloc());
    rids.push(Rid { block: 3, slot: 7 })?;
    assert_eq!(rt; rids.as_slice(), [Rid { block: 3, slot: 7 }].as_slice());
    Ok(())
}

#[test]
fn texts_keep_their_bytes(rt: HostRuntime) -> Result<(), Fail> {
    assert_eq!(rt; Chars::of(rt.alloc(), b"T'1")?.bytes(), b"T'1".as_slice());
    assert_eq!(rt;
        Chars::from_vec(b"AB".to_vec(rt.alloc())?).bytes(),
        b"AB".as_slice()
    );
    assert_eq!(rt; Memory, Memory);
    Ok(())
}
