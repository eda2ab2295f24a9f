// Values as parts of keys, by bytes worked by hand, and what is read of such bytes.
ghost use Rattle.std.specs.Prelude.{◌≤◌, IsTrue};
ghost use Rattle.key_codec.specs.Keys as spec;

use key_codec::{part_width, put_part, read_part};
use mdc_values::ColType::{Bigint, Char, Date, Integer};
use mdc_values::Value::{Day, Int, Null, Text};
use mdc_values::{Chars, ColType, Value};
use std::process::Abort;
use std::test::Fail;

/// A value is these bytes as an ascending part.
fn rises(rt: &impl Abort, ty: ColType, value: &Value, bytes: &[u8])
    requires within { IsTrue (spec.has_key ty value.now) }
    requires short { spec.part_width ty ≤ 15 }
{
    is_part(rt, ty, false, value, bytes);
}

/// A value is these bytes as a descending part.
fn falls(rt: &impl Abort, ty: ColType, value: &Value, bytes: &[u8])
    requires within { IsTrue (spec.has_key ty value.now) }
    requires short { spec.part_width ty ≤ 15 }
{
    is_part(rt, ty, true, value, bytes);
}

fn is_part(rt: &impl Abort, ty: ColType, descending: bool, value: &Value, bytes: &[u8])
    requires within { IsTrue (spec.has_key ty value.now) }
    requires short { spec.part_width ty ≤ 15 }
{
    let mut out = [7; 16];
    put_part(&mut out, ty, descending, value);
    let width = part_width(ty) as usize;
    assert_eq!(rt; &out[..width], bytes);
    assert_eq!(rt; out[width], 7, "the bytes behind stay");
}

#[test]
fn numbers_as_parts(rt: HostRuntime) {
    rises(&rt, Integer, &Int(2), b"\0\x80\0\0\x02");
    rises(&rt, Integer, &Null, b"\x01\0\0\0\0");
    falls(&rt, Integer, &Int(2), b"\xff\x7f\xff\xff\xfd");
    falls(&rt, Integer, &Null, b"\xfe\xff\xff\xff\xff");
    rises(&rt, Integer, &Int(-1), b"\0\x7f\xff\xff\xff");
    rises(&rt, Integer, &Int(-2_147_483_648), b"\0\0\0\0\0");
    rises(&rt, Integer, &Int(2_147_483_647), b"\0\xff\xff\xff\xff");
}

#[test]
fn large_numbers_as_parts(rt: HostRuntime) {
    rises(&rt, Bigint, &Int(2), b"\0\x80\0\0\0\0\0\0\x02");
    rises(&rt, Bigint, &Int(i64::MIN), &[0; 9]);
    falls(&rt, Bigint, &Int(i64::MIN), &[0xff; 9]);
    falls(&rt, Bigint, &Int(i64::MAX), b"\xff\0\0\0\0\0\0\0\0");
}

#[test]
fn texts_and_days_as_parts(rt: HostRuntime) -> Result<(), Fail> {
    let text = Text(Chars::of(rt.alloc(), b"ab")?);
    rises(&rt, Char(3), &text, b"\0ab ");
    falls(&rt, Char(3), &text, b"\xff\x9e\x9d\xdf");
    rises(&rt, Char(3), &Null, b"\x01\0\0\0");
    rises(&rt, Date, &Day(20_030_115), b"\0\x01\x31\xa2\xa3");
    Ok(())
}

#[test]
fn parts_are_read_back(rt: HostRuntime) -> Result<(), Fail> {
    let alloc = rt.alloc();
    let number = read_part(alloc, Integer, b"\0\x7f\xff\xff\xff\x09")?;
    assert!(rt; matches!(number, Int(-1)));
    let day = read_part(alloc, Date, b"\0\x01\x31\xa2\xa3")?;
    assert!(rt; matches!(day, Day(20_030_115)));
    let null = read_part(alloc, Bigint, b"\x01\0\0\0\0\0\0\0\0")?;
    assert!(rt; matches!(null, Null));
    match read_part(alloc, Char(3), b"\0a  b")? {
        Text(text) => assert_eq!(rt; text.bytes(), b"a".as_slice()),
        _ => panic!(rt; "a text"),
    }
    Ok(())
}
