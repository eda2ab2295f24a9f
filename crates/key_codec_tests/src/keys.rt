// Keys of rows, by bytes worked by hand.
ghost use Rattle.std.specs.Prelude.{◌≡◌, IfOk, false};

use key_codec::{key_of, key_width};
use mdc_ast::{ColumnDef, KeyPart, Name};
use mdc_values::{Chars, ColType, List, Memory, Value};
use std::alloc::Global;
use std::test::Fail;

/// A column that may be null.
pub fn column(alloc: Global, name: &[u8], ty: ColType) -> Result<ColumnDef, Memory>
    ensures { IfOk result (λ column. (column.ty ≡ ty) × (column.not_null ≡ false)) }
{
    Ok(ColumnDef {
        name: Name(Chars::of(alloc, name)?),
        ty,
        not_null: false,
        made: None,
    })
}

fn part(column: u8, descending: bool) -> KeyPart
    ensures { result ≡ record { column = column; descending = descending } }
{
    KeyPart { column, descending }
}

#[test]
fn a_key_of_two_parts(rt: HostRuntime) -> Result<(), Fail> {
    let alloc = rt.alloc();
    let a = column(alloc, b"A", ColType::Integer)?;
    let d = column(alloc, b"D", ColType::Date)?;
    let columns = List::from_vec(vec![in alloc; a, d]?);
    let values = List::from_vec(vec![in alloc; Value::Int(2), Value::Null]?);
    let parts = List::from_vec(vec![in alloc; part(1, true), part(0, false)]?);
    assert_eq!(rt; key_width(&columns, &parts), 10);
    let key = key_of(alloc, &values, &columns, &parts)?;
    let bytes = b"\xfe\xff\xff\xff\xff\0\x80\0\0\x02";
    assert_eq!(rt; key.bytes(), bytes.as_slice());
    Ok(())
}
