// The columns of a CREATE TABLE, found by name.
ghost use Rattle.std.specs.Prelude.{◌≡◌, ◌<◌, ◌≤◌, length, IfSome};
ghost use Rattle.std.specs.List.{position_from};
ghost use Rattle.std.specs.Option.{option_copied};
ghost use Rattle.statement_meaning.specs.Binding as binding;
ghost use Rattle.mdc_ast.specs.Definitions.{is_same, width};
ghost use Rattle.statement_meaning.specs.Judged as judged;

use crate::names::is_same;
use mdc_ast::{ColumnText, Name, TypeText};

/// The column of that name.
pub fn text_named<'a>(columns: &'a [ColumnText], name: &Name) -> Option<&'a ColumnText>
    ensures { option_copied result ≡ judged.text_named columns.now name.now }
{
    for column in columns {
        if is_same(name, &column.name) {
            return Some(column);
        }
    }
    None
}

/// The place of a column that is there.
pub fn text_place(columns: &[ColumnText], name: &Name) -> u8
    requires { length columns.now ≤ 16 }
    ensures { result ≡ binding.text_place columns.now name.now }
{
    match text_position(columns, name) {
        Some(place) => place as u8,
        None => 0,
    }
}

fn text_position(columns: &[ColumnText], name: &Name) -> Option<usize>
    ensures place { result ≡ position_from (λ column. is_same name.now column.name) 0 columns.now }
    ensures there { IfSome result (λ place. place < length columns.now) }
{
    columns
        .iter()
        .position(|column| is_same(name, &column.name))
}

/// The bytes that a value of that type takes in a row.
pub fn width(ty: TypeText) -> u64
    ensures { result ≡ width (judged.type_of ty) }
{
    match ty {
        TypeText::Integer | TypeText::Date => 4,
        TypeText::Bigint => 8,
        TypeText::Char(n) => n,
    }
}
