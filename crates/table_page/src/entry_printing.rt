// The entries of a table page: a column, a dimension, an index.
ghost use Rattle.std.specs.Prelude.{◌≡◌, ◌≤◌, ◌+◌, length, flat_map};
ghost use Rattle.mdc_ast.specs.Definitions.{IsShort};
ghost use Rattle.table_page.specs.Printing.{IsShortIndex, PrintsBytes};
ghost use Rattle.table_page.specs.TablePage as spec;
ghost use Rattle.table_page.specs.TablePage.{printed_column, printed_dimension, printed_index, printed_made, printed_part, zero_filled};

use crate::layout::{DIM_BYTES, MADE_BYTES, NAME_BYTES, PART_BYTES, PARTS_BYTES};
use crate::printing::{print_bytes, print_name, print_short, print_up_to};
use mdc_ast::{ColumnDef, GenExpr, GenKind, IndexDef, KeyPart};
use mdc_values::ColType;
use store_api::Page;

/// Prints a column.
pub fn print_column(page: &mut Page, at: usize, column: &ColumnDef)
    requires short { IsShort column.now.name }
    requires within { at + 31 ≤ 4096 }
    ensures { PrintsBytes at (at + 31) (printed_column column.now) page.old page.new }
{
    print_name(page, at, &column.name);
    let code = type_code(column.ty);
    let length = char_length(column.ty);
    print_bytes(page, at + 18, &[code, length, u8::from(column.not_null)]);
    print_made(page, at + 21, column.made);
}

/// The number of a type.
fn type_code(ty: ColType) -> u8
    ensures { result ≡ spec.type_code ty }
{
    match ty {
        ColType::Integer => 1,
        ColType::Bigint => 2,
        ColType::Char(_) => 3,
        ColType::Date => 4,
    }
}

/// The length of a CHAR.
fn char_length(ty: ColType) -> u8
    ensures { result ≡ spec.char_length ty }
{
    match ty {
        ColType::Char(length) => length,
        ColType::Integer | ColType::Bigint | ColType::Date => 0,
    }
}

/// Prints what a column is made from, or zeros.
fn print_made(page: &mut Page, at: usize, made: Option<GenExpr>)
    requires { at + 10 ≤ 4096 }
    ensures { PrintsBytes at (at + 10) (printed_made made) page.old page.new }
{
    match made {
        Some(expression) => print_expression(page, at, expression),
        None => print_up_to(page, at, at + MADE_BYTES, 0),
    }
}

fn print_expression(page: &mut Page, at: usize, expression: GenExpr)
    requires { at + 10 ≤ 4096 }
    ensures { PrintsBytes at (at + 10) (spec.printed_expression expression) page.old page.new }
{
    print_bytes(page, at, &[kind_code(expression.kind), expression.base]);
    print_bytes(page, at + 2, &expression.k.to_be_bytes());
}

/// The number of a kind of expression.
fn kind_code(kind: GenKind) -> u8
    ensures { result ≡ spec.kind_code kind }
{
    match kind {
        GenKind::IntegerOver => 1,
        GenKind::Year => 2,
        GenKind::Month => 3,
        GenKind::Over => 4,
        GenKind::Plus => 5,
    }
}

/// Prints a dimension.
pub fn print_dimension(page: &mut Page, at: usize, dim: &[u8])
    requires short { length dim.now ≤ 16 }
    requires within { at + 17 ≤ 4096 }
    ensures { PrintsBytes at (at + 17) (printed_dimension dim.now) page.old page.new }
{
    print_bytes(page, at, &[dim.len() as u8]);
    print_bytes(page, at + 1, dim);
    print_up_to(page, at + 1 + dim.len(), at + DIM_BYTES, 0);
}

/// Prints an index.
pub fn print_index(page: &mut Page, at: usize, index: &IndexDef)
    requires short { IsShortIndex index.now }
    requires within { at + 56 ≤ 4096 }
    ensures { PrintsBytes at (at + 56) (printed_index index.now) page.old page.new }
{
    print_name(page, at, &index.name);
    let parts = index.parts.as_slice();
    print_bytes(
        page,
        at + NAME_BYTES,
        &[u8::from(index.unique), parts.len() as u8],
    );
    print_parts(page, at + 20, parts);
    print_short(page, at + 52, index.root);
}

fn print_parts(page: &mut Page, at: usize, parts: &[KeyPart])
    requires few { length parts.now ≤ 16 }
    requires within { at + 32 ≤ 4096 }
    ensures { PrintsBytes at (at + 32) (zero_filled 32 (flat_map printed_part parts.now)) page.old page.new }
{
    let mut to = at;
    for part in parts {
        print_part(page, to, *part);
        to += PART_BYTES;
    }
    print_up_to(page, to, at + PARTS_BYTES, 0);
}

fn print_part(page: &mut Page, at: usize, part: KeyPart)
    requires { at + 2 ≤ 4096 }
    ensures { PrintsBytes at (at + 2) (printed_part part) page.old page.new }
{
    print_bytes(page, at, &[part.column, u8::from(part.descending)]);
}
