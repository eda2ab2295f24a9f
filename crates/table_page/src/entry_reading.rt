// What the entries of a table page are read as: names, columns, dimensions, indexes.
ghost use Rattle.std.specs.Prelude.{◌≡◌, IfOk, length};
ghost use Rattle.table_page.specs.ReadingBack as spec;
ghost use Rattle.table_page.specs.ReadingBack.{column_in_page, dimension_in_page, entries_in_page, index_in_page, made_in_page, name_in_page, part_in_page};

use crate::layout::{
    MADE_BYTES, MOST_PARTS, NAME_BYTES, PART_BYTES, PARTS_BYTES, ROOT_BYTES, part,
};
use byteorder::{BigEndian, ByteOrder};
use mdc_ast::{ColumnDef, GenExpr, GenKind, IndexDef, KeyPart, Name};
use mdc_values::{Chars, ColType, List, Memory, trim};
use std::alloc::Global;

/// Reads a name, which ends where blanks alone follow.
pub fn read_name(alloc: Global, bytes: &[u8]) -> Result<Name, Memory>
    ensures { IfOk result (λ name. name ≡ name_in_page bytes.now) }
{
    Ok(Name(Chars::of(alloc, trim(bytes))?))
}

/// Reads a column.
#[tactic(auto, unfolding(crate::specs::ReadingBack::column_in_page))]
pub fn read_column(alloc: Global, bytes: &[u8]) -> Result<ColumnDef, Memory>
    requires { length bytes.now ≡ 31 }
    ensures { IfOk result (λ column. column ≡ column_in_page bytes.now) }
{
    let name = read_name(alloc, part(bytes, 0, NAME_BYTES))?;
    Ok(ColumnDef {
        name,
        ty: type_of(bytes[18], bytes[19]),
        not_null: bytes[20] == 1,
        made: read_made(part(bytes, 21, MADE_BYTES)),
    })
}

/// The type of that number and length.
fn type_of(code: u8, length: u8) -> ColType
    ensures { result ≡ spec.type_in_page code length }
{
    match code {
        1 => ColType::Integer,
        2 => ColType::Bigint,
        3 => ColType::Char(length),
        _ => ColType::Date,
    }
}

/// Reads what a column is made from.
fn read_made(bytes: &[u8]) -> Option<GenExpr>
    requires { length bytes.now ≡ 10 }
    ensures { result ≡ made_in_page bytes.now }
{
    if bytes[0] == 0 {
        return None;
    }
    Some(GenExpr {
        kind: kind_of(bytes[0]),
        base: bytes[1],
        k: BigEndian::read_i64(part(bytes, 2, 8)),
    })
}

/// The kind of expression of that number.
fn kind_of(code: u8) -> GenKind
    ensures { result ≡ spec.kind_in_page code }
{
    match code {
        1 => GenKind::IntegerOver,
        2 => GenKind::Year,
        3 => GenKind::Month,
        4 => GenKind::Over,
        _ => GenKind::Plus,
    }
}

/// Reads a dimension, of as many columns as are stated.
#[tactic(auto, unfolding(crate::specs::ReadingBack::dimension_in_page))]
pub fn read_dimension(alloc: Global, bytes: &[u8]) -> Result<List<u8>, Memory>
    requires { length bytes.now ≡ 17 }
    ensures { IfOk result (λ dim. dim ≡ dimension_in_page bytes.now) }
{
    let stated = usize::from(bytes[0]).min(MOST_PARTS);
    let places = Vec::from_slice(alloc, part(bytes, 1, stated))?;
    Ok(List::from_vec(places))
}

/// Reads an index.
#[tactic(auto, unfolding(crate::specs::ReadingBack::index_in_page))]
pub fn read_index(alloc: Global, bytes: &[u8]) -> Result<IndexDef, Memory>
    requires { length bytes.now ≡ 56 }
    ensures { IfOk result (λ index. index ≡ index_in_page bytes.now) }
{
    let name = read_name(alloc, part(bytes, 0, NAME_BYTES))?;
    let parts = read_parts(alloc, part(bytes, 20, PARTS_BYTES), bytes[19])?;
    Ok(IndexDef {
        name,
        unique: bytes[18] == 1,
        parts,
        root: BigEndian::read_u32(part(bytes, 52, ROOT_BYTES)),
    })
}

/// Reads as many parts of a key as are stated.
fn read_parts(alloc: Global, bytes: &[u8], stated: u8) -> Result<List<KeyPart>, Memory>
    requires { length bytes.now ≡ 32 }
    ensures { IfOk result (λ parts. parts ≡ entries_in_page part_in_page 2 16 stated bytes.now) }
{
    let mut parts = List::new(alloc);
    for i in 0..usize::from(stated).min(MOST_PARTS) {
        parts.push(read_part(part(bytes, PART_BYTES * i, PART_BYTES)))?;
    }
    Ok(parts)
}

fn read_part(bytes: &[u8]) -> KeyPart
    requires { length bytes.now ≡ 2 }
    ensures { result ≡ part_in_page bytes.now }
{
    KeyPart {
        column: bytes[0],
        descending: bytes[1] == 1,
    }
}
