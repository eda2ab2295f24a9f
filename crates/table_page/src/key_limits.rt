// Which places of columns may make a dimension or a key.
ghost use Rattle.std.specs.List.{list_any};
ghost use Rattle.std.specs.Option.{option_copied};
ghost use Rattle.std.specs.Prelude.{◌≡◌, ◌≤◌, ◌↔◌, ◌==◌, [], ◌∷◌, IfOk, IsTrue, flat_map, length, nat_le, nat_lt, slice_get};
ghost use Rattle.mdc_ast.specs.Definitions as definitions;
ghost use Rattle.mdc_ast.specs.Definitions.{AllPlacesDiffer, column_types};
ghost use Rattle.mdc_ast.specs.TableLimits as limits;

use crate::layout::MOST_PARTS;
use key_codec::KEY_LIMIT;
use mdc_ast::{ColumnDef, KeyPart};
use mdc_values::{ColType, List, Memory};
use std::alloc::Global;

// How many bytes the columns of a row have at most, without its head of 10.
const COLUMNS_LIMIT: usize = 990;

/// Whether a row of these columns is within its limit. The room that is left is counted, so that no sum overflows.
pub fn is_narrow(columns: &[ColumnDef]) -> bool
    ensures { result ≡ nat_le (definitions.row_width (column_types columns.now)) 1000 }
{
    let mut room = COLUMNS_LIMIT;
    for column in columns {
        match room.checked_sub(width(column.ty)) {
            Some(left) => room = left,
            None => return false,
        }
    }
    true
}

fn width(ty: ColType) -> usize
    ensures value { result ≡ definitions.width ty }
    ensures few { result ≤ 255 }
{
    match ty {
        ColType::Integer | ColType::Date => 4,
        ColType::Bigint => 8,
        ColType::Char(length) => usize::from(length),
    }
}

/// Whether a dimension has columns that are there, and not too many, and a key within its limit.
pub fn is_good_dimension(columns: &[ColumnDef], dim: &[u8]) -> bool
    ensures { result ≡ limits.is_good_dimension columns.now dim.now }
{
    !dim.is_empty()
        && dim.len() <= MOST_PARTS
        && are_there(columns, dim)
        && is_short_key(columns, dim)
}

/// Whether there is a column in each of these places.
pub fn are_there(columns: &[ColumnDef], places: &[u8]) -> bool
    ensures { result ≡ definitions.are_there columns.now places.now }
{
    places.iter().all(|place| is_there(columns, *place))
}

fn is_there(columns: &[ColumnDef], place: u8) -> bool
    ensures { result ≡ nat_lt place (length columns.now) }
{
    usize::from(place) < columns.len()
}

/// Whether a key of the columns in these places is within its limit.
pub fn is_short_key(columns: &[ColumnDef], places: &[u8]) -> bool
    ensures { result ≡ definitions.is_short_key columns.now places.now }
{
    let mut room = KEY_LIMIT;
    for place in places {
        match room.checked_sub(part_width(columns, *place)) {
            Some(left) => room = left,
            None => return false,
        }
    }
    true
}

/// The column in a place.
pub fn column_at(columns: &[ColumnDef], place: u8) -> Option<&ColumnDef>
    ensures { option_copied result ≡ slice_get columns.now place }
{
    columns.get(usize::from(place))
}

/// How many bytes a column adds to a key: none where it isn't there.
fn part_width(columns: &[ColumnDef], place: u8) -> usize
    ensures value { result ≡ definitions.key_width (definitions.types_at columns.now (place ∷ [])) }
{
    match column_at(columns, place) {
        Some(column) => 1 + width(column.ty),
        None => 0,
    }
}

/// Whether no place stands twice.
pub fn do_places_differ(places: &[u8]) -> bool
    ensures { IsTrue result ↔ AllPlacesDiffer places.now }
{
    for (i, place) in places.iter().enumerate() {
        if is_place_among(*place, &places[i + 1..]) {
            return false;
        }
    }
    true
}

fn is_place_among(place: u8, places: &[u8]) -> bool
    ensures { result ≡ list_any (λ other. other == place) places.now }
{
    places.iter().any(|other| *other == place)
}

/// The places of the columns of all dimensions, in order.
pub fn places_of_all(alloc: Global, dims: &[List<u8>]) -> Result<Vec<u8>, Memory>
    ensures { IfOk result (λ places. places.items ≡ flat_map (λ dim. dim) dims.now) }
{
    let mut places = Vec::new(alloc);
    for dim in dims {
        places.extend_from_slice(dim.as_slice())?;
    }
    Ok(places)
}

/// The places of the columns of a key.
pub fn places_of(alloc: Global, parts: &[KeyPart]) -> Result<Vec<u8>, Memory>
    ensures { IfOk result (λ places. places.items ≡ definitions.places_of parts.now) }
{
    let mut places = Vec::new(alloc);
    for part in parts {
        places.push(part.column)?;
    }
    Ok(places)
}
