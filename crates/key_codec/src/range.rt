// A span of values as a range of keys.
ghost use Rattle.std.specs.Prelude.{[], ◌&&◌, not, ◌≡◌, ◌≤◌, ◌<◌, ◌++◌, ℕ, List, IfOk, IsTrue, length};
ghost use Rattle.mdc_words.specs.ByteOrder.{Entry};
ghost use Rattle.mdc_values.specs.declared.value.Value.{Value};
ghost use Rattle.mdc_ast.specs.Truth.{value_at};
ghost use Rattle.mdc_ast.specs.Database.{fits_all};
ghost use Rattle.key_codec.specs.Keys.{ArePartsOf, key_bytes, part_width, type_of_column};
ghost use Rattle.key_codec.specs.Spans.{IsRangeOf, IsShortBound, first_column, is_first_descending, is_in_range, lies_in_span, reaches, span_has_kind_of};

use crate::Key;
use crate::bound::bound_of;
use crate::width::type_of;
use mdc_ast::{ColumnDef, KeyPart, Span};
use mdc_values::{List, Memory};
use std::alloc::Global;

/// The range of keys whose first part lies in a span: from the first key on, and below the second, or without an end.
/// The span's values are of the kind of that part's column, within its type or not. Whatever stands behind the first
/// part changes nothing, so that the range is one of entries too. No bound is longer than that part.
pub fn key_range(
    alloc: Global,
    columns: &List<ColumnDef>,
    parts: &List<KeyPart>,
    span: &Span,
) -> Result<(Key, Option<Key>), Memory>
    requires some { 0 < length parts.now }
    requires parts { ArePartsOf columns.now parts.now }
    requires kind { IsTrue (span_has_kind_of (type_of_column columns.now (first_column parts.now)) span.now) }
    ensures values { IfOk result (λ range.
        IsRangeOf (type_of_column columns.now (first_column parts.now)) (is_first_descending parts.now) span.now range.0 range.1) }
    ensures low { IfOk result (λ range. length range.0 ≤ part_width (type_of_column columns.now (first_column parts.now))) }
    ensures high { IfOk result (λ range. IsShortBound (part_width (type_of_column columns.now (first_column parts.now))) range.1) }
    ensures rows { IfOk result (λ range. (values : List Value) (rest : List ℕ)
        → IsTrue (fits_all columns.now values)
        → is_in_range range.0 range.1 (key_bytes columns.now parts.now values ++ rest)
        ≡ lies_in_span span.now (value_at values (first_column parts.now))) }
{
    let part = parts.at(0);
    let ty = type_of(columns, part);
    let above_low = bound_of(alloc, ty, part.descending, &span.low)?;
    let above_high = bound_of(alloc, ty, part.descending, &span.high)?;
    if part.descending {
        return Ok(between(alloc, above_high, above_low));
    }
    Ok(between(alloc, above_low, above_high))
}

/// The range of what reaches one bound and not the other.
fn between(alloc: Global, low: Option<Key>, high: Option<Key>) -> (Key, Option<Key>)
    ensures between { (entry : Entry) → is_in_range result.0 result.1 entry ≡ (reaches low entry && not (reaches high entry)) }
    ensures low { (n : ℕ) → IsShortBound n low → length result.0 ≤ n }
    ensures high { (n : ℕ) → IsShortBound n high → IsShortBound n result.1 }
{
    match low {
        Some(low) => (low, high),
        None => (empty(alloc), Some(empty(alloc))),
    }
}

/// The bound that every key reaches.
fn empty(alloc: Global) -> Key
    ensures { result ≡ [] }
{
    Key::from_vec(Vec::new(alloc))
}
