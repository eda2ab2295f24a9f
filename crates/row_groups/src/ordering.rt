// The order of lines.
ghost use Rattle.std.specs.Prelude.{◌≡◌, OnOk};
ghost use Rattle.row_groups.specs.Adding.{is_numbered_lower};
ghost use Rattle.row_groups.specs.Answers.{cut};
ghost use Rattle.row_groups.specs.Ordering.{IsOrdered, behind, front, ordered, parts_order, turned_order};

use crate::line::Line;
use crate::line_so_far::LineSoFar;
use crate::values::sql_order;
use mdc_ast::KeyPart;
use mdc_values::{Memory, Value};
use std::cmp::Ordering;

/// Brings lines into the order of their first rows.
pub(crate) fn sort_by_number(lines: &mut Vec<LineSoFar>) -> Result<(), Memory>
    ensures { OnOk result (lines.new.items ≡ ordered is_numbered_lower lines.old.items) }
{
    lines.sort_by(|a, b| a.number().cmp(&b.number()))?;
    Ok(())
}

/// Brings lines into the order of these parts; those that tie keep theirs.
pub(crate) fn sort_lines(parts: &[KeyPart], lines: &mut Vec<Line>) -> Result<(), Memory>
    ensures { OnOk result (IsOrdered parts.now lines.old.items lines.new.items) }
{
    lines.sort_by(|a, b| compare_parts(parts, a.sorts.as_slice(), b.sorts.as_slice()))?;
    Ok(())
}

/// FETCH FIRST.
pub(crate) fn cut_lines(first: Option<u32>, lines: &mut Vec<Line>)
    ensures { lines.new.items ≡ cut first lines.old.items }
{
    if let Some(first) = first {
        lines.truncate(first as usize);
    }
}

/// The order of two lists of values, part by part up to the first that differs.
fn compare_parts(parts: &[KeyPart], mut a: &[Value], mut b: &[Value]) -> Ordering
    ensures { result ≡ parts_order parts.now a.now b.now }
{
    for part in parts {
        let order = compare_front(part.descending, a, b);
        if order != Ordering::Equal {
            return order;
        }
        a = behind(a);
        b = behind(b);
    }
    Ordering::Equal
}

/// The order of the first values, the greater first where that is asked.
fn compare_front(descending: bool, a: &[Value], b: &[Value]) -> Ordering
    ensures { result ≡ turned_order descending (front a.now) (front b.now) }
{
    match (a, b) {
        ([], []) => Ordering::Equal,
        ([a, ..], [b, ..]) => compare_turned(descending, a, b),
        ([], [b, ..]) => compare_turned(descending, &Value::Null, b),
        ([a, ..], []) => compare_turned(descending, a, &Value::Null),
    }
}

fn compare_turned(descending: bool, a: &Value, b: &Value) -> Ordering
    ensures { result ≡ turned_order descending a.now b.now }
{
    if descending {
        sql_order(b, a)
    } else {
        sql_order(a, b)
    }
}

fn behind(values: &[Value]) -> &[Value]
    ensures { result.now ≡ behind values.now }
{
    match values {
        [] => values,
        [_, values @ ..] => values,
    }
}
