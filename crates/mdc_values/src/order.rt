// SQL order, and the comparisons that follow it.
ghost use Rattle.std.specs.Prelude.{◌≡◌, IsTrue};
ghost use Rattle.mdc_values.specs.Order.{are_alike, compared, holds, order, order_to_blanks, text_order};

use crate::{Op, Truth, Value};
use std::cmp::Ordering;

/// Compares two values of one kind, or with a null. It is unknown exactly where one is null.
pub fn compare(op: Op, a: &Value, b: &Value) -> Truth
    requires { IsTrue (are_alike a.now b.now) }
    ensures { result ≡ compared op a.now b.now }
{
    match (a, b) {
        (Value::Null, _) | (_, Value::Null) => Truth::Unknown,
        _ if is_met(op, place(a, b)) => Truth::True,
        _ => Truth::False,
    }
}

/// The order of two values of one kind, or with a null, which stands above all.
pub fn place(a: &Value, b: &Value) -> Ordering
    requires { IsTrue (are_alike a.now b.now) }
    ensures { result ≡ order a.now b.now }
{
    match (a, b) {
        (Value::Null, Value::Null) => Ordering::Equal,
        (Value::Null, _) => Ordering::Greater,
        (_, Value::Null) => Ordering::Less,
        (Value::Int(a), Value::Int(b)) => a.cmp(b),
        (Value::Text(a), Value::Text(b)) => place_texts(a.bytes(), b.bytes()),
        (Value::Day(a), Value::Day(b)) => a.cmp(b),
        _ => unreachable!(),
    }
}

fn is_met(op: Op, order: Ordering) -> bool
    ensures { result ≡ holds op order }
{
    match op {
        Op::Equal => order.is_eq(),
        Op::Unequal => order.is_ne(),
        Op::Less => order.is_lt(),
        Op::AtMost => order.is_le(),
        Op::Greater => order.is_gt(),
        Op::AtLeast => order.is_ge(),
    }
}

/// The order of two texts, the shorter one as if padded with blanks.
fn place_texts(a: &[u8], b: &[u8]) -> Ordering
    ensures { result ≡ text_order a.now b.now }
{
    let shared = a.len().min(b.len());
    match a[..shared].cmp(&b[..shared]) {
        Ordering::Equal if a.len() > shared => place_to_blanks(&a[shared..]),
        Ordering::Equal => place_to_blanks(&b[shared..]).reverse(),
        order => order,
    }
}

/// The order of a text and as many blanks.
fn place_to_blanks(text: &[u8]) -> Ordering
    ensures { result ≡ order_to_blanks text.now }
{
    for byte in text {
        if *byte != b' ' {
            return byte.cmp(&b' ');
        }
    }
    Ordering::Equal
}
