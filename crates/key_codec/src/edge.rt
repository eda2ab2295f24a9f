// A cut in a column as a place between the column's keys.
ghost use Rattle.std.specs.Prelude.{true, false, ◌≡◌, ◌<◌, ◌∷◌, [], not, IfOk, IsTrue, if◌then◌else◌};
ghost use Rattle.key_codec.specs.Edges as edges;

use crate::Key;
use crate::part::{NULL, put_ascending, put_text, turn};
use crate::width::part_width;
use mdc_ast::Cut;
use mdc_values::{ColType, Memory, Value};
use std::alloc::Global;

/// A place between byte strings: before or behind all that begin with these bytes.
#[derive(Drop)]
pub(crate) struct Edge {
    front: Vec<u8>,
    behind: bool,
}

impl Edge {
    ghost use Rattle.mdc_values.specs.Order.{order};
    ghost use Rattle.mdc_values.specs.declared.value.ColType.TheVariants as column;
    ghost use Rattle.mdc_values.specs.declared.value.Value.TheVariants as value;
    ghost use Rattle.key_codec.specs.Keys.{has_key, turned};
    ghost use Rattle.key_codec.specs.Spans.{cut_has_kind_of, has_kind_of, is_above};
    ghost use Rattle.key_codec.specs.Edges.{IsEdge, behind_front, is_past, side_of_blanks};

    /// The place of a cut among the ascending keys of a column.
    pub(crate) fn at(alloc: Global, ty: ColType, cut: &Cut) -> Result<Edge, Memory>
        requires { IsTrue (cut_has_kind_of ty cut.now) }
        ensures { IfOk result (λ edge. IsEdge ty (is_above cut.now) edge.front.items edge.behind) }
    {
        match cut {
            Cut::First => Ok(Edge::of_all(alloc, false)),
            Cut::Before(value) => Edge::beside(alloc, ty, value, false),
            Cut::After(value) => Edge::beside(alloc, ty, value, true),
            Cut::Last => Ok(Edge::of_all(alloc, true)),
        }
    }

    /// The place before or behind a value, which may be outside the type.
    fn beside(alloc: Global, ty: ColType, value: &Value, behind: bool) -> Result<Edge, Memory>
        requires { IsTrue (has_kind_of ty value.now) }
        ensures { IfOk result (λ edge. IsEdge ty (λ x. is_past behind (order x value.now)) edge.front.items edge.behind) }
    {
        match (ty, value) {
            (_, Value::Null) => Edge::of_nulls(alloc, behind),
            (ColType::Integer, Value::Int(n)) => Edge::beside_integer(alloc, *n, behind),
            (ColType::Bigint, Value::Int(n)) => Edge::of_value(alloc, ty, &Value::Int(*n), behind),
            (ColType::Char(n), Value::Text(text)) => Edge::beside_text(
                alloc,
                n,
                text.bytes(),
                behind,
            ),
            (ColType::Date, Value::Day(day)) => Edge::of_value(
                alloc,
                ty,
                &Value::Day(*day),
                behind,
            ),
            _ => unreachable!(),
        }
    }

    /// The place before or behind a number, which may be outside INTEGER.
    fn beside_integer(alloc: Global, n: i64, behind: bool) -> Result<Edge, Memory>
        ensures { IfOk result (λ edge. IsEdge column.Integer (λ x. is_past behind (order x (value.Int n))) edge.front.items edge.behind) }
    {
        if n < i32::MIN as i64 {
            return Ok(Edge::of_all(alloc, false));
        }
        if n > i32::MAX as i64 {
            return Edge::of_nulls(alloc, false);
        }
        Edge::of_value(alloc, ColType::Integer, &Value::Int(n), behind)
    }

    /// The place before or behind a text, which may be longer than the column: what it has more tells on which side of
    /// its front it lies.
    fn beside_text(alloc: Global, n: u8, text: &[u8], behind: bool) -> Result<Edge, Memory>
        ensures { IfOk result (λ edge. IsEdge (column.Char n) (λ x. is_past behind (order x (value.Text text.now))) edge.front.items edge.behind) }
    {
        let (shared, more) = text.split_at(text.len().min(n as usize));
        let mut front = vec![in alloc; 0; 1 + n as usize]?;
        put_text(&mut front, shared);
        Ok(Edge {
            front,
            behind: side_of_blanks(more, behind),
        })
    }

    /// The place before or behind all byte strings.
    fn of_all(alloc: Global, behind: bool) -> Edge
        ensures front { result.front.items ≡ [] }
        ensures behind { result.behind ≡ behind }
    {
        Edge {
            front: Vec::new(alloc),
            behind,
        }
    }

    /// The place before or behind the keys of nulls.
    fn of_nulls(alloc: Global, behind: bool) -> Result<Edge, Memory>
        ensures { IfOk result (λ edge. (edge.front.items ≡ 1 ∷ []) × (edge.behind ≡ behind)) }
    {
        Ok(Edge {
            front: vec![in alloc; NULL; 1]?,
            behind,
        })
    }

    /// The place before or behind the key of a value.
    fn of_value(alloc: Global, ty: ColType, value: &Value, behind: bool) -> Result<Edge, Memory>
        requires { IsTrue (has_key ty value.now) }
        ensures { IfOk result (λ edge. IsEdge ty (λ x. is_past behind (order x value.now)) edge.front.items edge.behind) }
    {
        let mut front = vec![in alloc; 0; part_width(ty) as usize]?;
        put_ascending(&mut front, ty, value);
        Ok(Edge { front, behind })
    }

    /// The same place where all bytes are complemented.
    pub(crate) fn turned(self) -> Edge
        ensures front { result.front.items ≡ turned true self.front.items }
        ensures behind { result.behind ≡ not self.behind }
    {
        let Edge { mut front, behind } = self;
        turn(&mut front);
        Edge {
            front,
            behind: !behind,
        }
    }

    /// The first byte string past the place.
    pub(crate) fn bound(self) -> Option<Key>
        ensures { result ≡ (if self.behind then behind_front self.front.items else Some self.front.items) }
    {
        if self.behind {
            behind_front(self.front)
        } else {
            Some(Key::from_vec(self.front))
        }
    }
}

/// The first byte string behind all that begin with a front.
fn behind_front(mut front: Vec<u8>) -> Option<Key>
    ensures { result ≡ edges.behind_front front.items }
{
    let mut end = front.len();
    while end > 0 && front[end - 1] == u8::MAX {
        end -= 1;
    }
    if end == 0 {
        return None;
    }
    front.truncate(end);
    front[end - 1] += 1;
    Some(Key::from_vec(front))
}

/// On which side of blanks the place beside a text lies: that of its first byte that is no blank.
fn side_of_blanks(text: &[u8], behind: bool) -> bool
    ensures { result ≡ edges.side_of_blanks behind text.now }
{
    for byte in text {
        if *byte != b' ' {
            return *byte > b' ';
        }
    }
    behind
}
