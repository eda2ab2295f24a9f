// What stands in a line of a query, as bytes.
ghost use Rattle.std.specs.Prelude.{◌≡◌, ◌<◌, ◌++◌, codes, length, map, take, IsTrue, OnOk, OnErr};
ghost use Rattle.statement_meaning.specs.Queries.{aggregate_name, heading, line, shown_text};
ghost use Rattle.answer_text.specs.Lines.{are_outs_within, entry, is_out_within};

use crate::appending::{append, append_number, kept_if_written};
use mdc_ast::{BoundOut, ColumnDef};
use mdc_values::{List, Memory, Value, print};
use row_groups::Shown;

/// Appends the line of the names that stand above the columns. After `Memory` a part of it may stand at the end.
pub fn push_headings(
    outs: &[BoundOut],
    columns: &List<ColumnDef>,
    out: &mut Vec<u8>,
) -> Result<(), Memory>
    requires { IsTrue (are_outs_within (length columns.now) outs.now) }
    ensures ok { OnOk result (out.new.items ≡ out.old.items ++ line (map (heading columns.now) outs.now)) }
    ensures err { OnErr result (take (length out.old.items) out.new.items ≡ out.old.items) }
{
    let Some((first, others)) = outs.split_first() else {
        return append(b"\n", out);
    };
    append_heading(*first, columns, out)?;
    for shown in others {
        append(b"|", out)?;
        append_heading(*shown, columns, out)?;
    }
    append(b"\n", out)
}

/// Appends the line of a row with these values. After `Memory` the output is as before.
pub fn append_entries(
    outs: &[BoundOut],
    values: &List<Value>,
    out: &mut Vec<u8>,
) -> Result<(), Memory>
    requires { IsTrue (are_outs_within (length values.now) outs.now) }
    ensures ok { OnOk result (out.new.items ≡ out.old.items ++ line (map (entry values.now) outs.now)) }
    ensures err { OnErr result (out.new.items ≡ out.old.items) }
{
    let start = out.len();
    let written = push_entries(outs, values, out);
    kept_if_written(written, start, out)
}

// After `Memory` a part of the line may stand at the end.
fn push_entries(outs: &[BoundOut], values: &List<Value>, out: &mut Vec<u8>) -> Result<(), Memory>
    requires { IsTrue (are_outs_within (length values.now) outs.now) }
    ensures ok { OnOk result (out.new.items ≡ out.old.items ++ line (map (entry values.now) outs.now)) }
    ensures err { OnErr result (take (length out.old.items) out.new.items ≡ out.old.items) }
{
    let Some((first, others)) = outs.split_first() else {
        return append(b"\n", out);
    };
    append_entry(*first, values, out)?;
    for shown in others {
        append(b"|", out)?;
        append_entry(*shown, values, out)?;
    }
    append(b"\n", out)
}

/// Appends a line with these shown. After `Memory` a part of it may stand at the end.
pub fn push_shown(shows: &[Shown], out: &mut Vec<u8>) -> Result<(), Memory>
    ensures ok { OnOk result (out.new.items ≡ out.old.items ++ line (map shown_text shows.now)) }
    ensures err { OnErr result (take (length out.old.items) out.new.items ≡ out.old.items) }
{
    let Some((first, others)) = shows.split_first() else {
        return append(b"\n", out);
    };
    append_shown(first, out)?;
    for shown in others {
        append(b"|", out)?;
        append_shown(shown, out)?;
    }
    append(b"\n", out)
}

// After `Memory` the output is as before.
fn append_heading(
    shown: BoundOut,
    columns: &List<ColumnDef>,
    out: &mut Vec<u8>,
) -> Result<(), Memory>
    requires { IsTrue (is_out_within (length columns.now) shown) }
    ensures ok { OnOk result (out.new.items ≡ out.old.items ++ heading columns.now shown) }
    ensures err { OnErr result (out.new.items ≡ out.old.items) }
{
    match shown {
        BoundOut::Column(column) => append(columns.at(column as usize).name.0.bytes(), out),
        BoundOut::CountAll => append(b"COUNT(*)", out),
        BoundOut::Count(column) => append_aggregate(b"COUNT(", columns, column, out),
        BoundOut::Sum(column) => append_aggregate(b"SUM(", columns, column, out),
        BoundOut::Min(column) => append_aggregate(b"MIN(", columns, column, out),
        BoundOut::Max(column) => append_aggregate(b"MAX(", columns, column, out),
    }
}

// After `Memory` the output is as before.
fn append_aggregate(
    word: &[u8],
    columns: &List<ColumnDef>,
    column: u8,
    out: &mut Vec<u8>,
) -> Result<(), Memory>
    requires { column < length columns.now }
    ensures ok { OnOk result (out.new.items ≡ out.old.items ++ aggregate_name word.now columns.now column) }
    ensures err { OnErr result (out.new.items ≡ out.old.items) }
{
    let start = out.len();
    let written = push_aggregate(word, columns.at(column as usize).name.0.bytes(), out);
    kept_if_written(written, start, out)
}

// After `Memory` a part of it may stand at the end.
fn push_aggregate(word: &[u8], name: &[u8], out: &mut Vec<u8>) -> Result<(), Memory>
    ensures ok { OnOk result (out.new.items ≡ out.old.items ++ (word.now ++ name.now ++ codes ")")) }
    ensures err { OnErr result (take (length out.old.items) out.new.items ≡ out.old.items) }
{
    append(word, out)?;
    append(name, out)?;
    append(b")", out)
}

// After `Memory` the output is as before.
fn append_entry(shown: BoundOut, values: &List<Value>, out: &mut Vec<u8>) -> Result<(), Memory>
    requires { IsTrue (is_out_within (length values.now) shown) }
    ensures ok { OnOk result (out.new.items ≡ out.old.items ++ entry values.now shown) }
    ensures err { OnErr result (out.new.items ≡ out.old.items) }
{
    match shown {
        BoundOut::Column(column) => print(values.at(column as usize), out),
        _ => Ok(()),
    }
}

// After `Memory` the output is as before.
fn append_shown(shown: &Shown, out: &mut Vec<u8>) -> Result<(), Memory>
    ensures ok { OnOk result (out.new.items ≡ out.old.items ++ shown_text shown.now) }
    ensures err { OnErr result (out.new.items ≡ out.old.items) }
{
    match shown {
        Shown::Value(value) => print(value, out),
        Shown::Count(count) => append_number(*count, out),
        Shown::Sum(None) => print(&Value::Null, out),
        Shown::Sum(Some(total)) => print(&Value::Int(*total), out),
    }
}
