// The lines of a query, as rows are found.
ghost use Rattle.std.specs.Prelude.{◌≡◌, [], length, IsTrue, IfOk, OnOk, OnErr};
ghost use Rattle.answer_text.specs.Lines.{are_outs_within, closed_lines, lines_shown, with_line};

use crate::appending::append_count;
use crate::entries::{append_entries, push_headings};
use mdc_ast::{BoundOut, ColumnDef};
use mdc_values::{Chars, List, Memory, Value};
use std::alloc::Global;
use std::marker::Model;

/// The lines of a query: names, a line for each row that was found so far, and at the end their number. Contracts see
/// what the lines show, the text so far, and the number of rows.
#[derive(Drop)]
pub struct Lines<'q> {
    outs: &'q List<BoundOut>,
    text: Vec<u8>,
    rows: u64,
}

impl<'q> Model for Lines<'q> {
    ghost use Rattle.std.specs.Prelude.{◌≤◌, length};
    ghost use Rattle.answer_text.specs.Lines.{LinesSoFar};

    ghost Value = { LinesSoFar };

    ghost view = { λ lines. record { outs = lines.outs.now; text = lines.text.items; rows = lines.rows } };

    ghost invariant = { λ lines. lines.rows ≤ length lines.text.items };
}

impl<'q> Lines<'q> {
    /// The line of the names, and no rows.
    pub fn new(
        alloc: Global,
        outs: &'q List<BoundOut>,
        columns: &List<ColumnDef>,
    ) -> Result<Lines<'q>, Memory>
        requires { IsTrue (are_outs_within (length columns.now) outs.now) }
        ensures { IfOk result (λ lines. lines ≡ lines_shown columns.now outs.now []) }
    {
        let mut text = Vec::new(alloc);
        push_headings(outs.as_slice(), columns, &mut text)?;
        Ok(Lines {
            outs,
            text,
            rows: 0,
        })
    }

    /// Adds the line of a row with these values. After `Memory` the lines are as before.
    pub fn add(&mut self, values: &List<Value>) -> Result<(), Memory>
        requires { IsTrue (are_outs_within (length values.now) self.old.outs) }
        ensures ok { OnOk result (self.new ≡ with_line values.now self.old) }
        ensures err { OnErr result (self.new ≡ self.old) }
    {
        append_entries(self.outs.as_slice(), values, &mut self.text)?;
        self.rows += 1;
        Ok(())
    }

    /// The text of the lines, closed by the number of rows.
    pub fn close(self) -> Result<Chars, Memory>
        ensures { IfOk result (λ text. text ≡ closed_lines self.entry) }
    {
        let mut text = self.text;
        append_count(self.rows, b" ROWS\n", &mut text)?;
        Ok(Chars::from_vec(text))
    }
}
