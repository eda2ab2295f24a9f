// Where rows lie in a page, and columns in a row.
ghost use Rattle.std.specs.Prelude.{◌≡◌, ◌≤◌, ◌+◌, ℕ, length, take, drop};
ghost use Rattle.mdc_ast.specs.Definitions.{width};
ghost use Rattle.row_page.specs.Row.{AreRowColumns, row_width_of};
ghost use Rattle.row_page.specs.RowPage.{bytes_for_slots, slot_count};

use mdc_ast::ColumnDef;
use mdc_values::{ColType, List};
use store_api::layout::PAGE_BYTES;

/// How many bytes the head of a page has. The bits of the slots stand behind it.
pub const PAGE_HEAD: usize = 16;

/// Where the null bits stand in a row, behind its number.
pub const NULLS: usize = 8;

/// Where the columns begin in a row.
pub const ROW_HEAD: usize = 10;

/// Where the rows of a page lie: how many slots there are, how wide they are, and where they begin.
#[derive(Clone, Copy, Debug)]
pub struct Layout {
    pub slots: u16,
    pub width: usize,
    pub start: usize,
}

impl Layout {
    ghost use Rattle.row_page.specs.Layout.{IsLayoutOf};

    /// The layout of pages of these columns.
    pub fn of(columns: &[ColumnDef]) -> Layout
        requires { AreRowColumns columns.now }
        ensures { IsLayoutOf columns.now result }
    {
        let width = row_width(columns);
        let slots = 8 * (PAGE_BYTES - PAGE_HEAD) / (8 * width + 1);
        let start = PAGE_HEAD + slots.div_ceil(8);
        Layout {
            slots: slots as u16,
            width,
            start,
        }
    }
}

/// How many slots a page of these columns has: the most that fit.
pub fn capacity(columns: &List<ColumnDef>) -> u16
    requires { AreRowColumns columns.now }
    ensures value { result ≡ slot_count columns.now }
    ensures fits { bytes_for_slots (row_width_of columns.now) result ≤ 4096 }
    ensures most { (slots : ℕ) → bytes_for_slots (row_width_of columns.now) slots ≤ 4096 → slots ≤ result }
    ensures several { 4 ≤ result }
    ensures few { result ≤ 402 }
{
    Layout::of(columns.as_slice()).slots
}

/// How many bytes a row of these columns has.
pub fn row_width(columns: &[ColumnDef]) -> usize
    requires { length columns.now ≤ 16 }
    ensures value { result ≡ row_width_of columns.now }
    ensures few { result ≤ 4090 }
{
    let mut width = ROW_HEAD;
    for column in columns {
        width += column_width(column.ty);
    }
    width
}

/// How many bytes a value of a column has.
pub fn column_width(ty: ColType) -> usize
    ensures value { result ≡ width ty }
    ensures few { result ≤ 255 }
{
    match ty {
        ColType::Integer | ColType::Date => 4,
        ColType::Bigint => 8,
        ColType::Char(length) => length as usize,
    }
}

/// Lends some bytes from a place on.
pub fn part(bytes: &[u8], at: usize, size: usize) -> &[u8]
    requires { at + size ≤ length bytes.now }
    ensures bytes { result.now ≡ take size (drop at bytes.now) }
    ensures long { length result.now ≡ size }
{
    &bytes[at..at + size]
}
