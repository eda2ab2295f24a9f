// Whether a page is a row page, judged byte by byte.
ghost use Rattle.std.specs.Prelude.{◌≡◌, ◌↔◌, IsSome, IfSome, IsTrue, length, replicate};
ghost use Rattle.row_page.specs.Row.{AreRowColumns};
ghost use Rattle.row_page.specs.RowPage.{count_rows, rows_of, AreRowsWritten, AreSpareBitsBlank, AreSpareBytesBlank, IsHeaded, IsRowPage};

use crate::RowPageView;
use crate::slots::{has_head, is_filled};
use mdc_ast::ColumnDef;
use mdc_values::List;
use store_api::Page;

impl<'p> RowPageView<'p> {
    /// A view of a page that is a row page of these columns. All of the page is judged for it, but for empty slots.
    pub fn read(page: &'p Page, columns: &'p List<ColumnDef>) -> Option<RowPageView<'p>>
        requires { AreRowColumns columns.now }
        ensures judged { IsSome result ↔ IsRowPage columns.now page.now (rows_of columns.now page.now) }
        ensures seen { IfSome result (λ view. (view.page.now ≡ page.now) × (view.columns.now ≡ columns.now)) }
    {
        let view = RowPageView::look(page, columns)?;
        if view.is_row_page() { Some(view) } else { None }
    }

    /// Whether all that is examined is as it is written.
    fn is_row_page(&self) -> bool
        ensures { IsTrue result ↔ (IsHeaded self.now.columns.now self.now.page.now × AreRowsWritten self.now.columns.now self.now.page.now × AreSpareBitsBlank self.now.columns.now self.now.page.now × AreSpareBytesBlank self.now.columns.now self.now.page.now) }
    {
        self.is_headed()
            && self.are_rows_written()
            && self.are_spare_bits_blank()
            && self.are_spare_bytes_blank()
    }

    /// Whether the head has the number of the rows that are there.
    fn is_headed(&self) -> bool
        ensures { IsTrue result ↔ IsHeaded self.now.columns.now self.now.page.now }
    {
        has_head(self.page, self.layout.slots, self.count_filled())
    }

    /// How many slots have a row.
    fn count_filled(&self) -> u16
        ensures { result ≡ count_rows (rows_of self.now.columns.now self.now.page.now) }
    {
        let mut count = 0;
        for slot in 0..self.layout.slots {
            if is_filled(self.page, slot) {
                count += 1;
            }
        }
        count
    }

    /// Whether each row is written as rows are.
    fn are_rows_written(&self) -> bool
        ensures { IsTrue result ↔ AreRowsWritten self.now.columns.now self.now.page.now }
    {
        for slot in 0..self.layout.slots {
            if let Some(row) = self.row(slot) {
                if !row.is_written() {
                    return false;
                }
            }
        }
        true
    }

    fn are_spare_bits_blank(&self) -> bool
        ensures { IsTrue result ↔ AreSpareBitsBlank self.now.columns.now self.now.page.now }
    {
        let end = 8 * self.layout.slots.div_ceil(8);
        for slot in self.layout.slots..end {
            if is_filled(self.page, slot) {
                return false;
            }
        }
        true
    }

    fn are_spare_bytes_blank(&self) -> bool
        ensures { IsTrue result ↔ AreSpareBytesBlank self.now.columns.now self.now.page.now }
    {
        let end = self.layout.start + self.layout.slots as usize * self.layout.width;
        let page = self.page;
        let bytes = &page[..];
        are_zeros(&bytes[end..])
    }
}

/// Whether there are zeros alone.
pub fn are_zeros(bytes: &[u8]) -> bool
    ensures { IsTrue result ↔ (bytes.now ≡ replicate (length bytes.now) 0) }
{
    bytes.iter().all(|byte| *byte == 0)
}
