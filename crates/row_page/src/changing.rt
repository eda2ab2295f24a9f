// Changes of one slot, and of all.
ghost use Rattle.std.specs.Prelude.{◌≡◌, ◌<◌, List, Option, Some, None, slice_set, replicate, IsTrue};
ghost use Rattle.mdc_ast.specs.declared.row.Row.{Row};
ghost use Rattle.mdc_ast.specs.Database.{fits_all};
ghost use Rattle.row_page.specs.RowPage.{empty_row_page, slot_count, IsRowPage};

use crate::RowShape;
use crate::slots::{empty, fill, head_of};
use crate::values::write_row;
use mdc_ast::Row;
use store_api::{Page, blank_page};

impl RowShape<'_> {
    /// Puts a row, which fits the columns, into a slot, in the place of any that is there. The page's other slots stay.
    pub fn put(&self, page: &mut Page, slot: u16, row: &Row)
        requires slot { slot < slot_count self.now.columns.now }
        requires fits { IsTrue (fits_all self.now.columns.now row.now.values) }
        ensures { (slots : List (Option Row)) → IsRowPage self.now.columns.now page.old slots → IsRowPage self.now.columns.now page.new (slice_set slots slot (Some row.now)) }
    {
        fill(page, slot);
        let layout = self.layout;
        let start = layout.start + slot as usize * layout.width;
        write_row(&mut page[start..start + layout.width], self.columns, row);
    }

    /// Empties a slot. Its bytes stay, and the page's other slots too.
    pub fn clear(&self, page: &mut Page, slot: u16)
        requires slot { slot < slot_count self.now.columns.now }
        ensures { (slots : List (Option Row)) → IsRowPage self.now.columns.now page.old slots → IsRowPage self.now.columns.now page.new (slice_set slots slot None) }
    {
        empty(page, slot);
    }

    /// Makes an empty row page, with zeros behind its head.
    pub fn wipe(&self, page: &mut Page)
        ensures bytes { page.new ≡ empty_row_page self.now.columns.now }
        ensures empty { IsRowPage self.now.columns.now page.new (replicate (slot_count self.now.columns.now) None) }
    {
        page.copy_from_slice(blank_page());
        store_api::put(page, 0, &head_of(self.layout.slots, 0));
    }
}
