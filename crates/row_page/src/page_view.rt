// A page of rows, seen slot by slot.
ghost use Rattle.std.specs.Prelude.{◌≡◌, ◌≤◌, ◌<◌, List, Option, false, is_some, not, true, IsSome, IfSome, IsTrue, ◌↔◌, MatchOption, Some};
ghost use Rattle.mdc_ast.specs.declared.row.Row.{Row};
ghost use Rattle.row_page.specs.Layout.{IsLayoutOf};
ghost use Rattle.row_page.specs.Row.{AreRowColumns};
ghost use Rattle.row_page.specs.RowPage.{count_rows, is_slot_filled, slot_bytes, slot_count, stated_rows, IsFirstSlot, IsRowPage, StartsAsRowPage};

use crate::layout::{Layout, part};
use crate::slots::{bits_from, filled_from, is_filled, rows_stated};
use crate::{RowShape, RowView};
use mdc_ast::ColumnDef;
use mdc_values::List;
use store_api::Page;

/// A view of a page of rows. Each slot is below `capacity`.
#[derive(Clone, Copy, Debug)]
pub struct RowPageView<'p> {
    pub(crate) page: &'p Page,
    pub(crate) columns: &'p [ColumnDef],
    pub(crate) layout: Layout,
    ghost laid_out: { IsLayoutOf columns.now layout },
}

impl<'p> RowPageView<'p> {
    /// A view of a page that begins as a row page of these columns, as `RowShape::look` has it.
    pub fn look(page: &'p Page, columns: &'p List<ColumnDef>) -> Option<RowPageView<'p>>
        requires { AreRowColumns columns.now }
        ensures starts { IsSome result ↔ StartsAsRowPage columns.now page.now }
        ensures there { (slots : List (Option Row)) → IsRowPage columns.now page.now slots → IsTrue (is_some result) }
        ensures seen { IfSome result (λ view. (view.page.now ≡ page.now) × (view.columns.now ≡ columns.now)) }
    {
        RowShape::of(columns).look(page)
    }

    /// How many rows the page states. In a row page that is how many slots have a row.
    pub fn rows(&self) -> u16
        ensures stated { result ≡ stated_rows self.now.page.now }
        ensures counted { (slots : List (Option Row)) → IsRowPage self.now.columns.now self.now.page.now slots → result ≡ count_rows slots }
    {
        rows_stated(self.page)
    }

    /// The row in a slot. It is None exactly where the slot is empty.
    pub fn row(&self, slot: u16) -> Option<RowView<'p>>
        requires { slot < slot_count self.now.columns.now }
        ensures { MatchOption result (is_slot_filled self.now.page.now slot ≡ false) (λ row. (is_slot_filled self.now.page.now slot ≡ true) × (row.columns.now ≡ self.now.columns.now) × (row.bytes.now ≡ slot_bytes self.now.columns.now self.now.page.now slot)) }
    {
        if !is_filled(self.page, slot) {
            return None;
        }
        Some(self.filled_row(slot))
    }

    /// The row in a slot that has one. It isn't tested again whether it has.
    pub fn filled_row(&self, slot: u16) -> RowView<'p>
        requires slot { slot < slot_count self.now.columns.now }
        requires filled { is_slot_filled self.now.page.now slot ≡ true }
        ensures columns { result.columns.now ≡ self.now.columns.now }
        ensures bytes { result.bytes.now ≡ slot_bytes self.now.columns.now self.now.page.now slot }
    {
        let start = self.layout.start + slot as usize * self.layout.width;
        let page = self.page;
        let bytes = &page[..];
        RowView::of(&bytes[start..start + self.layout.width], self.columns)
    }

    /// The lowest slot with a row, of those from a place on.
    pub fn next_filled(&self, from: u16) -> Option<u16>
        ensures { IsFirstSlot (is_slot_filled self.now.page.now) from (slot_count self.now.columns.now) result }
    {
        let mut slot = from;
        while slot < self.layout.slots {
            if slot % 8 == 0 && bits_from(self.page, slot) == 0 {
                slot += 8;
            } else if is_filled(self.page, slot) {
                return Some(slot);
            } else {
                slot += 1;
            }
        }
        None
    }

    /// The lowest empty slot.
    pub fn first_empty(&self) -> Option<u16>
        ensures { IsFirstSlot (λ slot. not (is_slot_filled self.now.page.now slot)) 0 (slot_count self.now.columns.now) result }
    {
        let mut slot = 0;
        while slot < self.layout.slots {
            let filled = filled_from(self.page, slot);
            if filled < 64 {
                return self.if_there(slot + filled);
            }
            slot += 64;
        }
        None
    }

    /// A slot, unless it lies past those of the page.
    fn if_there(&self, slot: u16) -> Option<u16>
        ensures { MatchOption result (slot_count self.now.columns.now ≤ slot) (λ found. (found ≡ slot) × (found < slot_count self.now.columns.now)) }
    {
        if slot < self.layout.slots {
            Some(slot)
        } else {
            None
        }
    }
}
