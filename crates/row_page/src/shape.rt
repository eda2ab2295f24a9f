// The columns of row pages, and where these have their rows.
ghost use Rattle.std.specs.Prelude.{◌≡◌, ◌≤◌, List, Option, IsTrue, is_some, IsSome, IfSome, ◌↔◌};
ghost use Rattle.mdc_ast.specs.declared.row.Row.{Row};
ghost use Rattle.row_page.specs.Layout.{IsLayoutOf};
ghost use Rattle.row_page.specs.Row.{AreRowColumns};
ghost use Rattle.row_page.specs.RowPage.{slot_count, IsRowPage, StartsAsRowPage};

use crate::RowPageView;
use crate::layout::Layout;
use crate::slots::starts_with;
use mdc_ast::ColumnDef;
use mdc_values::List;
use store_api::Page;

/// What all row pages of the same columns have in common: the columns, and where rows lie. It is worked out once, and serves
/// each page that is looked at or changed. Each slot is below `slots`.
#[derive(Clone, Copy, Debug)]
pub struct RowShape<'c> {
    pub(crate) columns: &'c [ColumnDef],
    pub(crate) layout: Layout,
    ghost laid_out: { IsLayoutOf columns.now layout },
}

impl<'c> RowShape<'c> {
    /// The shape of row pages of these columns.
    pub fn of(columns: &'c List<ColumnDef>) -> RowShape<'c>
        requires { AreRowColumns columns.now }
        ensures { result.columns.now ≡ columns.now }
    {
        let columns = columns.as_slice();
        let layout = Layout::of(columns);
        RowShape { columns, layout }
    }

    /// How many slots a page has: the most that fit.
    pub fn slots(&self) -> u16
        ensures value { result ≡ slot_count self.now.columns.now }
        ensures few { result ≤ 402 }
    {
        self.layout.slots
    }

    /// A view of a page that begins as a row page of this shape. It costs the head alone. The bytes behind the head may be
    /// any: then the rows are those that they happen to be.
    pub fn look<'p>(&self, page: &'p Page) -> Option<RowPageView<'p>>
    where
        'c: 'p,
        ensures starts { IsSome result ↔ StartsAsRowPage self.now.columns.now page.now }
        ensures there { (slots : List (Option Row)) → IsRowPage self.now.columns.now page.now slots → IsTrue (is_some result) }
        ensures seen { IfSome result (λ view. (view.page.now ≡ page.now) × (view.columns.now ≡ self.now.columns.now)) }
    {
        if !starts_with(page, self.layout.slots) {
            return None;
        }
        Some(RowPageView {
            page,
            columns: self.columns,
            layout: self.layout,
        })
    }
}
