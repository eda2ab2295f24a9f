// Page 0: the root page, which states the page count and the version.
ghost use Rattle.std.specs.Prelude.{◌≡◌, ◌≤◌, MatchOption, drop};
ghost use Rattle.byteorder.specs.Endian.{big_number};
ghost use Rattle.store_api.specs.StoreState.{stated_in};
ghost use Rattle.page_store.specs.Opening.{IsRoot};
ghost use Rattle.store_api.specs.declared.pages.TheConstants.{MAX_PAGES};

use crate::fresh::first_count;
use crate::number::number_at;
use store_api::{Page, Shape, stated_count};

/// The page count that page 0 states, or nothing where the page hasn't its form.
pub(crate) fn count_in(page: &Page, shape: Shape) -> Option<u32>
    ensures { MatchOption result (IsRoot shape.extents shape.extent_pages page.now → ⊥) (λ count. IsRoot shape.extents shape.extent_pages page.now × (count ≡ stated_in page.now) × (18 ≤ count) × (count ≤ MAX_PAGES)) }
{
    let count = stated_count(page);
    let first = first_count(shape.extents);
    if !page.starts_with(b"ROOT") || count < first {
        return None;
    }
    let added = count - first;
    if added % shape.extent_pages != 0 || added / shape.extent_pages > shape.extents {
        return None;
    }
    Some(count)
}

/// The version that page 0 states.
pub(crate) fn version_in(page: &Page) -> u32
    ensures { result ≡ big_number 4 (drop 4 page.now) }
{
    number_at(page, 4)
}
