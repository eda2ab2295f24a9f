// Where the extents lie among the pages.
ghost use Rattle.std.specs.Prelude.{◌≡◌, ◌+◌, ◌<◌, ◌≤◌, ◌↔◌, ℕ, IsTrue};
ghost use Rattle.store_api.specs.Extents.{first_count, first_page_of};
ghost use Rattle.extent_map.specs.Owners.{extent_of, place_in_extent, IsExtentPage};

use store_api::layout::{FIRST_MAP_PAGE, MAP_PAGE_EXTENTS};
use store_api::{MAX_PAGES, Shape};

/// The first page of an extent.
pub fn first_page(shape: Shape, e: u32) -> u32
    requires { e < shape.extents }
    ensures { result ≡ first_page_of shape.extents shape.extent_pages e }
{
    end_of(shape, e) - shape.extent_pages
}

/// Whether a page lies in an extent.
pub fn has_page(shape: Shape, p: u32) -> bool
    ensures { IsTrue result ↔ IsExtentPage shape p }
{
    begin(shape) <= p && p < end_of(shape, shape.extents - 1)
}

/// The page behind an extent.
pub(crate) fn end_of(shape: Shape, e: u32) -> u32
    requires { e < shape.extents }
    ensures end { result ≡ first_page_of shape.extents shape.extent_pages (e + 1) }
    ensures few { result ≤ MAX_PAGES }
{
    begin(shape) + (e + 1) * shape.extent_pages
}

// The first page behind the map.
fn begin(shape: Shape) -> u32
    ensures { result ≡ first_count shape.extents }
{
    FIRST_MAP_PAGE + (shape.extents + MAP_PAGE_EXTENTS - 1) / MAP_PAGE_EXTENTS
}

/// How many extents so many pages have whole.
pub(crate) fn whole_extents(shape: Shape, count: u32) -> u32
    ensures within { result ≤ shape.extents }
    ensures behind { (e : ℕ) → result ≤ e → e < shape.extents → count < first_page_of shape.extents shape.extent_pages (e + 1) }
{
    let pages = count.saturating_sub(begin(shape));
    shape.extents.min(pages / shape.extent_pages)
}

/// The extent that a page lies in.
pub(crate) fn extent_of(shape: Shape, p: u32) -> u32
    requires { IsExtentPage shape p }
    ensures value { result ≡ extent_of shape p }
    ensures below { result < shape.extents }
{
    (p - begin(shape)) / shape.extent_pages
}

/// The place of a page in its extent.
pub(crate) fn place_of(shape: Shape, p: u32) -> u32
    requires { IsExtentPage shape p }
    ensures value { result ≡ place_in_extent shape p }
    ensures below { result < shape.extent_pages }
{
    (p - begin(shape)) % shape.extent_pages
}
