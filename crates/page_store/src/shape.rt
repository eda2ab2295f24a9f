// The shape that a birth page states.
ghost use Rattle.std.specs.Prelude.{◌≡◌, MatchOption};
ghost use Rattle.page_store.specs.Shape.{IsBirth, extents_in, extent_pages_in};

use crate::fresh::birth_page;
use crate::number::number_at;
use store_api::{Page, Shape};

/// What a birth page states, or nothing where the page isn't one.
pub(crate) fn shape_in(page: &Page) -> Option<Shape>
    ensures { MatchOption result (IsBirth page.now → ⊥) (λ shape. IsBirth page.now × (shape.extents ≡ extents_in page.now) × (shape.extent_pages ≡ extent_pages_in page.now)) }
{
    let extents = number_at(page, 8);
    let extent_pages = number_at(page, 12);
    let shape = Shape::new(extents, extent_pages)?;
    if *page != birth_page(shape.extents, shape.extent_pages) {
        return None;
    }
    Some(shape)
}
