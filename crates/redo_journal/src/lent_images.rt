// Images of pages that are lent to the journal and on their way home.
ghost use Rattle.std.specs.Prelude.{◌≡◌, ◌<◌, Some, length, slice_get};
ghost use Rattle.redo_journal.specs.Images.{IsPageImage};

use std::marker::Model;
use store_api::Page;

/// Pages under their numbers, which rise, in boxes that are lent.
#[derive(Debug, Drop)]
pub struct LentImages<'a> {
    images: &'a [(u32, Box<Page>)],
}

impl<'a> Model for LentImages<'a> {
    ghost use Rattle.redo_journal.specs.Images.{Numbered, AreRising, unboxed};

    ghost Value = { Numbered };

    ghost view = { λ it. unboxed it.images.now };

    ghost invariant = { λ it. AreRising (unboxed it.images.now) };
}

impl<'a> LentImages<'a> {
    ghost use Rattle.redo_journal.specs.Images.{AreRising, IsPageImage, unboxed};

    /// These images.
    pub fn new(images: &'a [(u32, Box<Page>)]) -> LentImages<'a>
        requires { AreRising (unboxed images.now) }
        ensures { result ≡ unboxed images.now }
    {
        LentImages { images }
    }

    /// How many there are.
    pub fn len(&self) -> usize
        ensures len { result ≡ length self.now }
        ensures rising { AreRising self.now }
    {
        self.images.len()
    }

    /// The number and the page at a place, counted from 0.
    pub fn at(&self, i: usize) -> (u32, &'a Page)
        requires { i < length self.now }
        ensures image { slice_get self.now i ≡ Some (result.0, result.1.now) }
        ensures bounds { IsPageImage (result.0, result.1.now) }
    {
        let images = self.images;
        let (number, page) = &images[i];
        known(*number, page)
    }
}

// An image, whose number and page are within their bounds.
fn known(number: u32, page: &Page) -> (u32, &Page)
    ensures image { (result.0 ≡ number) × (result.1.now ≡ page.now) }
    ensures bounds { IsPageImage (result.0, result.1.now) }
{
    (number, page)
}
