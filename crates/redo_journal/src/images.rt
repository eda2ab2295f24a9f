// Images of pages under their numbers.
ghost use Rattle.std.specs.Prelude.{◌≡◌, ◌<◌, ◌++◌, ◌∷◌, [], OnOk, OnErr, IsTrue, ◌↔◌};
ghost use Rattle.std.specs.List.{All};

use crate::LentImages;
use mdc_values::Memory;
use std::alloc::Global;
use std::marker::Model;
use store_api::Page;

/// Pages under their numbers, which rise.
#[derive(Debug, Drop)]
pub struct Images {
    images: Vec<(u32, Box<Page>)>,
}

impl Model for Images {
    ghost use Rattle.redo_journal.specs.Images.{Numbered, AreRising, unboxed};

    ghost Value = { Numbered };

    ghost view = { λ it. unboxed it.images.items };

    ghost invariant = { λ it. AreRising (unboxed it.images.items) };
}

impl Images {
    /// No images. It takes no memory.
    pub fn new(alloc: Global) -> Images
        ensures { result ≡ [] }
    {
        Images {
            images: Vec::new(alloc),
        }
    }

    /// Lends them.
    pub fn lend(&self) -> LentImages<'_>
        ensures { result ≡ self.now }
    {
        LentImages::new(&self.images)
    }

    /// Takes room for so many more images, so that none is moved while they are put. The list stays.
    pub fn reserve(&mut self, n: usize) -> Result<(), Memory>
        ensures { self.new ≡ self.old }
    {
        self.images.reserve(n)?;
        Ok(())
    }

    /// Puts an image last. After `Memory` the list is as before.
    pub fn push(&mut self, p: u32, image: Box<Page>) -> Result<(), Memory>
        requires { All (λ before. before.0 < p) self.old }
        ensures ok { OnOk result (self.new ≡ self.old ++ (p, image.value) ∷ []) }
        ensures err { OnErr result (self.new ≡ self.old) }
    {
        self.images.push((p, image))?;
        Ok(())
    }

    /// Whether a number is above all that there are.
    pub(crate) fn rise_to(&self, p: u32) -> bool
        ensures { IsTrue result ↔ All (λ before. before.0 < p) self.now }
    {
        match self.images.last() {
            None => true,
            Some((last, _)) => *last < p,
        }
    }
}
