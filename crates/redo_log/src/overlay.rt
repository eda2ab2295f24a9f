// The overlay: pages that are committed and not home.
ghost use Rattle.std.specs.Prelude.{◌≡◌, ◌==◌, ℕ, [], if◌then◌else◌, Some, IfOk, IfErr, OnOk, OnErr};
ghost use Rattle.store_api.specs.NumberedPages.{unboxed};
ghost use Rattle.redo_log.specs.Places.{IsThere, BelongsThere};
ghost use Rattle.redo_log.specs.Standing.{image_of};

use mdc_values::Memory;
use redo_journal::LentImages;
use std::alloc::Global;
use std::marker::Model;
use store_api::Page;

/// Pages under their numbers, which rise: of each page its newest image.
#[derive(Debug, Drop)]
pub struct Overlay {
    images: Vec<(u32, Box<Page>)>,
}

impl Model for Overlay {
    ghost use Rattle.redo_journal.specs.Images.{Numbered, AreRising, unboxed};

    ghost Value = { Numbered };

    ghost view = { λ it. unboxed it.images.items };

    ghost invariant = { λ it. AreRising (unboxed it.images.items) };
}

impl Overlay {
    /// No images. It takes no memory.
    pub fn new(alloc: Global) -> Overlay
        ensures { result ≡ [] }
    {
        Overlay {
            images: Vec::new(alloc),
        }
    }

    /// Lends them.
    pub fn lend(&self) -> LentImages<'_>
        ensures { result ≡ self.now }
    {
        LentImages::new(&self.images)
    }

    /// Puts an image in the place of the older one of its page, or where its number belongs. After `Memory` all is as before.
    pub fn put(&mut self, p: u32, image: Box<Page>) -> Result<(), Memory>
        ensures ok { OnOk result ((q : ℕ) → image_of self.new q ≡ (if p == q then Some image.value else image_of self.old q)) }
        ensures err { OnErr result (self.new ≡ self.old) }
    {
        let at = match place_of(&self.images, p) {
            Ok(at) => {
                self.images[at] = (p, image);
                return Ok(());
            }
            Err(at) => at,
        };
        self.images.insert(at, (p, image))?;
        Ok(())
    }
}

// Where the image of a page lies, or else the place at which its number belongs. A log has no more than 63 images.
fn place_of(images: &[(u32, Box<Page>)], p: u32) -> Result<usize, usize>
    ensures found { IfOk result (λ at. IsThere p at (unboxed images.now)) }
    ensures missing { IfErr result (λ at. BelongsThere p at (unboxed images.now)) }
{
    for at in 0..images.len() {
        let number = images[at].0;
        if number == p {
            return Ok(at);
        }
        if number > p {
            return Err(at);
        }
    }
    Err(images.len())
}
