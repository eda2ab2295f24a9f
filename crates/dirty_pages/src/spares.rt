// Boxes that are used again.
ghost use Rattle.std.specs.Prelude.{◌≡◌, IfOk};

use mdc_values::Memory;
use std::alloc::Global;
use store_api::Page;

// The most boxes that are kept for later.
const MOST: usize = 1024;

/// Boxes of pages that are used again, so that a page costs no call of the allocator where one was let go before.
#[derive(Debug, Drop)]
pub struct Spares {
    alloc: Global,
    boxes: Vec<Box<Page>>,
}

impl Spares {
    /// No boxes. It takes no memory.
    pub fn new(alloc: Global) -> Spares {
        Spares {
            alloc,
            boxes: Vec::new(alloc),
        }
    }

    /// A box with these bytes.
    pub fn filled(&mut self, bytes: &Page) -> Result<Box<Page>, Memory>
        ensures { IfOk result (λ page. page.value ≡ bytes.now) }
    {
        match self.boxes.pop() {
            Some(page) => Ok(overwritten(page, bytes)),
            None => Ok(Box::new(self.alloc, *bytes)?),
        }
    }

    /// Takes a box that is no longer needed. Where there is no room for it, it is let go.
    pub fn give(&mut self, page: Box<Page>) {
        if self.boxes.len() < MOST {
            let _ = self.boxes.push(page);
        }
    }

    /// Takes the boxes of these pages, as `give` does.
    pub fn give_all(&mut self, pages: Vec<(u32, Box<Page>)>) {
        for (_, page) in pages {
            self.give(page);
        }
    }
}

// The box with these bytes in it.
fn overwritten(mut page: Box<Page>, bytes: &Page) -> Box<Page>
    ensures { result.value ≡ bytes.now }
{
    *page = *bytes;
    page
}
