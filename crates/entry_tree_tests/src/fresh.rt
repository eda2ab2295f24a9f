// The stores that these tests begin with.
ghost use Rattle.std.specs.Prelude.{◌≡◌, false, None, IfOk};

use crate::stores::store_of;
use std::alloc::{AllocError, Global};
use std::test::Fail;
use store_api::{MemStore, Page, Pages};

// How many pages lie before the map: the root page and the tables.
const BEFORE_MAP: u32 = 17;

/// The pages before the extents of a database of at most 512 extents. Page 0 states so many pages.
pub fn first_pages(alloc: Global, count: u8, map: Page) -> Result<Vec<Page>, AllocError> {
    let mut pages = Vec::new(alloc);
    let mut root = [0; 4096];
    root[11] = count;
    pages.push(root)?;
    for _ in 1..BEFORE_MAP {
        pages.push([0; 4096])?;
    }
    pages.push(map)?;
    Ok(pages)
}

/// A store of a database of at most 512 extents, none of which is in use.
pub fn fresh_store(alloc: Global) -> Result<MemStore, Fail>
    ensures going { IfOk result (λ store. (⟦<MemStore as Pages>⟧.state store).ended ≡ false) }
    ensures unmarked { IfOk result (λ store. (⟦<MemStore as Pages>⟧.state store).marked ≡ None) }
{
    store_of(alloc, first_pages(alloc, 18, [0; 4096])?)
}
