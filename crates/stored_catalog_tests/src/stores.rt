// Stores in memory.
ghost use Rattle.std.specs.Prelude.{◌≡◌, false, None, IfOk};

use entry_tree_tests::store_of;
use std::alloc::Global;
use std::test::Fail;
use store_api::{MemStore, Page, Pages, blank_page, put};

// How many pages lie before the extents: the root page, the table pages and one of the map.
const FIRST_PAGES: u32 = 18;

/// A store of a database of at most 512 extents, none of which is in use.
pub fn fresh_store(alloc: Global) -> Result<MemStore, Fail>
    ensures going { IfOk result (λ store. (⟦<MemStore as Pages>⟧.state store).ended ≡ false) }
    ensures unmarked { IfOk result (λ store. (⟦<MemStore as Pages>⟧.state store).marked ≡ None) }
{
    store_with(alloc, FIRST_PAGES)
}

/// A store of so many pages, which are zeros behind the root page.
pub fn store_with(alloc: Global, many: u32) -> Result<MemStore, Fail>
    ensures going { IfOk result (λ store. (⟦<MemStore as Pages>⟧.state store).ended ≡ false) }
    ensures unmarked { IfOk result (λ store. (⟦<MemStore as Pages>⟧.state store).marked ≡ None) }
{
    let mut pages = Vec::new(alloc);
    pages.push(root_page(many))?;
    for _ in 1..many {
        pages.push([0; 4096])?;
    }
    store_of(alloc, pages)
}

/// The root page of a store of so many pages.
pub fn root_page(many: u32) -> Page {
    let mut page = *blank_page();
    put(&mut page, 0, b"ROOT\x00\x00\x00\x01");
    put(&mut page, 8, &many.to_be_bytes());
    page
}
