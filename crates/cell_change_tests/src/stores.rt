// Stores in memory.
ghost use Rattle.std.specs.Prelude.{◌≡◌, false, None, IfOk};

use entry_tree_tests::store_of;
use std::alloc::Global;
use std::test::Fail;
use store_api::{MemStore, Pages};

// How many pages lie before the extent map: the root page and the table pages.
const BEFORE_MAP: u32 = 17;

/// A store of a database of at most 512 extents, none of which is in use.
pub fn fresh_store(alloc: Global) -> Result<MemStore, Fail>
    ensures going { IfOk result (λ store. (⟦<MemStore as Pages>⟧.state store).ended ≡ false) }
    ensures unmarked { IfOk result (λ store. (⟦<MemStore as Pages>⟧.state store).marked ≡ None) }
{
    store_with_map(alloc, 1)
}

/// A store of a database whose extent map has so many pages, at most 512 extents each. None is in use.
pub fn store_with_map(alloc: Global, map_pages: u32) -> Result<MemStore, Fail>
    ensures going { IfOk result (λ store. (⟦<MemStore as Pages>⟧.state store).ended ≡ false) }
    ensures unmarked { IfOk result (λ store. (⟦<MemStore as Pages>⟧.state store).marked ≡ None) }
{
    let mut pages = Vec::new(alloc);
    for _ in 0..BEFORE_MAP.saturating_add(map_pages) {
        pages.push([0; 4096])?;
    }
    store_of(alloc, pages)
}
