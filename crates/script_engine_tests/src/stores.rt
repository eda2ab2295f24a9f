// Stores in memory, and engines on them.
ghost use Rattle.std.specs.Prelude.{◌≡◌, false, None, IfOk};
ghost use Rattle.script_engine.specs.Serving.{MayCall};

use entry_tree_tests::{extents_of, store_of};
use script_engine::Engine;
use std::alloc::Global;
use std::test::Fail;
use store_api::{MemStore, Page, Pages, Store, blank_page, put};

// How many pages lie before the extents: the root page, the table pages and one of the map.
const FIRST_PAGES: u32 = 18;

/// A store of a database of at most 512 extents, none of which is in use.
pub fn fresh_store(alloc: Global) -> Result<MemStore, Fail>
    ensures going { IfOk result (λ store. (⟦<MemStore as Pages>⟧.state store).ended ≡ false) }
    ensures unmarked { IfOk result (λ store. (⟦<MemStore as Pages>⟧.state store).marked ≡ None) }
{
    let mut pages = Vec::new(alloc);
    pages.push(root_page())?;
    for _ in 1..FIRST_PAGES {
        pages.push([0; 4096])?;
    }
    store_of(alloc, pages)
}

// The root page of the first pages.
fn root_page() -> Page {
    let mut page = *blank_page();
    put(&mut page, 0, b"ROOT\x00\x00\x00\x01");
    put(&mut page, 8, &FIRST_PAGES.to_be_bytes());
    page
}

/// An engine on a store of at most so many extents of two pages.
pub fn engine_on<S: Store + Drop>(alloc: Global, store: S, cap: u32) -> Result<Engine<S>, Fail>
    requires going { (S.state store).ended ≡ false }
    requires unmarked { (S.state store).marked ≡ None }
    ensures may { IfOk result (λ engine. MayCall S.Pages engine) }
{
    match Engine::open(alloc, store, extents_of(cap)?) {
        Ok(engine) => Ok(engine),
        Err(stopped) => Err(stopped.stop)?,
    }
}
