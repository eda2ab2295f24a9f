// The file that is worked on.
ghost use Rattle.std.specs.Prelude.{◌≡◌, ◌+◌, ◌≤◌, false, None, IsTrue, IfOk, OnOk};

use crate::calls::{commit, fetch, write};
use bench_plan::{Stop, make_empty, opened};
use byteorder::{BigEndian, ByteOrder};
use mdc_outside::Host;
use page_store::FileStore;
use std::alloc::Global;
use store_api::{MAX_PAGES, Page, Pages, Store};

// A database may grow to so many extents. An empty one then has as many pages as an extent.
const EXTENTS: u32 = 7680;

const EXTENT_PAGES: u32 = 32;

// How many pages a file grows by in one commit: so few that a commit of many pages needs more memory than the growth did.
const STEP: u32 = 64;

/// Makes a file of at least so many pages, and opens it.
pub fn made<H: Host + Drop>(alloc: Global, mut host: H, pages: u32) -> Result<FileStore<H>, Stop>
    ensures going { IfOk result (λ store. (⟦<FileStore<H> as Pages>⟧.state store).ended ≡ false) }
    ensures unmarked { IfOk result (λ store. (⟦<FileStore<H> as Pages>⟧.state store).marked ≡ None) }
{
    make_empty(&mut host, EXTENTS, EXTENT_PAGES)?;
    let mut store = opened(alloc, host)?;
    grow_to(&mut store, pages)?;
    Ok(store)
}

// Adds whole extents until there are at least so many pages.
fn grow_to<S: Store>(store: &mut S, pages: u32) -> Result<(), Stop>
    requires going { (S.state store.old).ended ≡ false }
    requires unmarked { (S.state store.old).marked ≡ None }
    ensures going { OnOk result ((S.state store.new).ended ≡ false) }
    ensures unmarked { OnOk result ((S.state store.new).marked ≡ None) }
{
    if pages > MAX_PAGES - EXTENT_PAGES {
        return Err(Stop::TooLarge);
    }
    let pages = pages.next_multiple_of(EXTENT_PAGES);
    for _ in 0..=pages / STEP {
        let missing = pages.saturating_sub(store.count());
        grow(store, missing.min(STEP))?;
    }
    Ok(())
}

// Adds pages, and commits them.
fn grow<S: Store>(store: &mut S, n: u32) -> Result<(), Stop>
    requires going { (S.state store.old).ended ≡ false }
    requires unmarked { (S.state store.old).marked ≡ None }
    ensures going { OnOk result ((S.state store.new).ended ≡ false) }
    ensures unmarked { OnOk result ((S.state store.new).marked ≡ None) }
{
    if !has_room(store.count(), n) {
        return Err(Stop::TooLarge);
    }
    store.grow(n)?;
    fetch(store, 0)?;
    let root = with_count(store.page(), store.count());
    write(store, 0, &root)?;
    commit(store)
}

// Whether a store of so many pages has room for n more.
fn has_room(count: u32, n: u32) -> bool
    ensures { IsTrue result → count + n ≤ 262289 }
{
    n <= MAX_PAGES && count <= MAX_PAGES - n
}

// A page 0 that states this number of pages.
fn with_count(root: &Page, count: u32) -> Page {
    let mut root = *root;
    BigEndian::write_u32(&mut root[8..], count);
    root
}
