// What a store answers over several calls.
ghost use Rattle.std.specs.Prelude.{◌≡◌, ◌+◌, ◌≤◌, length, false, None};

use crate::first_byte;
use store_api::{MAX_PAGES, Page, Store, StoreFault, add_pages, patch_page, write_page};

/// The first byte of page 1 as it is, after it was edited under a mark and a page was added, and after going back.
pub fn go_back<S: Store>(store: &mut S) -> Result<[u8; 3], StoreFault>
    requires going { (S.state store.old).ended ≡ false }
    requires unmarked { (S.state store.old).marked ≡ None }
    requires two { 2 ≤ length (S.state store.old).work }
    requires room { length (S.state store.old).work + 1 ≤ MAX_PAGES }
{
    let before = first_byte(store, 1)?;
    store.mark();
    patch_page(store, 1, 0, &[8])?;
    add_pages(store, 1)?;
    let meanwhile = first_byte(store, 1)?;
    store.undo();
    Ok([before, meanwhile, first_byte(store, 1)?])
}

/// The first byte of page 1 in the work and in the base, after it was written over and after going back to the base, and
/// how many pages differ.
pub fn roll_back<S: Store>(store: &mut S, bytes: &Page) -> Result<([u8; 3], [u32; 2]), StoreFault>
    requires going { (S.state store.old).ended ≡ false }
    requires two { 2 ≤ length (S.state store.old).work }
    requires two_in_base { 2 ≤ length (S.state store.old).base }
{
    write_page(store, 1, bytes)?;
    let changed = store.written();
    let work = first_byte(store, 1)?;
    store.committed(1)?;
    let base = store.page()[0];
    store.rollback();
    let written = [changed, store.written()];
    Ok(([work, base, first_byte(store, 1)?], written))
}
