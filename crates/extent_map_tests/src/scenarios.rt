// What claims and returns answer over several calls.
ghost use Rattle.std.specs.Prelude.{◌≡◌, ◌<◌, false, None};

use extent_map::{Kind, SpaceFault, SpaceNotes, has_page, kind_of};
use store_api::{Pages, Shape, Store, StoreFault, bring, stated_count};

/// The four extents as blocks of table 7, what a fifth claim answers, and the extent that a block of table 8 gets once the
/// third was given back.
pub fn fill<S: Store>(
    shape: Shape,
    notes: &mut SpaceNotes,
    store: &mut S,
) -> Result<([u32; 4], Result<u32, SpaceFault>, u32), SpaceFault>
    requires going { (S.state store.old).ended ≡ false }
    requires four { shape.extents ≡ 4 }
{
    let first = notes.claim_block(shape, store, 7)?;
    let second = notes.claim_block(shape, store, 7)?;
    let third = notes.claim_block(shape, store, 7)?;
    let fourth = notes.claim_block(shape, store, 7)?;
    let fifth = notes.claim_block(shape, store, 7);
    notes.give_back(shape, store, 2)?;
    let again = notes.claim_block(shape, store, 8)?;
    Ok(([first, second, third, fourth], fifth, again))
}

/// Three index pages of extents of two pages, what the first extent is behind each of the first two and once the first
/// page was given back, what the second extent is, and the page that is claimed then.
pub fn claim_index_pages<S: Store>(
    shape: Shape,
    notes: &mut SpaceNotes,
    store: &mut S,
) -> Result<([u32; 4], [Kind; 4]), SpaceFault>
    requires going { (S.state store.old).ended ≡ false }
    requires four { shape.extents ≡ 4 }
{
    let first = notes.claim_index_page(shape, store)?;
    let one = kind_of(shape, store, 0)?;
    let second = notes.claim_index_page(shape, store)?;
    let both = kind_of(shape, store, 0)?;
    let third = notes.claim_index_page(shape, store)?;
    let next = kind_of(shape, store, 1)?;
    if !has_page(shape, first) {
        return Err(SpaceFault::Full(0));
    }
    notes.give_index_page(shape, store, first)?;
    let left = kind_of(shape, store, 0)?;
    let again = notes.claim_index_page(shape, store)?;
    Ok(([first, second, third, again], [one, both, next, left]))
}

/// The extent that is claimed under a mark, and the one that is claimed after going back.
pub fn claim_and_undo<S: Store>(
    shape: Shape,
    notes: &mut SpaceNotes,
    store: &mut S,
) -> Result<[u32; 2], SpaceFault>
    requires going { (S.state store.old).ended ≡ false }
    requires unmarked { (S.state store.old).marked ≡ None }
{
    store.mark();
    let meanwhile = notes.claim_block(shape, store, 7)?;
    store.undo();
    notes.forget();
    Ok([meanwhile, notes.claim_block(shape, store, 7)?])
}

/// The extent that is claimed, how many pages there are then, and how many page 0 states.
pub fn claim_block_counted<S: Store>(
    shape: Shape,
    notes: &mut SpaceNotes,
    store: &mut S,
) -> Result<[u32; 3], SpaceFault>
    requires going { (S.state store.old).ended ≡ false }
{
    let e = notes.claim_block(shape, store, 7)?;
    let count = store.count();
    if count == 0 {
        return Ok([e, 0, 0]);
    }
    bring(store, 0)?;
    Ok([e, count, stated_count(store.page())])
}

/// What an extent is.
pub fn kind_in<S: Store>(shape: Shape, store: &mut S, e: u32) -> Result<Kind, StoreFault>
    requires going { (S.state store.old).ended ≡ false }
    requires below { e < shape.extents }
{
    kind_of(shape, store, e)
}

/// The last of so many claims of a block, one at least.
pub fn claim_many<S: Store>(
    shape: Shape,
    notes: &mut SpaceNotes,
    store: &mut S,
    n: u32,
) -> Result<u32, SpaceFault>
    requires going { (S.state store.old).ended ≡ false }
{
    let mut last = notes.claim_block(shape, store, 7)?;
    for _ in 1..n {
        last = notes.claim_block(shape, store, 7)?;
    }
    Ok(last)
}
