ghost use Rattle.std.specs.Prelude.{◌≡◌, ◌≤◌, None, IfOk};

use crate::{claim_and_undo, claim_block_counted, claim_index_pages, claim_many, fill, kind_in};
use extent_map::{Kind, SpaceFault, SpaceNotes};
use std::alloc::{AllocError, Global};
use std::test::Fail;
use store_api::{Damage, MemStore, Page, Pages, Shape, StoreFault};

// A store whose page 17 begins with these bytes, and which has so many pages.
fn store_of(alloc: Global, entry: [u8; 8], count: u32) -> Result<MemStore, AllocError>
    requires { count ≤ 100 }
    ensures { IfOk result (λ store. (⟦<MemStore as Pages>⟧.state store).marked ≡ None) }
{
    let mut pages = Vec::new(alloc);
    for p in 0..count {
        let mut page: Page = [0; 4096];
        if p == 17 {
            page[..8].copy_from_slice(&entry);
        }
        pages.push(page)?;
    }
    Ok(MemStore::new(alloc, pages))
}

#[test]
fn blocks_take_the_lowest_free_extent(rt: HostRuntime) -> Result<(), Fail> {
    let mut store = store_of(rt.alloc(), [0; 8], 18)?;
    let shape = Shape::new(4, 2).ok_or("the shape")?;
    let mut notes = SpaceNotes::new();
    let (claimed, fifth, again) = fill(shape, &mut notes, &mut store)?;
    assert_eq!(rt; claimed, [0, 1, 2, 3]);
    assert_eq!(rt; fifth, Err(SpaceFault::Full(4)));
    assert_eq!(rt; again, 2);
    assert_eq!(rt; kind_in(shape, &mut store, 1)?, Kind::Block(7));
    Ok(())
}

#[test]
fn index_pages_fill_an_extent_before_the_next(rt: HostRuntime) -> Result<(), Fail> {
    let mut store = store_of(rt.alloc(), [0; 8], 18)?;
    let shape = Shape::new(4, 2).ok_or("the shape")?;
    let mut notes = SpaceNotes::new();
    let (pages, kinds) = claim_index_pages(shape, &mut notes, &mut store)?;
    assert_eq!(rt; pages, [18, 19, 20, 18]);
    assert_eq!(rt; kinds[0], Kind::Index(1));
    assert_eq!(rt; kinds[1], Kind::Index(3));
    assert_eq!(rt; kinds[2], Kind::Index(1));
    assert_eq!(rt; kinds[3], Kind::Index(2));
    Ok(())
}

#[test]
fn a_claim_is_undone_and_the_notes_forgotten(rt: HostRuntime) -> Result<(), Fail> {
    let mut store = store_of(rt.alloc(), [0; 8], 18)?;
    let shape = Shape::new(4, 2).ok_or("the shape")?;
    let mut notes = SpaceNotes::new();
    assert_eq!(rt; claim_and_undo(shape, &mut notes, &mut store)?, [0, 0]);
    Ok(())
}

#[test]
fn a_claim_grows_the_file_and_states_its_pages(rt: HostRuntime) -> Result<(), Fail> {
    let mut store = store_of(rt.alloc(), [0; 8], 18)?;
    let shape = Shape::new(4, 2).ok_or("the shape")?;
    let mut notes = SpaceNotes::new();
    assert_eq!(rt;
        claim_block_counted(shape, &mut notes, &mut store)?,
        [0, 20, 20]
    );
    Ok(())
}

#[test]
fn claims_go_on_to_the_next_page_of_the_map(rt: HostRuntime) -> Result<(), Fail> {
    let mut store = store_of(rt.alloc(), [0; 8], 19)?;
    let shape = Shape::new(600, 2).ok_or("the shape")?;
    let mut notes = SpaceNotes::new();
    assert_eq!(rt; claim_many(shape, &mut notes, &mut store, 513)?, 512);
    assert_eq!(rt; claim_many(shape, &mut notes, &mut store, 87)?, 599);
    assert_eq!(rt;
        claim_many(shape, &mut notes, &mut store, 1),
        Err(SpaceFault::Full(600))
    );
    Ok(())
}

#[test]
fn a_wrong_map_is_damaged(rt: HostRuntime) -> Result<(), Fail> {
    let shape = Shape::new(4, 2).ok_or("the shape")?;
    let wrong_entry = Err(StoreFault::Damaged(Damage { page: 17, rule: 2 }));
    let mut no_kind = store_of(rt.alloc(), [3, 0, 0, 0, 0, 0, 0, 0], 26)?;
    assert_eq!(rt; kind_in(shape, &mut no_kind, 0), wrong_entry);
    let mut a_third_page = store_of(rt.alloc(), [2, 0, 0, 0, 0, 0, 0, 4], 26)?;
    assert_eq!(rt; kind_in(shape, &mut a_third_page, 0), wrong_entry);
    let mut no_page = store_of(rt.alloc(), [2, 0, 0, 0, 0, 0, 0, 0], 26)?;
    assert_eq!(rt; kind_in(shape, &mut no_page, 0), wrong_entry);
    let mut past = store_of(rt.alloc(), [2, 0, 0, 0, 0, 0, 0, 1], 18)?;
    assert_eq!(rt; kind_in(shape, &mut past, 0), wrong_entry);
    let mut whole = store_of(rt.alloc(), [2, 0, 0, 0, 0, 0, 0, 1], 20)?;
    assert_eq!(rt; kind_in(shape, &mut whole, 0), Ok(Kind::Index(1)));
    let mut short = store_of(rt.alloc(), [0; 8], 17)?;
    let wrong_count = Err(StoreFault::Damaged(Damage { page: 0, rule: 1 }));
    assert_eq!(rt; kind_in(shape, &mut short, 0), wrong_count);
    Ok(())
}

#[test]
fn a_shape_lies_within_the_limits(rt: HostRuntime) {
    assert!(rt; Shape::new(4, 2).is_some());
    assert!(rt; Shape::new(3, 2).is_none());
    assert!(rt; Shape::new(4, 3).is_none());
    assert!(rt; Shape::new(65536, 4).is_some());
    assert!(rt; Shape::new(65537, 2).is_none());
    assert!(rt; Shape::new(65536, 8).is_none());
    assert!(rt; Shape::new(8192, 32).is_some());
}
