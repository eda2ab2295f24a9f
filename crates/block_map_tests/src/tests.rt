// What a block map answers on a store in memory.
ghost use Rattle.std.specs.Prelude.{◌≡◌, false, IfOk, OnOk};

use crate::{Seen, fill, look_round, row};
use block_map::{BlockMap, BlockState};
use extent_map::SpaceNotes;
use std::alloc::Global;
use std::test::Fail;
use store_api::{MemStore, Page, Pages, Shape, Store, StoreFault};

// A store of these pages.
fn store_of(alloc: Global, pages: Vec<Page>) -> Result<MemStore, Fail>
    ensures going { IfOk result (λ store. (⟦<MemStore as Pages>⟧.state store).ended ≡ false) }
{
    if pages.len() > 1000 {
        return Err("more pages than a test has")?;
    }
    Ok(MemStore::new(alloc, pages))
}

// A store of pages of zeros up to the extents.
fn empty_store(alloc: Global) -> Result<MemStore, Fail>
    ensures going { IfOk result (λ store. (⟦<MemStore as Pages>⟧.state store).ended ≡ false) }
{
    let mut pages = Vec::new(alloc);
    for _ in 0..18 {
        pages.push([0; 4096])?;
    }
    store_of(alloc, pages)
}

fn shape() -> Result<Shape, Fail> {
    match Shape::new(16, 2) {
        Some(shape) => Ok(shape),
        None => Err("no shape of a database")?,
    }
}

// A map that was filled, seen at block 5.
fn filled<S: Store>(
    alloc: Global,
    shape: Shape,
    notes: &mut SpaceNotes,
    store: &mut S,
) -> Result<Seen, Fail>
    requires going { (S.state store.old).ended ≡ false }
{
    let map = fill(alloc, shape, notes, store)?;
    Ok(look_round(&map, store, 5, BlockState::Free)?)
}

// The same once block 5 is Pending, block 3 has a row more and block 9 has left, seen at block 3.
fn changed<S: Store>(
    alloc: Global,
    shape: Shape,
    notes: &mut SpaceNotes,
    store: &mut S,
) -> Result<Seen, Fail>
    requires going { (S.state store.old).ended ≡ false }
{
    let map = fill(alloc, shape, notes, store)?;
    map.set(store, row(5, BlockState::Pending, 0))?;
    map.replace(
        store,
        row(3, BlockState::Used, 2),
        row(3, BlockState::Used, 3),
    )?;
    map.leave(shape, notes, store, 9)?;
    Ok(look_round(&map, store, 3, BlockState::Pending)?)
}

// Counts a row more in a Used block with fewer rows than `most`, and answers how many it had.
fn count_if_room<S: Store>(
    map: &BlockMap,
    store: &mut S,
    block: u32,
    most: u32,
) -> Result<Option<u16>, StoreFault>
    requires going { (S.state store.old).ended ≡ false }
    ensures going { OnOk result ((S.state store.new).ended ≡ false) }
{
    let Some(found) = map.find_room(store, block, most)? else {
        return Ok(None);
    };
    map.count_found(store, &found)?;
    Ok(Some(found.row.rows))
}

// What counting rows answers: up to three in block 5, which has two; one less there; and in block 9, which is Free.
fn counted<S: Store>(
    alloc: Global,
    shape: Shape,
    notes: &mut SpaceNotes,
    store: &mut S,
) -> Result<[Option<u16>; 4], Fail>
    requires going { (S.state store.old).ended ≡ false }
{
    let map = fill(alloc, shape, notes, store)?;
    map.set(store, row(5, BlockState::Used, 2))?;
    let more = count_if_room(&map, store, 5, 3)?;
    let full = count_if_room(&map, store, 5, 3)?;
    let fewer = map.discount_row(store, 5)?;
    let free = count_if_room(&map, store, 9, 3)?;
    Ok([more, full, fewer, free])
}

#[test]
fn blocks_are_found_and_listed(rt: HostRuntime) -> Result<(), Fail> {
    let Seen {
        row: found,
        listed,
        rows,
        first_free,
        free_behind,
    } = filled(
        rt.alloc(),
        shape()?,
        &mut SpaceNotes::new(),
        &mut empty_store(rt.alloc())?,
    )?;
    assert_eq!(rt; found, Some(row(5, BlockState::Free, 0)));
    assert_eq!(rt; listed.as_slice(), [5, 9].as_slice());
    assert_eq!(rt;
        rows.as_slice(),
        [row(5, BlockState::Free, 0), row(9, BlockState::Free, 0)].as_slice()
    );
    assert_eq!(rt; first_free, Some(5));
    assert_eq!(rt; free_behind, Some(9));
    Ok(())
}

#[test]
fn rows_change_in_place_and_leave(rt: HostRuntime) -> Result<(), Fail> {
    let Seen {
        row: found,
        listed,
        rows,
        first_free,
        free_behind,
    } = changed(
        rt.alloc(),
        shape()?,
        &mut SpaceNotes::new(),
        &mut empty_store(rt.alloc())?,
    )?;
    assert_eq!(rt; found, Some(row(3, BlockState::Used, 3)));
    assert_eq!(rt; listed.as_slice(), [5].as_slice());
    assert_eq!(rt;
        rows.as_slice(),
        [row(5, BlockState::Pending, 0)].as_slice()
    );
    assert_eq!(rt; first_free, None);
    assert_eq!(rt; free_behind, None);
    Ok(())
}

#[test]
fn rows_of_used_blocks_are_counted(rt: HostRuntime) -> Result<(), Fail> {
    let answers = counted(
        rt.alloc(),
        shape()?,
        &mut SpaceNotes::new(),
        &mut empty_store(rt.alloc())?,
    )?;
    assert_eq!(rt; answers, [Some(2), None, Some(3), None]);
    Ok(())
}
