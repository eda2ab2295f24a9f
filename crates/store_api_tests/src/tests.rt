ghost use Rattle.std.specs.Prelude.{◌≡◌, IfOk, ◌∷◌, [], ℕ, List};
ghost use Rattle.store_api.specs.MemStore.{fresh_store};
ghost use Rattle.store_api.specs.StoreState.{stated_in};

use crate::{
    SpaceFault, append, append_below, append_or_not, find, go_back, renumber, roll_back, save, sum,
};
use std::alloc::{AllocError, Global};
use std::test::Fail;
use store_api::{Damage, MemStore, Page, Pages, Store, StoreFault, stated_count};

// A page that begins with this byte, and states that there are two pages.
fn page(first: u8) -> Page
    ensures { stated_in result ≡ 2 }
{
    let mut page = [0; 4096];
    page[0] = first;
    page[11] = 2;
    page
}

// A store of two pages, with these first bytes.
fn two_pages(alloc: Global, head: u8, entry: u8) -> Result<MemStore, AllocError>
    ensures { IfOk result (λ store. (first second : List ℕ) × (stated_in first ≡ 2) × (⟦<MemStore as Pages>⟧.state store ≡ fresh_store (first ∷ second ∷ []))) }
{
    let mut pages = Vec::new(alloc);
    pages.push(page(head))?;
    pages.push(page(entry))?;
    Ok(MemStore::new(alloc, pages))
}

#[test]
fn a_store_goes_back_to_a_mark_and_to_its_base(rt: HostRuntime) -> Result<(), Fail> {
    let mut store = two_pages(rt.alloc(), 77, 5)?;
    assert_eq!(rt; go_back(&mut store)?, [5, 8, 5]);
    let mut store = two_pages(rt.alloc(), 77, 5)?;
    assert_eq!(rt; roll_back(&mut store, &page(9))?, ([9, 5, 5], [1, 0]));
    Ok(())
}

#[test]
fn a_commit_makes_the_work_the_base(rt: HostRuntime) -> Result<(), Fail> {
    let mut store = two_pages(rt.alloc(), 77, 5)?;
    save(&mut store, 1, &page(6))?;
    assert_eq!(rt; store.written(), 0);
    store.committed(1)?;
    assert_eq!(rt; store.page()[0], 6);
    assert_eq!(rt; store.fetched(), [1].as_slice());
    assert_eq!(rt; store.tell(b"OK\n"), Ok(()));
    assert_eq!(rt; store.tell(b"1 ROWS\n"), Ok(()));
    assert_eq!(rt; store.told(), b"OK\n1 ROWS\n".as_slice());
    Ok(())
}

#[test]
fn a_ledger_takes_entries(rt: HostRuntime) -> Result<(), Fail> {
    let mut store = two_pages(rt.alloc(), 77, 5)?;
    assert_eq!(rt; append(&mut store, &page(6))?, 2);
    assert_eq!(rt; find(&mut store, 1, 3, 6)?, Some(2));
    assert_eq!(rt; sum(&mut store, 1, 3)?, 11);
    Ok(())
}

#[test]
fn a_ledger_is_numbered_in_place(rt: HostRuntime) -> Result<(), Fail> {
    let mut store = two_pages(rt.alloc(), 77, 5)?;
    renumber(&mut store, 1, 2, 7)?;
    assert_eq!(rt; sum(&mut store, 0, 2)?, 84);
    Ok(())
}

#[test]
fn an_entry_is_added_whole_or_not_at_all(rt: HostRuntime) -> Result<(), Fail> {
    let mut store = two_pages(rt.alloc(), 77, 5)?;
    assert_eq!(rt; append_or_not(&mut store, &page(6))?, 2);
    let mut store = two_pages(rt.alloc(), 76, 5)?;
    let damage = StoreFault::Damaged(Damage { page: 0, rule: 1 });
    assert_eq!(rt; append_or_not(&mut store, &page(6)), Err(damage));
    assert_eq!(rt; store.count(), 2);
    let mut store = two_pages(rt.alloc(), 77, 5)?;
    assert_eq!(rt;
        append_below(&mut store, 2, &page(6)),
        Err(SpaceFault::Full(2))
    );
    Ok(())
}

#[test]
fn a_page_states_its_count_in_the_bytes_8_to_11(rt: HostRuntime) -> Result<(), Fail> {
    let mut head = page(77);
    assert_eq!(rt; stated_count(&head), 2);
    head[8] = 1;
    head[7] = 5;
    head[12] = 6;
    assert_eq!(rt; stated_count(&head), 16_777_218);
    Ok(())
}
