// The pieces of work. Each answers the sum of one byte of every page that it saw.
ghost use Rattle.std.specs.Prelude.{◌≡◌, ◌<◌, false, None, OnOk};

use crate::calls;
use crate::what::StoreWork;
use bench_plan::Stop;
use store_api::{Page, Pages, Store};

// How many clean pages are in the cache once it is full.
const CACHED: u32 = 1024;

/// How many pages there are: so many that, fetched around, none is found in the cache.
pub const MANY: u32 = 8192;

// How many pages there are where each is edited again and again.
const FEW: u32 = 8;

/// Does a piece of work of that size so many times, on a store of many pages.
pub fn do_work<S: Store>(store: &mut S, work: StoreWork, size: u32, times: u32) -> Result<u64, Stop>
    requires going { (S.state store.old).ended ≡ false }
    requires unmarked { (S.state store.old).marked ≡ None }
{
    match work {
        StoreWork::Hot => return fetch_times(store, CACHED, size, times),
        StoreWork::Cold => return fetch_times(store, MANY, size, times),
        StoreWork::Commit => {
            fetch_around(store, CACHED, CACHED)?;
            commit_times(store, size, times)?;
        }
        StoreWork::Undo => {
            write_pages(store, size, &[5; 4096])?;
            undo_times(store, size, times)?;
        }
        StoreWork::First => {
            write_pages(store, size, &[5; 4096])?;
            edit_times(store, size, times)?;
        }
        StoreWork::Again => again(store, size, times)?,
    }
    fetch_around(store, MANY, MANY)
}

// Fetches so many pages so many times, around as many pages as were fetched before it.
fn fetch_times<S: Pages>(store: &mut S, round: u32, pages: u32, times: u32) -> Result<u64, Stop>
    requires going { (S.state store.old).ended ≡ false }
    requires round { 0 < round }
{
    fetch_around(store, round, round)?;
    fetch_around(store, round, pages.saturating_mul(times))
}

// Edits pages under one mark so many times, each of which was edited under it before.
fn again<S: Pages>(store: &mut S, edits: u32, times: u32) -> Result<(), Stop>
    requires going { (S.state store.old).ended ≡ false }
    requires unmarked { (S.state store.old).marked ≡ None }
    ensures { (S.state store.new).ended ≡ false }
{
    write_pages(store, FEW, &[5; 4096])?;
    store.mark();
    edit_pages(store, FEW)?;
    edit_rounds(store, FEW, (edits / FEW).saturating_mul(times))
}

// Fetches so many pages, from page 0 again after each round of that many.
fn fetch_around<S: Pages>(store: &mut S, round: u32, pages: u32) -> Result<u64, Stop>
    requires going { (S.state store.old).ended ≡ false }
    requires round { 0 < round }
    ensures going { (S.state store.new).ended ≡ false }
    ensures marked { (S.state store.new).marked ≡ (S.state store.old).marked }
{
    if round > store.count() {
        return Err(Stop::TooLarge);
    }
    let mut sum: u64 = 0;
    for i in 0..pages {
        store.fetch(i % round)?;
        sum = sum.wrapping_add(u64::from(store.page()[0]));
    }
    Ok(sum)
}

// Makes so many commits of so many pages.
fn commit_times<S: Store>(store: &mut S, pages: u32, times: u32) -> Result<(), Stop>
    requires going { (S.state store.old).ended ≡ false }
    requires unmarked { (S.state store.old).marked ≡ None }
    ensures going { OnOk result ((S.state store.new).ended ≡ false) }
{
    for _ in 0..times {
        commit_pages(store, pages, &[7; 4096])?;
    }
    Ok(())
}

// Writes these bytes over each of so many pages behind page 0, and commits them.
fn commit_pages<S: Store>(store: &mut S, pages: u32, bytes: &Page) -> Result<(), Stop>
    requires going { (S.state store.old).ended ≡ false }
    requires unmarked { (S.state store.old).marked ≡ None }
    ensures going { OnOk result ((S.state store.new).ended ≡ false) }
    ensures unmarked { OnOk result ((S.state store.new).marked ≡ None) }
{
    write_pages(store, pages, bytes)?;
    calls::commit(store)
}

// Goes back so many times over so many pages.
fn undo_times<S: Pages>(store: &mut S, pages: u32, times: u32) -> Result<(), Stop>
    requires going { (S.state store.old).ended ≡ false }
    requires unmarked { (S.state store.old).marked ≡ None }
    ensures { (S.state store.new).ended ≡ false }
{
    for _ in 0..times {
        store.mark();
        write_pages(store, pages, &[7; 4096])?;
        store.undo();
    }
    Ok(())
}

// Edits each of so many pages once under a mark that is then kept, so many times.
fn edit_times<S: Pages>(store: &mut S, pages: u32, times: u32) -> Result<(), Stop>
    requires going { (S.state store.old).ended ≡ false }
    requires unmarked { (S.state store.old).marked ≡ None }
    ensures { (S.state store.new).ended ≡ false }
{
    for _ in 0..times {
        store.mark();
        edit_pages(store, pages)?;
        store.keep()?;
    }
    Ok(())
}

// Edits the first pages behind page 0 in so many rounds.
fn edit_rounds<S: Pages>(store: &mut S, pages: u32, rounds: u32) -> Result<(), Stop>
    requires { (S.state store.old).ended ≡ false }
    ensures { (S.state store.new).ended ≡ false }
{
    for _ in 0..rounds {
        edit_pages(store, pages)?;
    }
    Ok(())
}

// Edits each of so many pages behind page 0.
fn edit_pages<S: Pages>(store: &mut S, pages: u32) -> Result<(), Stop>
    requires { (S.state store.old).ended ≡ false }
    ensures going { (S.state store.new).ended ≡ false }
    ensures marked { (S.state store.new).marked ≡ (S.state store.old).marked }
{
    for i in 0..pages {
        calls::edit(store, i + 1, &[9; 10])?;
    }
    Ok(())
}

// Writes these bytes over each of so many pages behind page 0.
fn write_pages<S: Pages>(store: &mut S, pages: u32, bytes: &Page) -> Result<(), Stop>
    requires { (S.state store.old).ended ≡ false }
    ensures going { (S.state store.new).ended ≡ false }
    ensures marked { (S.state store.new).marked ≡ (S.state store.old).marked }
{
    for i in 0..pages {
        calls::write(store, i + 1, bytes)?;
    }
    Ok(())
}
