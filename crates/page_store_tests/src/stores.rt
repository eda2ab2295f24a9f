// Stores in the files of hosts, each opened, used and closed again.
ghost use Rattle.std.specs.Prelude.{◌≡◌, false, None, IfOk};

use crate::work::{
    PageFive, byte_of, fetch_each, make_growth_ready, make_ready, make_sevens_ready, there_and_back,
};
use mdc_outside::Host;
use page_store::{FileStore, OpenFault, Untold};
use std::alloc::Global;
use std::marker::Brand;
use std::test::Fail;
use store_api::{Pages, Store};

/// Opens the file of a host, with room for eight clean pages.
fn opened<H: Host + Drop>(alloc: Global, mut host: H) -> Result<FileStore<H>, OpenFault>
    ensures going { IfOk result (λ store. (⟦<FileStore<H> as Pages>⟧.state store).ended ≡ false) }
    ensures unmarked { IfOk result (λ store. (⟦<FileStore<H> as Pages>⟧.state store).marked ≡ None) }
    ensures unchanged { IfOk result (λ store. (⟦<FileStore<H> as Pages>⟧.state store).work ≡ (⟦<FileStore<H> as Pages>⟧.state store).base) }
{
    host.attach("table", false)?;
    match FileStore::<H, Brand, Untold>::open(alloc, host, Untold, 8) {
        Ok(store) => Ok(store),
        Err(unopened) => Err(unopened.fault),
    }
}

/// How many extents the database of a host may have, how many pages each has, and how many pages there are; or why it
/// isn't opened. And the host.
pub fn sizes_of<H: Host>(alloc: Global, mut host: H) -> (Result<(u32, u32, u32), OpenFault>, H) {
    if host.attach("table", false).is_err() {
        return (Err(OpenFault::Device), host);
    }
    match FileStore::<H, Brand, Untold>::open(alloc, host, Untold, 8) {
        Ok(store) => {
            let (extents, extent_pages) = store.shape();
            let count = store.count();
            (Ok((extents, extent_pages, count)), store.close().host)
        }
        Err(unopened) => (Err(unopened.fault), unopened.host),
    }
}

/// The byte that fills a page of the database of a host.
pub fn byte_in<H: Host + Drop>(alloc: Global, host: H, p: u32) -> Result<u8, Fail> {
    let mut store = opened(alloc, host)?;
    byte_of(&mut store, p)
}

/// Makes page 5 ready to be full of sevens, and doesn't commit it.
pub fn with_sevens_ready<H: Host + Drop>(alloc: Global, host: H) -> Result<H, Fail> {
    let mut store = opened(alloc, host)?;
    make_sevens_ready(&mut store)?;
    Ok(store.close().host)
}

/// Commits page 5 full of sevens: whether the disk let it, and the host.
pub fn with_sevens<H: Host + Drop>(alloc: Global, host: H) -> Result<(bool, H), Fail> {
    let mut store = opened(alloc, host)?;
    make_sevens_ready(&mut store)?;
    let is_done = store.commit().is_ok();
    Ok((is_done, store.close().host))
}

/// Commits a database as it is.
pub fn with_nothing_new<H: Host + Drop>(alloc: Global, host: H) -> Result<H, Fail> {
    let mut store = opened(alloc, host)?;
    make_ready(&mut store)?;
    store.commit()?;
    Ok(store.close().host)
}

/// Commits two pages more.
pub fn with_growth<H: Host + Drop>(alloc: Global, host: H) -> Result<H, Fail> {
    let mut store = opened(alloc, host)?;
    make_growth_ready(&mut store)?;
    store.commit()?;
    Ok(store.close().host)
}

/// Page 5 of the database of a host, there and back.
pub fn page_five<H: Host + Drop>(alloc: Global, host: H) -> Result<PageFive, Fail> {
    let mut store = opened(alloc, host)?;
    there_and_back(&mut store)
}

/// Brings pages to hand, one after another.
pub fn with_fetches<H: Host + Drop>(alloc: Global, host: H, pages: &[u32]) -> Result<H, Fail> {
    let mut store = opened(alloc, host)?;
    fetch_each(&mut store, pages)?;
    Ok(store.close().host)
}

/// Tells bytes.
pub fn with_told<H: Host + Drop>(alloc: Global, host: H, bytes: &[u8]) -> Result<H, Fail> {
    let mut store = opened(alloc, host)?;
    store.tell(bytes)?;
    Ok(store.close().host)
}
