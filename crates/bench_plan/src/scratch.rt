// The file that is worked on.
ghost use Rattle.std.specs.Prelude.{◌≡◌, false, None, IsTrue, IfOk};
ghost use Rattle.store_api.specs.Extents.{is_shape};

use crate::Stop;
use mdc_outside::Host;
use page_store::{FileStore, Untold, make};
use std::alloc::Global;
use std::marker::Brand;
use store_api::Pages;

// The scratch file in memory.
const FILE: &str = "-";

// How many clean pages a store keeps.
const CACHE: usize = 1024;

/// Makes an empty database, which may grow to so many extents of so many pages.
pub fn make_empty<H: Host>(host: &mut H, extents: u32, extent_pages: u32) -> Result<(), Stop>
    requires shape { IsTrue (is_shape extents extent_pages) }
{
    host.attach(FILE, true)?;
    make(host, extents, extent_pages)?;
    Ok(())
}

/// Opens the file.
pub fn opened<H: Host + Drop>(alloc: Global, mut host: H) -> Result<FileStore<H>, Stop>
    ensures going { IfOk result (λ store. (⟦<FileStore<H> as Pages>⟧.state store).ended ≡ false) }
    ensures unmarked { IfOk result (λ store. (⟦<FileStore<H> as Pages>⟧.state store).marked ≡ None) }
{
    host.attach(FILE, false)?;
    match FileStore::<H, Brand, Untold>::open(alloc, host, Untold, CACHE) {
        Ok(store) => Ok(store),
        Err(unopened) => Err(Stop::Unopened(unopened.fault)),
    }
}
