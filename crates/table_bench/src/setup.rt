// The file that is looked at.
ghost use Rattle.std.specs.Prelude.{◌≡◌, false, None, IfOk};

use crate::stop::Stop;
use mdc_outside::Host;
use page_store::{FileStore, Untold};
use std::alloc::Global;
use std::marker::Brand;
use store_api::{Pages, Shape};

// How many clean pages a store keeps.
const CACHE: usize = 1024;

/// Opens the database in a file.
pub fn opened<H: Host + Drop>(alloc: Global, mut host: H, path: &str) -> Result<FileStore<H>, Stop>
    ensures going { IfOk result (λ store. (⟦<FileStore<H> as Pages>⟧.state store).ended ≡ false) }
    ensures unmarked { IfOk result (λ store. (⟦<FileStore<H> as Pages>⟧.state store).marked ≡ None) }
{
    host.attach(path, false)?;
    match FileStore::<H, Brand, Untold>::open(alloc, host, Untold, CACHE) {
        Ok(store) => Ok(store),
        Err(unopened) => Err(Stop::Unopened(unopened.fault)),
    }
}

/// The shape of such a database.
pub fn shape_of<H: Host>(store: &FileStore<H>) -> Result<Shape, Stop> {
    let (extents, extent_pages) = store.shape();
    match Shape::new(extents, extent_pages) {
        Some(shape) => Ok(shape),
        None => Err(Stop::Shape),
    }
}
