// The file that is worked on.
ghost use Rattle.std.specs.Prelude.{◌≡◌, false, None, IfOk};

use bench_plan::{Stop, make_empty, opened};
use mdc_outside::Host;
use page_store::FileStore;
use std::alloc::Global;
use store_api::{Pages, Shape};

// A database may grow to so many extents, the most that there can be.
const EXTENTS: u32 = 65_536;

const EXTENT_PAGES: u32 = 4;

/// Makes an empty database, and opens it.
pub fn made<H: Host + Drop>(alloc: Global, mut host: H) -> Result<FileStore<H>, Stop>
    ensures going { IfOk result (λ store. (⟦<FileStore<H> as Pages>⟧.state store).ended ≡ false) }
    ensures unmarked { IfOk result (λ store. (⟦<FileStore<H> as Pages>⟧.state store).marked ≡ None) }
{
    make_empty(&mut host, EXTENTS, EXTENT_PAGES)?;
    opened(alloc, host)
}

/// The shape of that database.
pub fn shape() -> Result<Shape, Stop> {
    match Shape::new(EXTENTS, EXTENT_PAGES) {
        Some(shape) => Ok(shape),
        None => Err(Stop::Shape),
    }
}
