// The pages of an empty database.
ghost use Rattle.std.specs.Prelude.{◌≡◌, ◌≤◌, ◌++◌, length, drop};
ghost use Rattle.store_api.specs.StoreState.{zero_page};
ghost use Rattle.store_api.specs.Extents.{first_count};
ghost use Rattle.page_store.specs.Shape.{birth_page};
ghost use Rattle.page_store.specs.Fresh.{root_page};

use byteorder::{BigEndian, ByteOrder};
use page_file::zeros;
use store_api::layout::{FIRST_MAP_PAGE, MAP_PAGE_EXTENTS, VERSION};
use store_api::{Page, blank_page};

/// How many pages an empty database has: the root page, 16 table pages and the extent map.
pub(crate) fn first_count(extents: u32) -> u32
    ensures { result ≡ first_count extents }
{
    FIRST_MAP_PAGE + extents.div_ceil(MAP_PAGE_EXTENTS)
}

/// The zeros behind the made byte in its page.
pub(crate) fn behind_made() -> &'static [u8]
    ensures { result.now ≡ drop 1 zero_page }
{
    zeros(4095)
}

/// The birth page, which states how large the database may grow.
pub(crate) fn birth_page(extents: u32, extent_pages: u32) -> Page
    ensures { result ≡ birth_page extents extent_pages }
{
    let mut front = *b"MDCTABLE\0\0\0\0\0\0\0\0";
    BigEndian::write_u32(&mut front[8..], extents);
    BigEndian::write_u32(&mut front[12..], extent_pages);
    page_with(&front)
}

/// The root page of an empty database.
pub(crate) fn root_page(extents: u32) -> Page
    ensures { result ≡ root_page extents }
{
    let mut front = *b"ROOT\0\0\0\0\0\0\0\0";
    BigEndian::write_u32(&mut front[4..], VERSION);
    BigEndian::write_u32(&mut front[8..], first_count(extents));
    page_with(&front)
}

// A page that begins with these bytes, and zeros behind them.
fn page_with(front: &[u8]) -> Page
    requires { length front.now ≤ 4096 }
    ensures { result ≡ front.now ++ drop (length front.now) zero_page }
{
    let mut page = *blank_page();
    page[..front.len()].copy_from_slice(front);
    page
}
