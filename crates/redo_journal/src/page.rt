// The bytes of one page.
ghost use Rattle.std.specs.Prelude.{◌≡◌, ◌≤◌, ◌<◌, ◌+◌, ◌*◌, ◌++◌, length, take, drop};
ghost use Rattle.byteorder.specs.Endian.{big_bytes};
ghost use Rattle.redo_journal.specs.Pieces.{chunk, index_page};

use crate::LentImages;
use crate::journal::NUMBERS;
use byteorder::{BigEndian, ByteOrder};
use store_api::{Page, blank_page};

/// The index page with the numbers of the images from this place on.
pub(crate) fn index_page(images: &LentImages<'_>, first: usize) -> Page
    requires { first ≤ length images.now }
    ensures { result ≡ index_page (chunk first images.now) }
{
    let mut page = *blank_page();
    let count = (images.len() - first).min(NUMBERS);
    for k in 0..count {
        let (number, _) = images.at(first + k);
        put_number(&mut page, k, number);
    }
    page
}

// Writes a number in its place of an index page.
fn put_number(page: &mut Page, k: usize, number: u32)
    requires { k < 1024 }
    ensures { page.new ≡ take (4 * k) page.old ++ big_bytes 4 number ++ drop (4 * k + 4) page.old }
{
    BigEndian::write_u32(&mut page[4 * k..], number);
}
