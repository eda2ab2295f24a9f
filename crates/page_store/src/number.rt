// A number in a page.
ghost use Rattle.std.specs.Prelude.{◌≡◌, ◌+◌, ◌≤◌, drop};
ghost use Rattle.byteorder.specs.Endian.{big_number};

use byteorder::{BigEndian, ByteOrder};
use store_api::Page;

/// The number in the four bytes from a place on.
pub(crate) fn number_at(page: &Page, place: usize) -> u32
    requires { place + 4 ≤ 4096 }
    ensures { result ≡ big_number 4 (drop place page.now) }
{
    BigEndian::read_u32(&page[place..])
}
