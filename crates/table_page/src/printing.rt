// Bytes, names and zeros put into a page at a place.
ghost use Rattle.std.specs.Prelude.{◌≤◌, ◌+◌, ◌-◌, length, replicate};
ghost use Rattle.byteorder.specs.Endian.{big_bytes};
ghost use Rattle.mdc_ast.specs.Definitions.{IsShort};
ghost use Rattle.table_page.specs.Printing.{PrintsBytes};
ghost use Rattle.table_page.specs.TablePage.{printed_name};

use crate::layout::NAME_BYTES;
use mdc_ast::Name;
use store_api::{Page, put};

/// Prints bytes from a place on.
pub fn print_bytes(page: &mut Page, at: usize, bytes: &[u8])
    requires { at + length bytes.now ≤ 4096 }
    ensures { PrintsBytes at (at + length bytes.now) bytes.now page.old page.new }
{
    put(page, at, bytes);
}

/// Prints a number of 32 bits.
pub fn print_short(page: &mut Page, at: usize, number: u32)
    requires { at + 4 ≤ 4096 }
    ensures { PrintsBytes at (at + 4) (big_bytes 4 number) page.old page.new }
{
    print_bytes(page, at, &number.to_be_bytes());
}

/// Prints a number of 64 bits.
pub fn print_long(page: &mut Page, at: usize, number: u64)
    requires { at + 8 ≤ 4096 }
    ensures { PrintsBytes at (at + 8) (big_bytes 8 number) page.old page.new }
{
    print_bytes(page, at, &number.to_be_bytes());
}

/// Prints one byte over and over, up to an end.
pub fn print_up_to(page: &mut Page, at: usize, end: usize, byte: u8)
    requires order { at ≤ end }
    requires within { end ≤ 4096 }
    ensures { PrintsBytes at end (replicate (end - at) byte) page.old page.new }
{
    page[at..end].fill(byte);
}

/// Prints a name with blanks behind it.
pub fn print_name(page: &mut Page, at: usize, name: &Name)
    requires short { IsShort name.now }
    requires within { at + 18 ≤ 4096 }
    ensures { PrintsBytes at (at + 18) (printed_name name.now) page.old page.new }
{
    let bytes = name.0.bytes();
    print_bytes(page, at, bytes);
    print_up_to(page, at + bytes.len(), at + NAME_BYTES, b' ');
}
