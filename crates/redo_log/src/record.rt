// A record of the log: an index page with the numbers of its images, and then the images.
ghost use Rattle.std.specs.Prelude.{◌≡◌, ◌≤◌, ◌<◌, ◌+◌, ◌*◌, ◌^◌, ◌++◌, length, take, drop, IsErr, IsTrue, OnOk};
ghost use Rattle.std.specs.Option.{ForSome};
ghost use Rattle.std.specs.List.{All};
ghost use Rattle.byteorder.specs.Endian.{big_bytes};
ghost use Rattle.mdc_outside.specs.Disk.{torn};
ghost use Rattle.mdc_words.specs.Faults.{CountsFault};
ghost use Rattle.page_file.specs.Bound.{RunsOf};
ghost use Rattle.page_file.specs.Layout.{IsReady, page_start};
ghost use Rattle.page_file.specs.Runs.{IsWithin, IsCovered, Between};
ghost use Rattle.redo_journal.specs.Images.{AreRising, IsPageImage};
ghost use Rattle.redo_journal.specs.Layout.{index_pages};
ghost use Rattle.redo_journal.specs.Pieces.{Replaces, header, index_page, page_bytes};
ghost use Rattle.redo_log.specs.Appending.{HoldsRecord};
ghost use Rattle.redo_log.specs.Layout.{need_of, torn_record};

use crate::layout::{LOG_HEADER_BYTES, LOG_HEADERS};
use byteorder::{BigEndian, ByteOrder};
use mdc_outside::{Disk, Failed};
use page_file::{PAGE_BYTES, put, settle};
use redo_journal::LentImages;
use store_api::{Page, blank_page};

// How many page numbers stand in an index page.
const NUMBERS: u32 = 1024;

/// How many index pages hold so many numbers.
pub(crate) fn index_len(number: u32) -> u64
    ensures within { result < 2 ^ 32 }
    ensures pages { result ≡ index_pages number }
{
    u64::from(number.div_ceil(NUMBERS))
}

/// Writes record k from a file page on, and has all on the disk. Its gate stays as it is.
pub(crate) fn write_record<D: Disk>(
    disk: &mut D,
    k: u32,
    start: u32,
    images: &LentImages<'_>,
) -> Result<(), Failed>
    requires attached { IsTrue (D.is_attached disk.old) }
    requires ready { ForSome (D.file disk.old) IsReady }
    requires reach { ForSome (D.file disk.old) (λ file. page_start start ≤ length file.bytes) }
    requires few { k < 32 }
    requires behind_gates { 2 ≤ start }
    requires some { 0 < length images.now }
    requires room { start + need_of (length images.now) ≤ 66 }
    ensures written { OnOk result (ForSome (D.file disk.new) (HoldsRecord k start images.now)) }
    ensures rising { OnOk result (AreRising images.now) }
    ensures runs { RunsOf D.Disk IsWithin (torn_record k start (length images.now)) disk.old disk.new }
    ensures cause { CountsFault (IsErr result) (D.disk_faults disk.old) (D.disk_faults disk.new) }
{
    let index = u64::from(start) * PAGE_BYTES;
    let number = images.len() as u32;
    put(disk, index, &index_page(images))?;
    write_pages(disk, index + PAGE_BYTES, images)?;
    let place = LOG_HEADERS + LOG_HEADER_BYTES * u64::from(k);
    put(disk, place, &header(start, number))?;
    settle(disk)
}

// The index page with the numbers of the images.
fn index_page(images: &LentImages<'_>) -> Page
    requires { length images.now ≤ 1024 }
    ensures { result ≡ index_page images.now }
{
    let mut page = *blank_page();
    for k in 0..images.len() {
        let (number, _) = images.at(k);
        put_number(&mut page, k, number);
    }
    page
}

// Writes a number in its place of an index page.
fn put_number(page: &mut Page, k: usize, number: u32)
    requires { k < 1024 }
    ensures { page.new ≡ take (4 * k) page.old ++ big_bytes 4 number ++ drop (4 * k + 4) page.old }
{
    BigEndian::write_u32(&mut page[4 * k..], number);
}

// Writes the pages of the images from a place on.
fn write_pages<D: Disk>(disk: &mut D, place: u64, images: &LentImages<'_>) -> Result<(), Failed>
    requires attached { IsTrue (D.is_attached disk.old) }
    requires within { ForSome (D.file disk.old) (λ file. place ≤ length file.bytes) }
    requires low { place < 2 ^ 48 }
    requires few { length images.now < 2 ^ 32 }
    ensures pages { OnOk result (Between (D.file disk.old) (D.file disk.new) (Replaces place (page_bytes images.now))) }
    ensures each { OnOk result (All IsPageImage images.now) }
    ensures runs { RunsOf D.Disk IsCovered (torn place (page_start (length images.now))) disk.old disk.new }
    ensures cause { CountsFault (IsErr result) (D.disk_faults disk.old) (D.disk_faults disk.new) }
{
    for i in 0..images.len() {
        let (_, page) = images.at(i);
        put(disk, place + i as u64 * PAGE_BYTES, page)?;
    }
    Ok(())
}

// The start and the number, as they stand in the file.
fn header(start: u32, number: u32) -> [u8; 8]
    ensures { result ≡ header start number }
{
    let mut bytes = [0; 8];
    BigEndian::write_u32(&mut bytes, start);
    BigEndian::write_u32(&mut bytes[4..], number);
    bytes
}
