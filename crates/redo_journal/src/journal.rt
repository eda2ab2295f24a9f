// The journal: index pages with the numbers of the images, and then the images.
ghost use Rattle.std.specs.Prelude.{◌≡◌, ◌≤◌, ◌<◌, ◌+◌, ◌*◌, ◌^◌, length, IsErr, IsTrue, IsFalse, OnOk};
ghost use Rattle.std.specs.Option.{ForSome};
ghost use Rattle.std.specs.List.{All};
ghost use Rattle.mdc_outside.specs.Disk.{torn};
ghost use Rattle.mdc_words.specs.Faults.{CountsFault};
ghost use Rattle.page_file.specs.Bound.{RunsOf, LeavesOf};
ghost use Rattle.redo_journal.specs.Images.{AreRising, IsPageImage};
ghost use Rattle.page_file.specs.Layout.{IsReady, FrontStays, page_start};
ghost use Rattle.page_file.specs.declared.layout.TheConstants.{FIRST_PAGE};
ghost use Rattle.redo_journal.specs.Layout.{HoldsJournal, index_pages, is_open, torn_journal};
ghost use Rattle.redo_journal.specs.Pieces.{Replaces, header, index_bytes, page_bytes};
ghost use Rattle.page_file.specs.Runs.{IsWithin, IsCovered, Between};

use crate::LentImages;
use crate::page::index_page;
use byteorder::{BigEndian, ByteOrder};
use mdc_outside::{Disk, Failed};
use page_file::{HEADER, PAGE_BYTES, end_of, fill, put, settle};

/// How many page numbers stand in an index page.
pub(crate) const NUMBERS: usize = 1024;

/// Writes a journal that starts at this file page, and has all on the disk.
pub fn write_journal<D: Disk>(
    disk: &mut D,
    start: u32,
    images: &LentImages<'_>,
) -> Result<(), Failed>
    requires attached { IsTrue (D.is_attached disk.old) }
    requires ready { ForSome (D.file disk.old) IsReady }
    requires closed { ForSome (D.file disk.old) (λ file. IsFalse (is_open file.bytes)) }
    requires behind_gates { FIRST_PAGE ≤ start }
    requires few { length images.now < 2 ^ 32 }
    ensures written { OnOk result (ForSome (D.file disk.new) (HoldsJournal start images.now)) }
    ensures rising { OnOk result (AreRising images.now) }
    ensures runs { RunsOf D.Disk IsWithin (torn_journal start (length images.now)) disk.old disk.new }
    ensures front { LeavesOf D.Disk (λ before. FrontStays before.bytes) disk.old disk.new }
    ensures cause { CountsFault (IsErr result) (D.disk_faults disk.old) (D.disk_faults disk.new) }
{
    let end = end_of(disk)?;
    let index = u64::from(start) * PAGE_BYTES;
    let number = images.len() as u32;
    let pages = index + index_len(number) * PAGE_BYTES;
    fill(disk, end, index)?;
    write_index(disk, index, images)?;
    write_pages(disk, pages, images)?;
    put(disk, HEADER, &header(start, number))?;
    settle(disk)
}

// The start and the number, as they stand in the file.
fn header(start: u32, number: u32) -> [u8; 8]
    ensures { result ≡ header start number }
{
    let mut bytes = [0; 8];
    BigEndian::write_u32(&mut bytes, start);
    BigEndian::write_u32(&mut bytes[4..], number);
    bytes
}

// Writes the index pages from a place on.
fn write_index<D: Disk>(disk: &mut D, place: u64, images: &LentImages<'_>) -> Result<(), Failed>
    requires attached { IsTrue (D.is_attached disk.old) }
    requires within { ForSome (D.file disk.old) (λ file. place ≤ length file.bytes) }
    requires low { place < 2 ^ 48 }
    requires few { length images.now < 2 ^ 32 }
    ensures index { OnOk result (Between (D.file disk.old) (D.file disk.new) (Replaces place (index_bytes (index_pages (length images.now)) images.now))) }
    ensures runs { RunsOf D.Disk IsCovered (torn place (page_start (index_pages (length images.now)))) disk.old disk.new }
    ensures cause { CountsFault (IsErr result) (D.disk_faults disk.old) (D.disk_faults disk.new) }
{
    for k in 0..index_len(images.len() as u32) {
        let page = index_page(images, k as usize * NUMBERS);
        put(disk, place + k * PAGE_BYTES, &page)?;
    }
    Ok(())
}

// Writes the pages of the images from a place on.
fn write_pages<D: Disk>(disk: &mut D, place: u64, images: &LentImages<'_>) -> Result<(), Failed>
    requires attached { IsTrue (D.is_attached disk.old) }
    requires within { ForSome (D.file disk.old) (λ file. place ≤ length file.bytes) }
    requires low { place < 2 ^ 48 }
    requires few { length images.now < 2 ^ 32 }
    ensures pages { OnOk result (Between (D.file disk.old) (D.file disk.new) (Replaces place (page_bytes images.now))) }
    ensures each { OnOk result (All IsPageImage images.now) }
    ensures runs { RunsOf D.Disk IsCovered (torn place (page_start (length images.now))) disk.old disk.new }
    ensures cause { CountsFault (IsErr result) (D.disk_faults disk.old) (D.disk_faults disk.new) }
{
    for i in 0..images.len() {
        let (_, page) = images.at(i);
        put(disk, place + i as u64 * PAGE_BYTES, page)?;
    }
    Ok(())
}

/// How many index pages hold so many numbers.
pub(crate) fn index_len(number: u32) -> u64
    ensures within { result < 2 ^ 32 }
    ensures pages { result ≡ index_pages number }
{
    u64::from(number.div_ceil(NUMBERS as u32))
}
