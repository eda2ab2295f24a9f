use mdc_outside::{Disk, Failed};
use page_file::Scratch;
use redo_journal::{Images, close_gate, home, open_gate, replay, write_journal};
use std::alloc::Global;
use std::test::Fail;
use store_api::Page;

fn page_of(byte: u8) -> Page {
    [byte; 4096]
}

// Two images, of the pages 2 and 3.
fn two_images(alloc: Global) -> Result<Images, Fail> {
    let mut images = Images::new(alloc);
    images.push(2, Box::new(alloc, page_of(7))?)?;
    images.push(3, Box::new(alloc, page_of(8))?)?;
    Ok(images)
}

// A file of two pages of zeros.
fn blank(alloc: Global) -> Result<Scratch, Fail> {
    Ok(Scratch::new(vec![in alloc; 0u8; 8192]?))
}

// The numbers that a replay finds, and the first byte of each page.
fn replayed(alloc: Global, disk: &mut Scratch) -> Result<Option<Vec<(u32, u8)>>, Fail> {
    let Ok(found) = replay(alloc, disk) else {
        return Err(Failed)?;
    };
    let Some(images) = found else {
        return Ok(None);
    };
    let mut seen = Vec::new(alloc);
    let images = images.lend();
    for i in 0..images.len() {
        let (number, page) = images.at(i);
        seen.push((number, page[0]))?;
    }
    Ok(Some(seen))
}

// The byte of the disk at a place.
fn byte_at(disk: &mut Scratch, at: u64) -> Result<u8, Failed> {
    let mut byte = [0u8];
    disk.read(at, &mut byte)?;
    Ok(byte[0])
}

#[test]
fn a_journal_counts_while_its_gate_is_open(rt: HostRuntime) -> Result<(), Fail> {
    let alloc = rt.alloc();
    let images = two_images(alloc)?;
    assert_eq!(rt; images.lend().len(), 2);
    let mut disk = blank(alloc)?;
    write_journal(&mut disk, 70, &images.lend())?;
    assert_eq!(rt; replayed(alloc, &mut disk)?.is_none(), true);
    open_gate(&mut disk)?;
    let seen = replayed(alloc, &mut disk)?.unwrap_or(Vec::new(alloc));
    assert_eq!(rt; seen.as_slice(), [(2, 7), (3, 8)].as_slice());
    home(&mut disk, &images.lend())?;
    close_gate(&mut disk)?;
    assert_eq!(rt; replayed(alloc, &mut disk)?.is_none(), true);
    assert_eq!(rt; disk.len()?, 73 * 4096);
    Ok(())
}

#[test]
fn bytes_stand_where_the_format_says(rt: HostRuntime) -> Result<(), Fail> {
    let alloc = rt.alloc();
    let images = two_images(alloc)?;
    assert_eq!(rt; images.lend().len(), 2);
    let mut disk = blank(alloc)?;
    write_journal(&mut disk, 70, &images.lend())?;
    open_gate(&mut disk)?;
    home(&mut disk, &images.lend())?;
    // The gate; the start and the number; the second number of the index; the second image; the home page of the first.
    for (at, byte) in [
        (512, 0x4f),
        (1027, 70),
        (1031, 2),
        (70 * 4096 + 7, 3),
        (72 * 4096, 8),
        (68 * 4096 + 4095, 7),
    ] {
        assert_eq!(rt; byte_at(&mut disk, at)?, byte, "at {at}");
    }
    Ok(())
}
