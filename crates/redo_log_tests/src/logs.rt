// Work on a log, whatever the host.
use crate::silent::Silent;
use mdc_outside::{Disk, Host};
use redo_log::{LogFault, Overlay, RedoLog, replay};
use std::alloc::Global;
use std::test::Fail;

/// So many images, from a page on, each full of a byte.
pub fn images_of(alloc: Global, first: u32, number: u32, byte: u8) -> Result<Overlay, Fail> {
    let mut images = Overlay::new(alloc);
    for k in 0..number {
        images.put(first.saturating_add(k), Box::new(alloc, [byte; 4096])?)?;
    }
    Ok(images)
}

/// Adds a record of these images, and answers why not.
pub fn append<H: Host>(
    log: &mut RedoLog,
    disk: &mut Silent<H>,
    images: &Overlay,
) -> Result<Option<LogFault>, Fail> {
    let images = images.lend();
    let number = images.len();
    if number == 0 || number > 100 {
        return Err(Fail::new("no such record"));
    }
    Ok(log.append(disk, &images).err())
}

/// Adds a record to the log of a file, and answers why not.
pub fn append_to<H: Host>(
    alloc: Global,
    disk: &mut Silent<H>,
    images: &Overlay,
) -> Result<Option<LogFault>, Fail> {
    let (mut log, _) = replay(alloc, disk)?;
    append(&mut log, disk, images)
}

/// Brings the log of a file home: whether the disk let it.
pub fn checkpoint_of<H: Host>(alloc: Global, disk: &mut Silent<H>) -> Result<bool, Fail> {
    let (mut log, overlay) = replay(alloc, disk)?;
    Ok(log.checkpoint(disk, &overlay.lend()).is_ok())
}

/// The bytes that fill the pages 5, 6 and 7, as a replay finds them.
pub fn found<H: Host>(alloc: Global, disk: &mut Silent<H>) -> Result<[u8; 3], Fail> {
    let (_, overlay) = replay(alloc, disk)?;
    let five = byte_of(disk, &overlay, 5)?;
    let six = byte_of(disk, &overlay, 6)?;
    let seven = byte_of(disk, &overlay, 7)?;
    Ok([five, six, seven])
}

/// The byte that fills a page: that of its image, or else that of its home page.
fn byte_of<H: Host>(disk: &mut Silent<H>, overlay: &Overlay, p: u32) -> Result<u8, Fail> {
    let images = overlay.lend();
    for at in 0..images.len() {
        let (number, page) = images.at(at);
        if number == p {
            return filled(page);
        }
    }
    let mut page = [0; 4096];
    disk.read((66 + u64::from(p)) * 4096, &mut page)?;
    filled(&page)
}

/// The byte that fills a page.
fn filled(page: &[u8; 4096]) -> Result<u8, Fail> {
    if *page != [page[0]; 4096] {
        return Err(Fail::new("a page is torn"));
    }
    Ok(page[0])
}
