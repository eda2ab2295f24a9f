// Where a log has its bytes, and what a checkpoint and a replay make of them.
use crate::hosts::{disk_of, file_of, has_written, small_file, times_called};
use crate::logs::{append_to, checkpoint_of, found, images_of};
use mdc_outside::Call;
use std::alloc::Global;
use std::test::Fail;

/// A file with two records: the pages 5 and 6 full of ones, and the pages 6 and 7 full of twos.
pub fn file_with_two(alloc: Global) -> Result<Vec<u8>, Fail> {
    let file = file_with_one(alloc)?;
    let mut disk = disk_of(alloc, &file, &[])?;
    append_to(alloc, &mut disk, &images_of(alloc, 6, 2, 2)?)?;
    file_of(alloc, &mut disk)
}

/// A file with the first of them.
pub fn file_with_one(alloc: Global) -> Result<Vec<u8>, Fail> {
    let file = small_file(alloc)?;
    let mut disk = disk_of(alloc, &file, &[])?;
    append_to(alloc, &mut disk, &images_of(alloc, 5, 2, 1)?)?;
    file_of(alloc, &mut disk)
}

/// Whether each of these places has its byte.
fn has_bytes(file: &[u8], wanted: &[(usize, u8)]) -> bool {
    for (at, byte) in wanted {
        if file.get(*at) != Some(byte) {
            return false;
        }
    }
    true
}

/// The gates; the start and the number of each record; the numbers of its index, and zeros behind them; a byte of its
/// images; the home page of the first, which is as it was.
static RECORDS: [(usize, u8); 16] = [
    (2048, 0x4f),
    (2049, 0x4f),
    (2050, 0),
    (3075, 2),
    (3079, 2),
    (3083, 5),
    (3087, 2),
    (2 * 4096 + 3, 5),
    (2 * 4096 + 7, 6),
    (2 * 4096 + 11, 0),
    (4 * 4096 + 4095, 1),
    (5 * 4096 + 3, 6),
    (5 * 4096 + 7, 7),
    (6 * 4096, 2),
    (7 * 4096 + 4095, 2),
    (71 * 4096, 0),
];

#[test]
fn bytes_stand_where_the_format_says(rt: HostRuntime) -> Result<(), Fail> {
    let alloc = rt.alloc();
    let file = file_with_two(alloc)?;
    assert!(rt; has_bytes(&file, &RECORDS));
    assert_eq!(rt; file.len(), 84 * 4096);
    let mut disk = disk_of(alloc, &file, &[])?;
    assert_eq!(rt; found(alloc, &mut disk)?, [1, 2, 2]);
    Ok(())
}

#[test]
fn a_checkpoint_brings_the_newest_images_home(rt: HostRuntime) -> Result<(), Fail> {
    let alloc = rt.alloc();
    let mut disk = disk_of(alloc, &file_with_two(alloc)?, &[])?;
    assert!(rt; checkpoint_of(alloc, &mut disk)?);
    assert_eq!(rt; times_called(disk.host(), 0, Call::Sync), 3);
    let file = file_of(alloc, &mut disk)?;
    let home = [
        (2048, 0),
        (2049, 0),
        (71 * 4096, 1),
        (72 * 4096, 2),
        (73 * 4096, 2),
    ];
    assert!(rt; has_bytes(&file, &home));
    assert_eq!(rt; found(alloc, &mut disk)?, [1, 2, 2]);
    Ok(())
}

#[test]
fn an_append_makes_two_syncs_and_an_idle_checkpoint_no_write(rt: HostRuntime) -> Result<(), Fail> {
    let alloc = rt.alloc();
    let file = small_file(alloc)?;
    let mut disk = disk_of(alloc, &file, &[])?;
    assert!(rt; checkpoint_of(alloc, &mut disk)?);
    assert!(rt; !has_written(disk.host(), 0));
    assert_eq!(rt; times_called(disk.host(), 0, Call::Sync), 0);
    for n in 0..8u8 {
        append_to(alloc, &mut disk, &images_of(alloc, 5, 3, n)?)?;
    }
    assert_eq!(rt; times_called(disk.host(), 0, Call::Sync), 16);
    assert_eq!(rt; found(alloc, &mut disk)?, [7, 7, 7]);
    Ok(())
}
