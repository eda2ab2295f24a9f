// When a log has no room.
use crate::hosts::{disk_of, small_file};
use crate::logs::{append, images_of};
use crate::silent::Silent;
use mdc_outside::Host;
use redo_log::{LogFault, RedoLog, replay};
use std::alloc::Global;
use std::test::Fail;

/// Adds records of so many images, one after another: how many were added, and why the next was not.
fn added<H: Host>(
    alloc: Global,
    log: &mut RedoLog,
    disk: &mut Silent<H>,
    numbers: &[u32],
) -> Result<(u32, Option<LogFault>), Fail> {
    let mut count: u32 = 0;
    for number in numbers {
        let images = images_of(alloc, 1, *number, 7)?;
        let refused = append(log, disk, &images)?;
        if refused.is_some() {
            return Ok((count, refused));
        }
        count = count.saturating_add(1);
    }
    Ok((count, None))
}

/// The same for a log that is empty at first.
fn added_to_empty(alloc: Global, numbers: &[u32]) -> Result<(u32, Option<LogFault>), Fail> {
    let file = small_file(alloc)?;
    let mut disk = disk_of(alloc, &file, &[])?;
    let (mut log, _) = replay(alloc, &mut disk)?;
    added(alloc, &mut log, &mut disk, numbers)
}

fn no_room(need: u32, free: u32, gates: u8) -> Option<LogFault> {
    Some(LogFault::NoRoom { need, free, gates })
}

#[test]
fn two_records_of_31_images_fill_the_log(rt: HostRuntime) -> Result<(), Fail> {
    let alloc = rt.alloc();
    assert_eq!(rt; added_to_empty(alloc, &[31, 31, 1])?, (2, no_room(2, 0, 2)));
    Ok(())
}

#[test]
fn each_gate_takes_a_record(rt: HostRuntime) -> Result<(), Fail> {
    let alloc = rt.alloc();
    assert_eq!(rt; added_to_empty(alloc, &[1; 33])?, (32, no_room(2, 0, 32)));
    Ok(())
}

#[test]
fn a_record_of_63_images_has_room_and_one_of_64_has_none(rt: HostRuntime) -> Result<(), Fail> {
    let alloc = rt.alloc();
    assert_eq!(rt; added_to_empty(alloc, &[63, 1])?, (1, no_room(2, 0, 1)));
    assert_eq!(rt; added_to_empty(alloc, &[64])?, (0, no_room(65, 64, 0)));
    assert_eq!(rt; added_to_empty(alloc, &[60, 3, 2])?, (1, no_room(4, 3, 1)));
    Ok(())
}
