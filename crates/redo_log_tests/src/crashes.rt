// What a crash in each call of an append and a checkpoint leaves.
use crate::hosts::{FILLS, crashed, disk_of, file_of, is_change, small_file, sync_behind};
use crate::layout::{file_with_one, file_with_two};
use crate::logs::{append_to, checkpoint_of, found, images_of};
use crate::silent::Silent;
use mdc_outside::{Host, MemHost};
use redo_log::LogFault;
use std::alloc::Global;
use std::test::Fail;

#[test]
fn a_crash_within_an_append_leaves_it_or_not(rt: HostRuntime) -> Result<(), Fail> {
    let alloc = rt.alloc();
    let mut disk = disk_of(alloc, &file_with_one(alloc)?, &[])?;
    append_to(alloc, &mut disk, &images_of(alloc, 6, 2, 2)?)?;
    let gate = sync_behind(disk.host(), 0, 2)?;
    for n in 0..disk.host().calls() {
        if !is_change(disk.host(), n + 1) {
            continue;
        }
        for fill in FILLS {
            let mut left = crashed(alloc, disk.host(), n + 1, fill)?;
            let now = found(alloc, &mut left)?;
            assert!(rt;
                now == [1, 2, 2] || (now == [1, 1, 0] && n < gate),
                "{n} {fill:?}"
            );
        }
    }
    Ok(())
}

/// Whether both records are found, one more is added, and then all three are found.
fn goes_on<H: Host>(alloc: Global, disk: &mut Silent<H>) -> Result<bool, Fail> {
    if found(alloc, disk)? != [1, 2, 2] {
        return Ok(false);
    }
    let refused = append_to(alloc, disk, &images_of(alloc, 7, 1, 3)?)?;
    Ok(refused.is_none() && found(alloc, disk)? == [1, 2, 3])
}

#[test]
fn a_crash_within_a_checkpoint_leaves_the_records(rt: HostRuntime) -> Result<(), Fail> {
    let alloc = rt.alloc();
    let mut disk = disk_of(alloc, &file_with_two(alloc)?, &[])?;
    assert!(rt; checkpoint_of(alloc, &mut disk)?);
    for n in 0..disk.host().calls() {
        if !is_change(disk.host(), n + 1) {
            continue;
        }
        for fill in FILLS {
            let mut left = crashed(alloc, disk.host(), n + 1, fill)?;
            assert!(rt; goes_on(alloc, &mut left)?, "{n} {fill:?}");
        }
    }
    Ok(())
}

/// Fills all pages but page 0 with a byte, behind a checkpoint where there is no room. Three such records fill a log.
fn commit<H: Host>(alloc: Global, disk: &mut Silent<H>, byte: u8) -> Result<(), Fail> {
    let images = images_of(alloc, 1, 17, byte)?;
    let Some(LogFault::NoRoom { .. }) = append_to(alloc, disk, &images)? else {
        return Ok(());
    };
    checkpoint_of(alloc, disk)?;
    append_to(alloc, disk, &images)?;
    Ok(())
}

/// Whether a crash in a third of the calls of a host that write or sync, with one fill after another, leaves the pages 5
/// to 7 full of this byte, or of the one before it.
fn leaves_either(alloc: Global, host: &MemHost, byte: u8) -> Result<bool, Fail> {
    for n in 0..host.calls() {
        if n % 3 != u64::from(byte % 3) || !is_change(host, n + 1) {
            continue;
        }
        let fill = FILLS[(n % 5) as usize];
        let now = found(alloc, &mut crashed(alloc, host, n + 1, fill)?)?;
        if now != [byte; 3] && now != [byte.saturating_sub(1); 3] {
            return Ok(false);
        }
    }
    Ok(true)
}

#[test]
fn a_crash_within_ten_commits_and_their_checkpoints_leaves_each_or_not(
    rt: HostRuntime,
) -> Result<(), Fail> {
    let alloc = rt.alloc();
    let mut file = small_file(alloc)?;
    for byte in 1..11u8 {
        let mut disk = disk_of(alloc, &file, &[])?;
        commit(alloc, &mut disk, byte)?;
        assert!(rt; leaves_either(alloc, disk.host(), byte)?, "{byte}");
        file = file_of(alloc, &mut disk)?;
        assert_eq!(rt; found(alloc, &mut disk)?, [byte; 3]);
    }
    Ok(())
}
