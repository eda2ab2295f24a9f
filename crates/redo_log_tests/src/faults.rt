// What a fault in each call of an append and a checkpoint leaves.
use crate::hosts::{disk_of, file_of};
use crate::layout::{file_with_one, file_with_two};
use crate::logs::{append_to, checkpoint_of, found, images_of};
use redo_log::LogFault;
use std::alloc::Global;
use std::test::Fail;

/// How many calls a disk is asked for by its attaching and a replay of this file.
fn replayed_by(alloc: Global, file: &[u8]) -> Result<u64, Fail> {
    let mut disk = disk_of(alloc, file, &[])?;
    redo_log::replay(alloc, &mut disk)?;
    Ok(disk.host().calls())
}

#[test]
fn each_call_of_an_append_fails(rt: HostRuntime) -> Result<(), Fail> {
    let alloc = rt.alloc();
    let file = file_with_one(alloc)?;
    let images = images_of(alloc, 6, 2, 2)?;
    let mut whole = disk_of(alloc, &file, &[])?;
    append_to(alloc, &mut whole, &images)?;
    for n in replayed_by(alloc, &file)?..whole.host().calls() {
        let mut disk = disk_of(alloc, &file, &[n.saturating_add(1)])?;
        assert_eq!(rt;
            append_to(alloc, &mut disk, &images)?,
            Some(LogFault::Device),
            "{n}"
        );
        let now = found(alloc, &mut disk)?;
        assert!(rt; now == [1, 1, 0] || now == [1, 2, 2], "{n}");
    }
    Ok(())
}

#[test]
fn each_call_of_a_checkpoint_fails(rt: HostRuntime) -> Result<(), Fail> {
    let alloc = rt.alloc();
    let file = file_with_two(alloc)?;
    let mut whole = disk_of(alloc, &file, &[])?;
    checkpoint_of(alloc, &mut whole)?;
    for n in replayed_by(alloc, &file)?..whole.host().calls() {
        let mut disk = disk_of(alloc, &file, &[n.saturating_add(1)])?;
        assert!(rt; !checkpoint_of(alloc, &mut disk)?, "{n}");
        assert_eq!(rt; found(alloc, &mut disk)?, [1, 2, 2], "{n}");
        assert_eq!(rt; file_of(alloc, &mut disk)?.len(), file.len(), "{n}");
    }
    Ok(())
}
