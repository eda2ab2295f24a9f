// What a replay refuses, and which gates it closes.
use crate::hosts::{FILLS, crashed, disk_of, file_of, has_written, is_change, times_called};
use crate::layout::file_with_two;
use crate::logs::found;
use mdc_outside::Call;
use redo_journal::ReplayFault;
use redo_log::replay;
use std::alloc::Global;
use std::test::Fail;
use store_api::Damage;

/// A place and the byte that is written over it in a file with two records: a record starts before the log, ends behind
/// it, starts before the end of the one below it, or has the same number twice.
const SPOILT: [(usize, u8); 4] = [(3075, 1), (3079, 64), (3083, 4), (2 * 4096 + 7, 5)];

/// What a replay of these bytes is refused for.
fn refusal(alloc: Global, file: &[u8]) -> Result<Option<ReplayFault>, Fail> {
    let mut disk = disk_of(alloc, file, &[])?;
    let refused = replay(alloc, &mut disk).err();
    if has_written(disk.host(), 0) {
        return Err(Fail::new("it has written"));
    }
    Ok(refused)
}

/// The first so many bytes.
fn front(file: &[u8], n: usize) -> &[u8] {
    &file[..n.min(file.len())]
}

#[test]
fn a_record_that_does_not_lie_where_it_may_is_damage(rt: HostRuntime) -> Result<(), Fail> {
    let alloc = rt.alloc();
    let damage = Some(ReplayFault::Damaged(Damage { page: 0, rule: 1 }));
    let file = file_with_two(alloc)?;
    assert_eq!(rt; refusal(alloc, &file)?, None);
    for (at, byte) in SPOILT {
        let mut spoilt = file.to_vec(alloc)?;
        if at < spoilt.len() {
            spoilt[at] = byte;
        }
        assert_eq!(rt; refusal(alloc, &spoilt)?, damage, "{at}");
    }
    assert_eq!(rt; refusal(alloc, front(&file, 8 * 4096))?, None);
    assert_eq!(rt; refusal(alloc, front(&file, 8 * 4096 - 1))?, damage);
    Ok(())
}

/// A file with two records, whose third gate holds another byte than an open one, and the fourth and the last are open.
fn file_with_strays(alloc: Global) -> Result<Vec<u8>, Fail> {
    let mut file = file_with_two(alloc)?;
    for (at, byte) in [(2050, 0x7f), (2051, 0x4f), (2079, 0x4f)] {
        if at < file.len() {
            file[at] = byte;
        }
    }
    Ok(file)
}

#[test]
fn gates_above_a_closed_one_are_closed_in_one_write(rt: HostRuntime) -> Result<(), Fail> {
    let alloc = rt.alloc();
    let mut disk = disk_of(alloc, &file_with_strays(alloc)?, &[])?;
    assert_eq!(rt; found(alloc, &mut disk)?, [1, 2, 2]);
    assert_eq!(rt; times_called(disk.host(), 0, Call::Write(2051)), 1);
    assert_eq!(rt; times_called(disk.host(), 0, Call::Sync), 1);
    let file = file_of(alloc, &mut disk)?;
    for (at, byte) in [(2049, 0x4f), (2050, 0x7f), (2051, 0), (2079, 0)] {
        assert_eq!(rt; file.get(at), Some(&byte), "{at}");
    }
    assert_eq!(rt; found(alloc, &mut disk)?, [1, 2, 2]);
    assert_eq!(rt; times_called(disk.host(), 0, Call::Sync), 1);
    Ok(())
}

#[test]
fn a_crash_while_gates_are_closed_leaves_the_records(rt: HostRuntime) -> Result<(), Fail> {
    let alloc = rt.alloc();
    let mut disk = disk_of(alloc, &file_with_strays(alloc)?, &[])?;
    assert_eq!(rt; found(alloc, &mut disk)?, [1, 2, 2]);
    for n in 0..disk.host().calls() {
        if !is_change(disk.host(), n + 1) {
            continue;
        }
        for fill in FILLS {
            let mut left = crashed(alloc, disk.host(), n + 1, fill)?;
            assert_eq!(rt; found(alloc, &mut left)?, [1, 2, 2], "{n} {fill:?}");
        }
    }
    Ok(())
}

/// How long a file with two records is cut, and whether a replay refuses it then: where a gate is left, its record lies
/// outside the file.
const CUTS: [(usize, bool); 6] = [
    (0, false),
    (2048, false),
    (2049, true),
    (2080, true),
    (8191, true),
    (8192, true),
];

#[test]
fn a_gate_behind_the_end_of_a_file_is_closed(rt: HostRuntime) -> Result<(), Fail> {
    let alloc = rt.alloc();
    let file = file_with_two(alloc)?;
    for (end, is_refused) in CUTS {
        let refused = refusal(alloc, front(&file, end))?;
        assert_eq!(rt; refused.is_some(), is_refused, "{end}");
    }
    Ok(())
}

#[test]
fn the_gates_that_a_short_file_has_are_closed(rt: HostRuntime) -> Result<(), Fail> {
    let alloc = rt.alloc();
    let mut file = vec![in alloc; 0u8; 2050]?;
    file[2049] = 0x4f;
    let mut disk = disk_of(alloc, &file, &[])?;
    assert!(rt; replay(alloc, &mut disk).is_ok());
    let left = file_of(alloc, &mut disk)?;
    assert_eq!(rt; left.len(), 2050);
    assert_eq!(rt; left.get(2049), Some(&0));
    Ok(())
}
