// An opening: what it refuses, and what a fault and a crash in each of its calls leaves while a journal waits.
use crate::hosts::{FILLS, crashed, file_of, host_of, small_database, sync_behind};
use crate::stores::{byte_in, sizes_of, with_sevens, with_sevens_ready};
use mdc_outside::MemHost;
use page_store::OpenFault;
use std::alloc::Global;
use std::test::Fail;
use store_api::Damage;

/// This page of the count is missing.
fn missing(page: u32) -> OpenFault {
    OpenFault::Damaged(Damage { page, rule: 1 })
}

/// Why a small database is refused that ends within this file page.
fn refusal_at(file_page: u32) -> OpenFault {
    match file_page {
        0..=1 => OpenFault::Unmade,
        2..=66 => missing(0),
        _ => missing(file_page - 66),
    }
}

#[test]
fn a_file_that_is_cut_off_is_refused_for_its_first_page_that_is_not_whole(
    rt: HostRuntime,
) -> Result<(), Fail> {
    let alloc = rt.alloc();
    let file = small_database(alloc)?;
    for n in 0..84u32 {
        for more in [0, 4095] {
            let end = (n as usize * 4096 + more).min(file.len());
            let (sizes, _) = sizes_of(alloc, host_of(alloc, &file[..end], &[])?);
            assert_eq!(rt; sizes, Err(refusal_at(n)), "{n} {more}");
        }
    }
    Ok(())
}

/// Bytes that are written over a small database, where, and why it is refused then: another version, two pages more than
/// there is, and another word at its birth.
const SPOILT: [(usize, &[u8], OpenFault); 3] = [
    (66 * 4096 + 7, b"\x02", OpenFault::Version(2)),
    (
        66 * 4096 + 11,
        b"\x14",
        OpenFault::Damaged(Damage { page: 18, rule: 1 }),
    ),
    (4096, b"m", OpenFault::NotMdc),
];

#[test]
fn each_refusal_has_its_cause(rt: HostRuntime) -> Result<(), Fail> {
    let alloc = rt.alloc();
    for (at, bytes, fault) in SPOILT {
        let mut file = small_database(alloc)?;
        assert!(rt; at + 1 <= file.len());
        file[at..at + 1].copy_from_slice(bytes);
        let (sizes, _) = sizes_of(alloc, host_of(alloc, &file, &[])?);
        assert_eq!(rt; sizes, Err(fault), "{at}");
    }
    Ok(())
}

/// The file that a crash leaves behind the sync of an open gate: its journal has page 5 full of sevens.
fn file_with_journal(alloc: Global) -> Result<Vec<u8>, Fail> {
    let file = small_database(alloc)?;
    let ready = with_sevens_ready(alloc, host_of(alloc, &file, &[])?)?;
    let (_, host) = with_sevens(alloc, host_of(alloc, &file, &[])?)?;
    let gate = sync_behind(&host, ready.calls(), 2)?;
    let mut left = crashed(alloc, &host, gate.saturating_add(1), None)?;
    file_of(alloc, &mut left)
}

/// A host that has brought the journal home.
fn recovered(alloc: Global, file: &[u8]) -> Result<MemHost, Fail> {
    let (sizes, host) = sizes_of(alloc, host_of(alloc, file, &[])?);
    sizes?;
    Ok(host)
}

#[test]
fn each_call_of_an_opening_fails(rt: HostRuntime) -> Result<(), Fail> {
    let alloc = rt.alloc();
    let file = file_with_journal(alloc)?;
    for n in 0..recovered(alloc, &file)?.calls() {
        let (sizes, host) = sizes_of(alloc, host_of(alloc, &file, &[n + 1])?);
        assert_eq!(rt; sizes, Err(OpenFault::Device), "{n}");
        assert_eq!(rt; byte_in(alloc, host, 5)?, 7, "{n}");
    }
    Ok(())
}

#[test]
fn an_opening_that_is_cut_off_is_gone_on_with(rt: HostRuntime) -> Result<(), Fail> {
    let alloc = rt.alloc();
    let file = file_with_journal(alloc)?;
    let host = recovered(alloc, &file)?;
    for n in 0..host.calls() {
        for fill in FILLS {
            let left = crashed(alloc, &host, n + 1, fill)?;
            assert_eq!(rt; byte_in(alloc, left, 5)?, 7, "{n} {fill:?}");
        }
    }
    Ok(())
}
