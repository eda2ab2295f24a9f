// Hosts in memory with a file, and what can be seen of them.
use crate::silent::Silent;
use mdc_outside::{Call, Disk, Host, MemHost};
use std::alloc::Global;
use std::test::Fail;

/// What the bytes hold that a crash tears: what was written, or this byte. An open gate and a made byte are among them.
pub static FILLS: [Option<u8>; 5] = [None, Some(0x00), Some(0x4f), Some(0x4d), Some(0xff)];

/// A file of 18 pages, each of zeros but page 0, which says how many there are.
pub fn small_file(alloc: Global) -> Result<Vec<u8>, Fail> {
    let mut file = vec![in alloc; 0u8; 84 * 4096]?;
    file[66 * 4096 + 11] = 18;
    Ok(file)
}

/// A disk whose file has these bytes, and which fails these calls. The first call, that attaches the file, is done.
pub fn disk_of(alloc: Global, file: &[u8], fails: &[u64]) -> Result<Silent<MemHost>, Fail> {
    let file = file.to_vec(alloc)?;
    attached(MemHost::new(alloc, Some(file), fails.to_vec(alloc)?))
}

/// The disk of a host, with its file attached.
fn attached<H: Host + Drop>(mut host: H) -> Result<Silent<H>, Fail> {
    host.attach("table", false)?;
    Ok(Silent::new(host))
}

/// The bytes of the file of a disk.
pub fn file_of<H: Host>(alloc: Global, disk: &mut Silent<H>) -> Result<Vec<u8>, Fail> {
    let end = disk.len()?;
    let mut bytes = vec![in alloc; 0u8; end as usize]?;
    disk.read(0, &mut bytes)?;
    Ok(bytes)
}

/// The disk that a crash within a recorded call leaves.
pub fn crashed(
    alloc: Global,
    host: &MemHost,
    call: u64,
    fill: Option<u8>,
) -> Result<Silent<MemHost>, Fail> {
    if call < 1 || call > host.calls() {
        return Err(Fail::new("no such call"));
    }
    attached(host.after(alloc, call, fill)?)
}

/// How many of the recorded calls behind the first so many are this one.
pub fn times_called(host: &MemHost, begun: u64, call: Call) -> u64 {
    let mut times: u64 = 0;
    for n in begun..host.calls() {
        if host.call(n + 1) == call {
            times = times.saturating_add(1);
        }
    }
    times
}

/// Whether one of the recorded calls behind the first so many writes.
pub fn has_written(host: &MemHost, begun: u64) -> bool {
    for n in begun..host.calls() {
        if let Call::Write(_) = host.call(n + 1) {
            return true;
        }
    }
    false
}

/// Whether a recorded call writes or syncs. A crash within another leaves what one within the call before it leaves.
pub fn is_change(host: &MemHost, call: u64) -> bool {
    if call < 1 || call > host.calls() {
        return false;
    }
    matches!(host.call(call), Call::Write(_) | Call::Sync)
}

/// The number of the sync of this rank among the calls behind the first so many.
pub fn sync_behind(host: &MemHost, begun: u64, rank: u64) -> Result<u64, Fail> {
    let mut syncs: u64 = 0;
    for n in begun..host.calls() {
        if host.call(n + 1) == Call::Sync {
            syncs = syncs.saturating_add(1);
            if syncs == rank {
                return Ok(n + 1);
            }
        }
    }
    Err(Fail::new("no such sync"))
}
