// A file that is opened and closed.
use crate::setup::made;
use bench_plan::{Stop, opened};
use mdc_outside::Host;
use std::alloc::Global;
use store_api::Pages;

/// Opens a file of at least so many pages, and closes it. Answers the sum of how many it has.
pub fn open<H: Host + Drop>(alloc: Global, host: H, pages: u32, times: u32) -> Result<u64, Stop> {
    let mut host = made(alloc, host, pages)?.close().host;
    let mut sum: u64 = 0;
    for _ in 0..times {
        let store = opened(alloc, host)?;
        sum = sum.wrapping_add(u64::from(store.count()));
        host = store.close().host;
    }
    Ok(sum)
}
