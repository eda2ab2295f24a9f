// A table of a file is filled.
use crate::fill_rows::fill_store;
use crate::plan::Amount;
use crate::setup::{opened, shape_of};
use crate::stop::Stop;
use crate::text::{append, append_number};
use checked_table::Account;
use mdc_outside::Host;
use mdc_values::Memory;
use std::alloc::Global;

/// Fills a table of a file, and says how many of its blocks are in each state.
pub fn fill<H: Host + Drop>(
    alloc: Global,
    host: H,
    path: &str,
    amount: Amount,
) -> Result<(), Stop> {
    let mut store = opened(alloc, host, path)?;
    let shape = shape_of(&store)?;
    let account = fill_store(alloc, shape, &mut store, amount)?;
    let mut host = store.close().host;
    let mut text = Vec::new(alloc);
    append_account(account, &mut text)?;
    host.say(&text)?;
    Ok(())
}

// Appends `USED n FREE n PENDING n`.
fn append_account(account: Account, out: &mut Vec<u8>) -> Result<(), Memory> {
    append(b"USED ", out)?;
    append_number(account.used, out)?;
    append(b" FREE ", out)?;
    append_number(account.free, out)?;
    append(b" PENDING ", out)?;
    append_number(account.pending, out)?;
    append(b"\n", out)
}
