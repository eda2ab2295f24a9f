// Which pages come to hand in a run, by a log of them.
use crate::hosts::{host_of, small_database};
use crate::runs::{log_script, run_script};
use page_store::PageLog;
use std::alloc::Global;
use std::process::Abort;
use std::test::Fail;

// Three cells, each with one row.
const ROWS: &[u8] =
    b"CREATE TABLE T (A INTEGER, B INTEGER) ORGANIZE BY (A); INSERT INTO T VALUES (1, 10), (2, 20), (3, 30);";

// The log of a run on the database with these rows.
fn log_of(alloc: Global, script: &[u8]) -> Result<PageLog, Fail> {
    let host = host_of(alloc, &small_database(alloc)?, &[])?;
    let (_, host) = run_script(alloc, ROWS, host)?;
    let mut log = PageLog::new(alloc);
    let (end, _) = log_script(alloc, script, host, &mut log)?;
    if end.is_err() {
        return Err(Fail::new("the run stopped"));
    }
    Ok(log)
}

// How many pages stand in the one log and not in the other.
fn count_of_own(log: &PageLog, other: &PageLog) -> usize {
    let mut count = 0;
    for page in log.pages() {
        if !other.pages().contains(page) && count < usize::MAX {
            count += 1;
        }
    }
    count
}

// The definitions are read of the table pages, and then queries of two cells bring the same pages to hand, but for the one with the row.
#[test]
fn a_query_of_one_cell_leaves_the_rows_of_others(rt: HostRuntime) -> Result<(), Fail> {
    let first = log_of(rt.alloc(), b"SELECT * FROM T WHERE A = 1;")?;
    let second = log_of(rt.alloc(), b"SELECT * FROM T WHERE A = 2;")?;
    assert_eq!(rt; first.pages().get(..16), second.pages().get(..16));
    assert_eq!(rt; first.pages().first(), Some(&1));
    assert_eq!(rt; count_of_own(&first, &second), 1);
    assert_eq!(rt; count_of_own(&second, &first), 1);
    Ok(())
}

// What can't be read brings no page to hand.
#[test]
fn a_refused_item_brings_no_page(rt: HostRuntime) -> Result<(), Fail> {
    let log = log_of(rt.alloc(), b"SELECT;")?;
    assert_eq!(rt; log.pages().len(), 16);
    Ok(())
}
