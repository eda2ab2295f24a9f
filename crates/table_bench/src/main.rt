//! The tables of a database file, as its pages tell them, and a table that is filled: `table_bench show FILE`, and
//! `table_bench fill FILE ROWS SEED`.
//!
//! `show` prints each table in order of its place: its columns, dimensions and record indexes, and its rows by number, with
//! values as a reply shows them. It stands on `reference_reader`, which looks at no index, so that anyone can judge the
//! layers above by `docs/FORMAT.md`. An empty database shows nothing.
//!
//! `fill` makes a table W in a database without one in place 0, puts so many rows into it, changes every fifth and deletes
//! every seventh, and prints how many blocks are in each state. `bench/tables` runs it under a counter of instructions. It
//! stands on `cell_change` for one change at a time, and on `checked_table` for rows that are read and for the count.
#![tactic(auto)]

mod columns;
mod fill;
mod fill_rows;
mod filled;
mod generator;
mod keys;
mod pages;
mod plan;
mod row_values;
mod rows;
mod setup;
mod show;
mod stop;
mod table_text;
mod table_w;
mod text;
mod values;

use fill::fill;
use host_edge::FileHost;
use plan::{Plan, plan_of};
use show::show;
use std::{env, io};
use stop::Stop;

fn main(rt: HostRuntime) -> Result<(), Stop> {
    let words = words(&rt)?;
    let Some(plan) = plan_of(&words) else {
        println!(rt; "usage: table_bench show FILE, or table_bench fill FILE ROWS SEED")?;
        return Ok(());
    };
    let host = FileHost::new(rt.alloc(), rt.clone()?, rt.stdout());
    match plan {
        Plan::Show(path) => show(rt.alloc(), host, path),
        Plan::Fill(path, amount) => fill(rt.alloc(), host, path, amount),
    }
}

// The words after the program's name.
fn words(rt: &HostRuntime) -> io::Result<Vec<String>> {
    let mut words = Vec::new(rt.alloc());
    for word in env::args(rt)?.skip(1) {
        words.push(word)?;
    }
    Ok(words)
}
