//! Work on trees of entries in a file in memory, to be run under a counter of instructions: `tree_bench WHAT SIZE TIMES`.
//!
//! Each run makes a file, and then does a piece of work of that size so many times. Two runs with other times differ by
//! the work alone. `bench/trees` runs it, and prints what each piece of work takes, and how full it leaves the leaves.
#![tactic(auto)]

mod calls;
mod entries;
mod setup;
mod what;
mod work;

use bench_plan::{Plan, Stop, plan_of, words};
use extent_map::SpaceNotes;
use host_edge::FileHost;
use mdc_outside::Host;
use setup::{made, shape};
use std::alloc::Global;
use what::What;
use work::do_work;

fn main(rt: HostRuntime) -> Result<(), Stop> {
    let words = words(&rt)?;
    run(&rt, &words)
}

// Does what the words ask for, and prints a number that tells of it.
fn run(rt: &HostRuntime, words: &[String]) -> Result<(), Stop> {
    let Some(plan) = plan_of(words) else {
        println!(*rt;
            "usage: tree_bench add|rise|has|walk|remove|claim|fill|fill-rising SIZE TIMES"
        )?;
        return Ok(());
    };
    let host = FileHost::new(rt.alloc(), rt.clone()?, rt.stdout());
    let number = carry_out(rt.alloc(), host, plan)?;
    println!(*rt; "{number}")?;
    Ok(())
}

// Does the work on a new database, and answers a number that tells of it. What owns the database makes one call, to which
// it is lent.
fn carry_out<H: Host + Drop>(alloc: Global, host: H, plan: Plan<What>) -> Result<u64, Stop> {
    let shape = shape()?;
    let mut store = made(alloc, host)?;
    do_work(alloc, shape, &mut SpaceNotes::new(), &mut store, plan)
}
