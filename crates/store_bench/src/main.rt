//! Work on a store in a file in memory, to be run under a counter of instructions: `store_bench WHAT SIZE TIMES`.
//!
//! Each run sets up a file, and then does a piece of work of that size so many times. Two runs with other times differ by
//! the work alone. `bench/store` runs it, and prints what each piece of work takes.
#![tactic(auto)]

mod calls;
mod opening;
mod setup;
mod what;
mod work;

use bench_plan::{Plan, Stop, plan_of, words};
use host_edge::FileHost;
use mdc_outside::Host;
use opening::open;
use setup::made;
use std::alloc::Global;
use what::What;
use work::{MANY, do_work};

fn main(rt: HostRuntime) -> Result<(), Stop> {
    let words = words(&rt)?;
    run(&rt, &words)
}

// Does what the words ask for, and prints the sum of what it saw.
fn run(rt: &HostRuntime, words: &[String]) -> Result<(), Stop> {
    let Some(plan) = plan_of(words) else {
        println!(*rt; "usage: store_bench open|hot|cold|commit|undo|first|again SIZE TIMES")?;
        return Ok(());
    };
    let host = FileHost::new(rt.alloc(), rt.clone()?, rt.stdout());
    let sum = carry_out(rt.alloc(), host, plan)?;
    println!(*rt; "{sum}")?;
    Ok(())
}

// Does the work, and answers the sum of what it saw. What owns the store makes one call, to which it is lent.
fn carry_out<H: Host + Drop>(alloc: Global, host: H, plan: Plan<What>) -> Result<u64, Stop> {
    let Plan { what, size, times } = plan;
    match what {
        What::Open => open(alloc, host, size, times),
        What::Store(work) => {
            let mut store = made(alloc, host, MANY)?;
            do_work(&mut store, work, size, times)
        }
    }
}
