// A fault in each call of a run.
use crate::commits::twelve_commits;
use crate::hosts::{host_of, small_database};
use crate::runs::run_script;
use crate::scenario::Scenario;
use mdc_outside::Call;
use session::Stop;
use std::process::Abort;
use std::test::Fail;

// Why a run stops in which this call fails.
fn stop_at(call: Call) -> Stop {
    if call == Call::Say {
        Stop::Unsaid
    } else {
        Stop::Device
    }
}

// A run in which any call fails stops with its cause, and leaves what a crash may.
fn fault_in_each_call(rt: &(impl Abort + AllocGlobal), scenario: &Scenario) -> Result<(), Fail> {
    let alloc = rt.alloc();
    let file = small_database(alloc)?;
    let script = scenario.script(alloc)?;
    let host = scenario.done(alloc, &file)?;
    // The first call attaches the file.
    for n in 1..host.calls() {
        let (end, left) = run_script(alloc, &script, host_of(alloc, &file, &[n + 1])?)?;
        let call = host.call(n + 1);
        assert_eq!(rt; end, Err(stop_at(call)), "{n}");
        let said = left.said().len();
        let found = scenario.commits_on(alloc, left)?;
        assert!(rt; scenario.may_find(call, said, found), "{n} {found}");
    }
    Ok(())
}

#[test]
fn each_call_of_a_run_fails(rt: HostRuntime) -> Result<(), Fail> {
    fault_in_each_call(&rt, &twelve_commits())
}
