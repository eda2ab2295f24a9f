// A crash in each call of a run.
use crate::commits::twelve_commits;
use crate::hosts::{crashed, small_database};
use crate::indexed_commits::indexed_commits;
use crate::rolled_commits::rolled_commits;
use crate::scenario::Scenario;
use std::process::Abort;
use std::test::Fail;

// A crash in any call of a run leaves each commit that was answered, and at most one more. The bytes that it tears hold the fill,
// or what was written.
fn crash_in_each_call(
    rt: &(impl Abort + AllocGlobal),
    scenario: &Scenario,
    fill: Option<u8>,
) -> Result<(), Fail> {
    let alloc = rt.alloc();
    let host = scenario.done(alloc, &small_database(alloc)?)?;
    for n in 0..host.calls() {
        let left = crashed(alloc, &host, n + 1, fill)?;
        let said = left.said().len();
        let found = scenario.commits_on(alloc, left)?;
        assert!(rt;
            scenario.may_find(host.call(n + 1), said, found),
            "{n} {found}"
        );
    }
    Ok(())
}

#[test]
fn a_crash_leaves_commits_and_what_was_written(rt: HostRuntime) -> Result<(), Fail> {
    crash_in_each_call(&rt, &twelve_commits(), None)
}

#[test]
fn a_crash_leaves_commits_and_zeros(rt: HostRuntime) -> Result<(), Fail> {
    crash_in_each_call(&rt, &twelve_commits(), Some(0x00))
}

#[test]
fn a_crash_leaves_commits_and_open_gates(rt: HostRuntime) -> Result<(), Fail> {
    crash_in_each_call(&rt, &twelve_commits(), Some(0x4f))
}

#[test]
fn a_crash_leaves_commits_and_ones(rt: HostRuntime) -> Result<(), Fail> {
    crash_in_each_call(&rt, &twelve_commits(), Some(0xff))
}

#[test]
fn a_crash_leaves_commits_of_record_indexes(rt: HostRuntime) -> Result<(), Fail> {
    crash_in_each_call(&rt, &indexed_commits(), None)
}

#[test]
fn a_crash_leaves_commits_of_rollouts(rt: HostRuntime) -> Result<(), Fail> {
    crash_in_each_call(&rt, &rolled_commits(), None)
}
