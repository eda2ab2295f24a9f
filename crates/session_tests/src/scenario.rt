// A script of commits, any: how it is run, and how many of its commits the next run finds.
use crate::hosts::host_of;
use crate::runs::{run_script, said_by};
use mdc_outside::{Call, MemHost};
use session::Served;
use std::alloc::Global;
use std::test::Fail;

/// A statement, its reply, and how many commits there are when it is done.
pub type Step = (&'static [u8], &'static [u8], usize);

/// A script with its replies, and what the next run finds after each number of commits.
#[derive(Clone, Copy)]
pub struct Scenario {
    /// Its statements, of which at least one is refused.
    pub steps: &'static [Step],
    /// What the next run is asked.
    pub query: &'static [u8],
    /// What it answers after each number of commits, from 0 on: no two alike.
    pub found: &'static [&'static [u8]],
}

impl Scenario {
    /// Its statements, one after another.
    pub fn script(&self, alloc: Global) -> Result<Vec<u8>, Fail> {
        let mut script = Vec::new(alloc);
        for &(statement, _, _) in self.steps {
            script.extend_from_slice(statement)?;
        }
        Ok(script)
    }

    // All replies, one after another.
    fn replies(&self, alloc: Global) -> Result<Vec<u8>, Fail> {
        let mut all = Vec::new(alloc);
        for &(_, reply, _) in self.steps {
            all.extend_from_slice(reply)?;
        }
        Ok(all)
    }

    /// A host on which all of the script is done.
    pub fn done(&self, alloc: Global, file: &[u8]) -> Result<MemHost, Fail> {
        let host = host_of(alloc, file, &[])?;
        let (end, host) = run_script(alloc, &self.script(alloc)?, host)?;
        if end != Ok(Served::SomeRefused) || host.said() != self.replies(alloc)?.as_slice() {
            return Err("a script that isn't done")?;
        }
        Ok(host)
    }

    /// How many commits the next run finds on a host.
    pub fn commits_on(&self, alloc: Global, host: MemHost) -> Result<usize, Fail> {
        let (end, said) = said_by(alloc, self.query, host)?;
        if end.is_err() {
            return Err("a file that isn't served")?;
        }
        let said = said.as_slice();
        let Some(commits) = self.found.iter().position(|found| *found == said) else {
            return Err("a reply after no number of commits")?;
        };
        Ok(commits)
    }

    // The least and the greatest number of commits where so many bytes of the replies were said: those of the statements whose
    // replies were begun, and those with one statement more than the replies that are whole.
    fn commits_by(&self, said: usize) -> (usize, usize) {
        let mut least = 0;
        let mut most = 0;
        let mut begin: usize = 0;
        for &(_, reply, commits) in self.steps {
            if begin < said {
                least = commits;
            }
            if begin <= said {
                most = commits;
            }
            begin = begin.saturating_add(reply.len());
        }
        (least, most)
    }

    /// Whether the next run may find so many commits behind this call, before which so many bytes of the replies were said. A
    /// reply is said only once its commit is on the disk.
    pub fn may_find(&self, call: Call, said: usize, found: usize) -> bool {
        let (least, most) = self.commits_by(said);
        if call == Call::Say {
            return found == most;
        }
        least <= found && found <= most
    }
}
