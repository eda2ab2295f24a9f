// A script in memory, for tests.
ghost use Rattle.std.specs.Prelude.{◌≡◌, ◌≤◌, ◌<◌, [], Some, drop, take, length};

use crate::{Failed, Source};
use mdc_words::count_fault;

/// A source that keeps its script in memory. It gives at most `step` bytes a read, and fails the reads whose numbers,
/// counted from 1, stand in `fails`.
#[derive(Debug, Drop)]
pub struct MemSource {
    bytes: Vec<u8>,
    at: usize,
    step: usize,
    fails: Vec<u64>,
    calls: u64,
    faults: u64,
    ghost within: { at ≤ length bytes.items },
    ghost moving: { 0 < step },
}

impl MemSource {
    /// A source with all of the bytes left, and no fault counted.
    pub fn new(bytes: Vec<u8>, step: usize, fails: Vec<u64>) -> MemSource
        requires { 0 < step }
        ensures left { ⟦<MemSource as Source>⟧.left result ≡ Some bytes.items }
        ensures count { ⟦<MemSource as Source>⟧.read_faults result ≡ 0 }
    {
        MemSource {
            bytes,
            at: 0,
            step,
            fails,
            calls: 0,
            faults: 0,
        }
    }
}

impl Source for MemSource {
    ghost left = { λ source. Some (drop source.at source.bytes.items) };

    ghost read_faults = { λ source. source.faults };

    fn read(&mut self, out: &mut [u8]) -> Result<usize, Failed> {
        self.calls = self.calls.saturating_add(1);
        if self.fails.contains(&self.calls) {
            count_fault(&mut self.faults);
            return Err(Failed);
        }
        let (_, rest) = self.bytes.as_slice().split_at(self.at);
        let count = copy_front(rest, self.step, out);
        self.at += count;
        Ok(count)
    }
}

// Copies a front of the bytes, as much as `most` and the room allow, and answers how much.
fn copy_front(bytes: &[u8], most: usize, out: &mut [u8]) -> usize
    ensures copied { take result out.new ≡ take result bytes.now }
    ensures within { result ≤ length bytes.now }
    ensures room { result ≤ length out.new }
    ensures some { result ≡ 0 → 0 < most → 0 < length out.old → bytes.now ≡ [] }
{
    let count = bytes.len().min(out.len()).min(most);
    out[..count].copy_from_slice(&bytes[..count]);
    count
}
