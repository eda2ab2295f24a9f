// The line of LIST BLOCKS.
ghost use Rattle.std.specs.Prelude.{◌≡◌, IfOk};
ghost use Rattle.answer_text.specs.BlockCounts as spec;

use crate::appending::{append, append_count};
use mdc_values::{Chars, Memory};
use std::alloc::Global;

/// The line that tells how many blocks are in each state.
pub fn blocks_line(alloc: Global, used: u64, free: u64, pending: u64) -> Result<Chars, Memory>
    ensures { IfOk result (λ line. line ≡ spec.blocks_line used free pending) }
{
    let mut line = Vec::new(alloc);
    append(b"USED ", &mut line)?;
    append_count(used, b" FREE ", &mut line)?;
    append_count(free, b" PENDING ", &mut line)?;
    append_count(pending, b"\n", &mut line)?;
    Ok(Chars::from_vec(line))
}
