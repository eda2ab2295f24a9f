// How many records count, as the gates say.
ghost use Rattle.std.specs.Prelude.{◌≡◌, ◌≢◌, ◌≤◌, ◌<◌, ℕ, length, false, slice_index, true};
ghost use Rattle.redo_log.specs.Layout.{leading};

use crate::layout::OPEN;

/// How many of these gates stand open before the first that doesn't.
pub(crate) fn count_open(gates: &[u8]) -> u32
    requires { length gates.now ≤ 32 }
    ensures count { result ≡ leading gates.now }
    ensures within { result ≤ length gates.now }
{
    let mut n = 0;
    for gate in gates {
        if *gate != OPEN {
            return n;
        }
        n += 1;
    }
    n
}

/// Whether one of these gates stands open from a place on.
pub(crate) fn has_open(gates: &[u8], from: u32) -> bool
    ensures none { result ≡ false → (k : ℕ) → from ≤ k → k < length gates.now → slice_index gates.now k ≢ 79 }
    ensures some { result ≡ true → (k : ℕ) × (from ≤ k) × (k < length gates.now) × (slice_index gates.now k ≡ 79) }
{
    for (k, gate) in gates.iter().enumerate() {
        if k >= from as usize && *gate == OPEN {
            return true;
        }
    }
    false
}
