// Zeros.
ghost use Rattle.std.specs.Prelude.{◌≡◌, ◌≤◌, replicate};

use store_api::blank_page;

/// So many zeros, at most a page.
pub fn zeros(n: usize) -> &'static [u8]
    requires { n ≤ 4096 }
    ensures { result.now ≡ replicate n 0 }
{
    &blank_page()[..n]
}
