// What a file was as it was opened, for contracts.
ghost use Rattle.std.specs.Prelude.{ℕ, List, Option, None};

use std::marker::Brand;

/// The bytes that a file had before it was opened. No value holds them: a caller that wants to know what has become of the
/// file since picks them at its call of a function over `O: Origin`, which it calls with `Brand`.
pub trait Origin {
    /// These bytes, where they are picked.
    ghost first: { Option (List ℕ) };
}

impl Origin for Brand {
    ghost first = { None };
}
