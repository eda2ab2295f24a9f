// What the rows of a block are begun with, as contracts know it.
ghost use Rattle.std.specs.Prelude.{None, Option};
ghost use Rattle.executor.specs.Begun.{Begun};

use std::marker::Brand;

/// What the rows of a block are begun with, which only contracts see. A type stands for it, so that the sink which comes back from the
/// scan of a block is known to be the one that was lent.
pub(crate) trait Beginning<K> {
    ghost begun: { Option (Begun K) };
}

impl<K> Beginning<K> for Brand {
    ghost begun = { None };
}
