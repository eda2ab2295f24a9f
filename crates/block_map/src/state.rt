// What a block is used for.
ghost use Rattle.std.specs.Prelude.{◌≡◌, ◌<◌, MatchOption};
ghost use Rattle.block_map.specs.MapRows.{state_number};

/// The state of a block of a table.
#[derive(Clone, Copy, Debug, PartialEq, Eq)]
pub enum BlockState {
    /// It is empty, and any cell may use it.
    Free,
    /// It has rows.
    Used,
    /// It was rolled out, and entries of it may be left in record indexes.
    Pending,
}

impl BlockState {
    /// The number that an entry has for it.
    pub(crate) fn number(self) -> u8
        ensures { result ≡ state_number self }
    {
        match self {
            BlockState::Free => 0,
            BlockState::Used => 1,
            BlockState::Pending => 2,
        }
    }

    /// The state of a number. None where it is above 2.
    pub(crate) fn of(number: u8) -> Option<BlockState>
        ensures { MatchOption result (2 < number) (λ state. number ≡ state_number state) }
    {
        if number == 0 {
            return Some(BlockState::Free);
        }
        if number == 1 {
            return Some(BlockState::Used);
        }
        if number == 2 {
            return Some(BlockState::Pending);
        }
        None
    }
}
