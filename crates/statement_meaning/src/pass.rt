// How far the cleaner is.

/// How far the cleaner is, which frees blocks behind items. A run begins, and an engine opens, with it idle.
#[derive(Clone, Copy, Debug, PartialEq, Eq)]
pub enum Pass {
    /// It is at work on no table.
    Idle,
}
