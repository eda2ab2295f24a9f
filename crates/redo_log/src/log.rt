// The log: how many of its records count, and where it ends.
ghost use Rattle.redo_log.specs.Bounds.{IsInLog};

/// The log of a file: how many of its records count, and the file page behind them.
///
/// Its calls need the disk that it was replayed from, changed since by them and by commits of the journal alone. After a
/// fault of the disk it takes no further call.
#[derive(Clone, Copy, Debug)]
pub struct RedoLog {
    pub(crate) gates: u8,
    pub(crate) end: u32,
    ghost in_log: { IsInLog gates end },
}
