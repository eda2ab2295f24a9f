// How a script was answered that was read to its end.
ghost use Rattle.std.specs.Prelude.{◌≡◌};
ghost use Rattle.session.specs.Stops.{served_by};

/// How the statements of a script were answered that was read to its end.
#[derive(Clone, Copy, Debug, PartialEq, Eq)]
pub enum Served {
    /// None was refused.
    AllDone,
    /// One at least was refused.
    SomeRefused,
}

impl Served {
    /// By whether a statement was refused.
    pub fn by_refusal(refused: bool) -> Served
        ensures { result ≡ served_by refused }
    {
        if refused {
            Served::SomeRefused
        } else {
            Served::AllDone
        }
    }
}
