// What a run is set to.
ghost use Rattle.std.specs.Prelude.{◌≡◌};
ghost use Rattle.statement_meaning.specs.Session.{first_settings};

use mdc_ast::{PlanMode, RolloutMode};

/// What a run is set to; a database keeps none of it.
#[derive(Clone, Copy, Debug, PartialEq, Eq)]
pub struct Settings {
    /// When a DELETE gives blocks back.
    pub rollout: RolloutMode,
    /// How rows are found.
    pub plan: PlanMode,
    /// How many steps the cleaner takes behind each item.
    pub pace: u32,
}

impl Settings {
    /// As each run begins: IMMEDIATE, AUTO and a pace of 1.
    pub fn first() -> Settings
        ensures { result ≡ first_settings }
    {
        Settings {
            rollout: RolloutMode::Immediate,
            plan: PlanMode::Auto,
            pace: 1,
        }
    }
}
