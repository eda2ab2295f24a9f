// What a check says.
use store_api::Damage;

/// What a check says of pages.
#[derive(Clone, Copy, Debug, PartialEq, Eq)]
pub enum Verdict {
    /// They keep all rules.
    Sound,
    /// The first rule that is broken, and the lowest page that breaks it.
    Broken(Damage),
}
