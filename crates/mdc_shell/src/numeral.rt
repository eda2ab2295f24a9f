// Numbers on the command line.
ghost use Rattle.std.specs.Prelude.{ℕ, MatchOption};
ghost use Rattle.mdc_shell.specs.Words.{IsNumeral};

// How many digits a number may have.
const MOST_DIGITS: usize = 9;

/// The number that one to nine decimal digits without a leading zero write.
pub fn number_in(text: &str) -> Option<u32>
    ensures { MatchOption result ((n : ℕ) → IsNumeral text.now n → ⊥) (IsNumeral text.now) }
{
    let first = *text.as_bytes().first()?;
    if first == b'0' || first == b'+' || text.len() > MOST_DIGITS {
        return None;
    }
    text.parse::<u32>().ok()
}
