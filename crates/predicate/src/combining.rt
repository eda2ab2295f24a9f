// AND, OR and NOT of three truths.
ghost use Rattle.std.specs.Prelude.{◌≡◌};
ghost use Rattle.mdc_ast.specs.Truth.{and_of, negated_if, not_of, or_of};

use mdc_values::Truth;

pub fn not(truth: Truth) -> Truth
    ensures { result ≡ not_of truth }
{
    match truth {
        Truth::True => Truth::False,
        Truth::False => Truth::True,
        Truth::Unknown => Truth::Unknown,
    }
}

pub fn and(a: Truth, b: Truth) -> Truth
    ensures { result ≡ and_of a b }
{
    match (a, b) {
        (Truth::True, other) | (other, Truth::True) => other,
        (Truth::False, _) | (_, Truth::False) => Truth::False,
        _ => Truth::Unknown,
    }
}

pub fn or(a: Truth, b: Truth) -> Truth
    ensures { result ≡ or_of a b }
{
    match (a, b) {
        (Truth::False, other) | (other, Truth::False) => other,
        (Truth::True, _) | (_, Truth::True) => Truth::True,
        _ => Truth::Unknown,
    }
}

pub fn negated_if(negated: bool, truth: Truth) -> Truth
    ensures { result ≡ negated_if negated truth }
{
    if negated { not(truth) } else { truth }
}
