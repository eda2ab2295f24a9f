// Types of columns: which are numbers, which are alike, and how wide their values are.
ghost use Rattle.std.specs.Prelude.{◌≡◌};
ghost use Rattle.mdc_ast.specs.Definitions.{width};
ghost use Rattle.mdc_ast.specs.Kinds.{is_number, kind_of, same_kind};

use mdc_values::ColType;

/// Whether a type is one of numbers.
pub fn is_number(ty: ColType) -> bool
    ensures { result ≡ is_number ty }
{
    match ty {
        ColType::Integer | ColType::Bigint => true,
        ColType::Char(_) | ColType::Date => false,
    }
}

/// Whether values of two types can be compared.
pub fn are_alike(a: ColType, b: ColType) -> bool
    ensures { result ≡ same_kind (kind_of a) (kind_of b) }
{
    match a {
        ColType::Integer | ColType::Bigint => is_number(b),
        ColType::Char(_) => matches!(b, ColType::Char(_)),
        ColType::Date => matches!(b, ColType::Date),
    }
}

/// The bytes that a value of a type takes in a row, and in a key behind its byte for null.
pub fn width(ty: ColType) -> u64
    ensures { result ≡ width ty }
{
    match ty {
        ColType::Integer | ColType::Date => 4,
        ColType::Bigint => 8,
        ColType::Char(n) => u64::from(n),
    }
}
