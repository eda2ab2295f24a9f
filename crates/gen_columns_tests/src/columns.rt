// The expressions of the tests.
use mdc_ast::{GenExpr, GenKind};

/// `INTEGER(D)`
pub const DIGITS: GenExpr = GenExpr {
    kind: GenKind::IntegerOver,
    base: 0,
    k: 1,
};

/// `INTEGER(D)/100`
pub const MONTHS: GenExpr = GenExpr {
    kind: GenKind::IntegerOver,
    base: 0,
    k: 100,
};

/// `YEAR(D)`
pub const YEAR: GenExpr = GenExpr {
    kind: GenKind::Year,
    base: 0,
    k: 0,
};

/// `MONTH(D)`
pub const MONTH: GenExpr = GenExpr {
    kind: GenKind::Month,
    base: 0,
    k: 0,
};

/// `C/10`
pub const TENTHS: GenExpr = GenExpr {
    kind: GenKind::Over,
    base: 0,
    k: 10,
};

/// `C+5`
pub const MORE: GenExpr = GenExpr {
    kind: GenKind::Plus,
    base: 0,
    k: 5,
};

/// `C+-5`
pub const LESS: GenExpr = GenExpr {
    kind: GenKind::Plus,
    base: 0,
    k: -5,
};
