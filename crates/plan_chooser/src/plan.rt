// Plans.
use mdc_ast::Span;
use mdc_values::List;

/// Where the rows with a value of a span are listed: in the index of a dimension, by their blocks, or in a record index, by their
/// places. Dimensions and record indexes go by their places in the definition.
#[derive(Clone, Copy, Debug, PartialEq, Eq)]
pub enum Source {
    Dimension(u8),
    Index(u8),
}

/// Where rows are looked for: `Scan` has all rows of the table, `Blocks` those whose value in a column of a dimension lies in a span,
/// `Rids` those whose value in the first column of a record index does, `All` those that each part has, and `Any` those that one part
/// has, which are none where it has no part.
#[derive(Debug, Drop)]
pub enum Plan {
    Scan,
    Blocks(u8, u8, Span),
    Rids(u8, Span),
    All(List<Plan>),
    Any(List<Plan>),
}
