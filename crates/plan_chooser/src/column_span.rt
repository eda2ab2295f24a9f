// A span of a column's values.
use crate::Source;
use mdc_ast::Span;

/// The values of a column that lie in a span, and where the rows with such a value are listed.
#[derive(Debug, Drop)]
pub struct ColumnSpan {
    pub source: Source,
    pub column: u8,
    pub span: Span,
}
