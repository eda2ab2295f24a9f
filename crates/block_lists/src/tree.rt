// Trees of lists.
use crate::lists::Lists;
use mdc_values::List;

/// Lists joined by AND and by OR. Each `All` and each `Any` needs a member: in a tree that `leaf` or `Members` made
/// they have one.
#[derive(Debug, Drop)]
pub enum ListTree {
    Leaf(Lists),
    All(List<ListTree>),
    Any(List<ListTree>),
}
