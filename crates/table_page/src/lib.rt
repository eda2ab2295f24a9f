//! Table pages: the definition of a table as the bytes of a page.
//!
//! It promises that a page is that of one definition at most, that `def_page` prints a definition within the limits as its
//! page, that `set_next` makes the page of a definition that of the same one with another next row number, and that `def_of`
//! tells exactly whether a page has zeros alone, is that of a definition within the limits, and of which, or is neither. It
//! stands on `mdc_ast` for definitions, on `store_api` for pages, on the words of nodes and keys, and on `byteorder` for numbers.
#![tactic(auto)]

mod column_limits;
mod definition_limits;
mod definition_of;
mod definition_page;
mod definition_reading;
mod entry_printing;
mod entry_reading;
mod fault;
mod key_limits;
mod laws;
mod layout;
mod name_limits;
mod numbering;
mod printing;

pub use definition_of::def_of;
pub use definition_page::def_page;
pub use fault::DefFault;
pub use laws::page_is_of_one_definition;
pub use numbering::set_next;
