// Rows with equal keys in a record index.
mod seen_keys;
mod twins;

pub use twins::{first_duplicate, has_duplicates, have_twins};
