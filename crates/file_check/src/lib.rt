//! Whether the pages of a database are sound, and which page breaks which rule where they aren't.
//!
//! `check` judges the twelve rules in their order, each over all pages, and trusts none. It promises that its verdict is exact on
//! any pages that are told: `Sound` where they are sound, and else the first rule that is broken, with the lowest page that breaks
//! it. It changes no page. Each of the first six rules has a function of its own, which rests on the rules before it alone; the
//! others are judged table by table by one function, `judge_all_tables`, which reads the pages of a block twice, and what each of
//! them says of a table, or of a block, has a file of its own. What is known of pages by then is said in `specs/Known.antt`, of a
//! table in `specs/KnownTables.antt`, and by rule in `specs/RulesOfTables.antt`. The laws say that no page of a sound database breaks
//! a rule, and so that a verdict is `Sound` exactly where the pages are.
//!
//! It stands on the words of `mdc_sound` for the rules, on `stored_catalog` for which definitions are within the limits, on
//! `table_page` for definitions, on `node_page` and `entry_tree` for trees, on `block_map` for the blocks of a table, on `block_rows`
//! and `row_page` for rows, on `row_fitting` for whether a row fits, on `key_codec` for the keys of rows, and on `block_index` for
//! walks over entries and for whether rows are of one cell.
#![tactic(auto)]

mod block_entries;
mod block_judging;
mod block_maps;
mod block_rule;
mod blocks;
mod branches;
mod cells;
mod checking;
mod counts;
mod definitions;
mod differing;
mod entries;
mod entry_set;
mod extents;
mod findings;
mod kinds;
mod laws;
mod lowest;
mod map_lines;
mod map_pages;
mod named_blocks;
mod names;
mod record_indexes;
mod root;
mod roots;
mod row_entries;
mod row_keys;
mod row_pages;
mod rows;
mod table_index;
mod table_judging;
mod table_keys;
mod table_rule;
mod tree_marks;
mod tree_pages;
mod tree_walk;
mod trees;
mod verdict;

pub use checking::check;
pub use laws::{sound_pages_break_no_rule, verdict_is_sound_exactly};
pub use verdict::Verdict;
