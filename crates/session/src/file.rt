// A script on the database file of a host: opened, after a crash too, served, and given back.
mod laws;
mod made;
mod serving;

pub use laws::{
    ended_run_is_left, left_by_run_is_well, left_file_is_well, made_is_well, next_run_goes_on,
};
pub use made::made_database_is_sound;
pub use serving::{Ended, serve_file};
