// The statements of a script, answered one after another as they close, by an engine over any store.
mod answering;
mod laws;
mod served;
mod serving;

pub use laws::goes_on_lists;
pub use served::Served;
pub use serving::serve;
