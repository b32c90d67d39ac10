// What hosts and programs call: the reader, the writer, the search for a variable by its name, the type check and both runs. Any bytes and any
// buffers may be handed in. They are handed in one by one, as a host in C has them: each slice a pointer and a length, the inputs' variables and
// numbers two slices.
#![tactic(auto)]

pub mod both; // both.rt: both runs of one profile
pub mod checked_run; // checked_run.rt: the checked run
pub mod erased_run; // erased_run.rt: the erased run

pub use file_calls::files; // the reader and the writer
pub use file_calls::names; // a variable by its name
pub use file_calls::types; // the type check
