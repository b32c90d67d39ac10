// The calls on files that make no run: the reader, the writer, the search for a variable by its name and the type check. Hosts and programs reach them through crate calls.
#![tactic(auto)]

pub mod files; // files.rt: the reader and the writer
pub mod names; // names.rt: a variable by its name
pub mod types; // types.rt: the type check
