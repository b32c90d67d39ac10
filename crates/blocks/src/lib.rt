// The bytes of a file: blocks of 512, their checks, the rules 2 to 5, the rows in the blocks, and the writing of a file.
#![tactic(auto)]

pub mod words; // words.rt: integers in bytes, and the block check
pub mod rules; // rules.rt: rules 2 to 5
pub mod rows; // rows.rt: the rows of a file
pub mod writer; // writer.rt: the file of rows
