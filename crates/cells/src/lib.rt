// The values' half of the operations, in place on an operand stack: the first operand's cells begin at stack[0], the
// second's at stack[64], and the result takes the first one's place. Sizes and offsets come as numbers: nothing here knows
// a body. Only a value's own cells are read or written. To make a record of one attribute there is nothing to do: its cells
// are the attribute's.
#![tactic(auto)]

pub mod apply; // apply.rt: an operation by its name
pub mod lists; // lists.rt: lists
pub mod parts; // parts.rt: cells cleared
pub mod records; // records.rt: records
pub mod simple; // simple.rt: simple values
pub mod words; // words.rt: words
