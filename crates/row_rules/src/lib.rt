// Rules 6 to 9 of what refuses a file: what is asked of each row and of each table by itself. The rows lie flat in a byte slice. Each rule
// is a function that says just what its test says.
#![tactic(auto)]

pub mod constants; // constants.rt: rule 9
pub mod counts; // counts.rt: rule 7
pub mod form; // form.rt: rule 6
pub mod names; // names.rt: rule 8
pub mod pairs; // pairs.rt: rule 6 on the pairs of procedures
