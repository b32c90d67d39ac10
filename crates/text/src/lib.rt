// Text in bytes, with no input or output: decimal numbers and the report's lines.
#![tactic(auto)]

pub mod page; // page.rt: text behind text, in a caller's buffer
pub mod report; // report.rt: the lines of document 01's report
