// What the walk of instructions does at a row, apart from its parts: a call before and behind its body, and the instructions without parts.
#![tactic(auto)]

pub mod call; // call.rt: a call before and behind its body
pub mod leaf; // leaf.rt: instructions that no other is part of
pub mod setting; // setting.rt: what the walk reads, and a call's row
