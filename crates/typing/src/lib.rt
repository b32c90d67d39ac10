// What the type check finds of an expression: its body, or its lowest fault, and its rows' numbers in the layout table.
#![tactic(auto)]

pub mod findings; // findings.rt: a row's body, or the lowest fault, or neither
pub mod leaves; // leaves.rt: what the walk does at one row
pub mod walk; // walk.rt: down an expression's tree
