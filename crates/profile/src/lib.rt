// Accepted rows as the runs and the type check see them.
#![tactic(auto)]

pub mod agreement; // agreement.rt: rules 15 and 16
pub mod constants; // constants.rt: a constant's body and cell
pub mod declarations; // declarations.rt: a variable's body and declared yoke
pub mod find; // find.rt: a variable by its name
pub mod limits; // limits.rt: a limit's two ends
pub mod row; // row.rt: what an expression or instruction row says
