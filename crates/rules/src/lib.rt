// Rules 10 to 13, 18 and 19 of what refuses a file: how its rows refer to each other. Each rule is a function that says just what its test
// says; refusal.rt asks rules 6 to 13, 18 and 19 in order.
#![tactic(auto)]

pub mod parameters; // parameters.rt: rule 18
pub mod places; // places.rt: rule 12
pub mod references; // references.rt: rule 10
pub mod refusal; // refusal.rt: the first rule in order that applies
pub mod repeats; // repeats.rt: rule 19
pub mod types; // types.rt: rule 13, and the bodies of the type rows
pub mod uses; // uses.rt: rule 11
pub mod variables; // variables.rt: rule 10 on variables, each by its row's scope
