// What rows say: the one place that knows kinds, where each table's rows stand, and what a row mentions by number.
#![tactic(auto)]

pub mod decode; // decode.rt: what a row says, by its kind
pub mod fields; // fields.rt: a row's fields
pub mod groups; // groups.rt: the groups of bits in a call's fields
pub mod mentions; // mentions.rt: what a row mentions by number
pub mod rows; // rows.rt: rows with where their tables stand
pub mod tables; // tables.rt: where each table's rows stand, found in one pass
