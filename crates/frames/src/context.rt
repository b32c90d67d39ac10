// What a run reads.
use decoder::rows::Rows;

// The profile's rows, the layout table, which the checked run does without, and the limits of the variables that are looked at.
#[derive(Clone, Copy)]
pub struct Context<'a> {
    pub rows: &'a Rows<'a>,
    pub layout: &'a [u16],
    pub limits: &'a [i64],
}
