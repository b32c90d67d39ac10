// What an expression sees beside its own row.
use crate::answer::CurrentValue;
use decoder::rows::Rows;
use run::memory::Seen;

// The rows, the variables that may be read, and the current value.
#[derive(Clone, Copy)]
pub struct Sight<'a> {
    pub rows: &'a Rows<'a>,
    pub memory: &'a Seen<'a>,
    pub current: &'a CurrentValue<'a>,
}
