// The checked run (document 01: desk run), with bodies and every check.
use crate::context::Context;
use crate::way::Way;
use checked::yoke::{eval_plain, eval_test};
use decoder::rows::Rows;
use decoder::tables::Table;
use lingua::errors::Error;
use run::bodies::keep_bodies;
use run::memory::{Memory, Seen};

pub struct Checked;

impl Way for Checked {
    ghost use Rattle.frames.specs.Ways.Way.{checked};

    ghost way = { checked };

    fn assign(
        context: &Context,
        memory: &mut Memory,
        n: usize,
        e: usize,
        stack: &mut [i64],
    ) -> Result<(), Error> {
        let x = eval_plain(context.rows, &memory.seen(), e, &mut *stack);
        checked_store::assign::assign(context.rows, context.limits, memory, n, x, stack)
    }

    fn change_yoke(
        context: &Context,
        memory: &mut Memory,
        n: usize,
        y: u16,
        stack: &mut [i64],
    ) -> Result<(), Error> {
        // What is read and what is written are lent apart.
        let bodies = &mut *memory.bodies;
        let cells = &mut *memory.cells;
        let states = &mut *memory.states;
        checked_store::change::change_yoke(
            context.rows,
            context.limits,
            bodies,
            cells,
            states,
            n,
            y,
            stack,
        )
    }

    fn test(context: &Context, memory: &Seen, e: usize, stack: &mut [i64]) -> Result<bool, Error> {
        eval_test(context.rows, memory, e, stack)
    }

    fn take_reading(
        context: &Context,
        memory: &mut Memory,
        n: usize,
        z: i64,
        stack: &mut [i64],
    ) -> Result<(), Error> {
        checked_store::reading::take_reading(context.rows, context.limits, memory, n, z, stack)
    }

    fn copy(
        context: &Context,
        from: &Seen,
        n: usize,
        memory: &mut Memory,
        m: usize,
        stack: &mut [i64],
    ) -> Result<(), Error> {
        checked_store::copy::copy(context.rows, context.limits, from, n, memory, m, stack)
    }

    fn begin_bodies(rows: &Rows, t: Table, types: &[u8], present: &mut [u8]) {
        keep_bodies(rows, t, types, present);
    }
}
