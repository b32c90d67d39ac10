// The erased run (document 01: chair run), on bare numbers and the layout table.
use crate::context::Context;
use crate::way::Way;
use decoder::rows::Rows;
use decoder::tables::Table;
use lingua::errors::Error;
use run::memory::{Memory, Seen};

pub struct Erased;

impl Way for Erased {
    ghost use Rattle.frames.specs.Ways.Way.{erased};

    ghost way = { erased };

    fn assign(
        context: &Context,
        memory: &mut Memory,
        n: usize,
        e: usize,
        stack: &mut [i64],
    ) -> Result<(), Error> {
        erased_store::assign::assign(
            context.rows,
            context.layout,
            context.limits,
            memory,
            n,
            e,
            stack,
        )
    }

    fn change_yoke(
        context: &Context,
        memory: &mut Memory,
        n: usize,
        y: u16,
        stack: &mut [i64],
    ) -> Result<(), Error> {
        // What is read and what is written are lent apart.
        let cells = &mut *memory.cells;
        let states = &mut *memory.states;
        erased_store::change::change_yoke(
            context.rows,
            context.layout,
            context.limits,
            cells,
            states,
            n,
            y,
            stack,
        )
    }

    fn test(context: &Context, memory: &Seen, e: usize, stack: &mut [i64]) -> Result<bool, Error> {
        erased::test::test(context.rows, context.layout, memory, e, stack)
    }

    fn take_reading(
        context: &Context,
        memory: &mut Memory,
        n: usize,
        z: i64,
        stack: &mut [i64],
    ) -> Result<(), Error> {
        erased_store::reading::take_reading(
            context.rows,
            context.layout,
            context.limits,
            memory,
            n,
            z,
            stack,
        )
    }

    fn copy(
        context: &Context,
        from: &Seen,
        n: usize,
        memory: &mut Memory,
        m: usize,
        stack: &mut [i64],
    ) -> Result<(), Error> {
        erased_store::copy::copy(
            context.rows,
            context.layout,
            context.limits,
            from,
            n,
            memory,
            m,
            stack,
        )
    }

    // No body is asked of this run.
    fn begin_bodies(_rows: &Rows, _t: Table, _types: &[u8], _present: &mut [u8]) {}
}
