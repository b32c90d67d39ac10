// What an accepted row says: its kind is known, and its attributes are in range.
ghost use Rattle.std.specs.Prelude.{◌≡◌, ◌<◌};
ghost use Rattle.lingua.specs.Numbers.{expression_section, instruction_section};
ghost use Rattle.lingua.specs.Rows.{table_count, instruction_row};
ghost use Rattle.decoder.specs.Decoded.{instruction_meaning};
ghost use Rattle.profile.specs.Row.{KnownExpression, KnownInstruction, RowSays};

use decoder::decode::{ExpressionRow, InstructionRow, expression_at, instruction_at};
use decoder::rows::Rows;

// Row r of the expressions.
pub fn expression_row(rows: &Rows, r: usize) -> ExpressionRow
    requires r_lt_count { r < table_count rows.now expression_section }
    requires known_expression { KnownExpression rows.now r }
    ensures { RowSays rows.now r result }
{
    let t = rows.expressions();
    match expression_at(rows.bytes(), t.start + r) {
        Some((_, row)) => row,
        // not reached: the kind is known
        None => ExpressionRow::Current,
    }
}

// Row r of the instructions.
pub fn instruction_row(rows: &Rows, r: usize) -> InstructionRow
    requires r_lt_count { r < table_count rows.now instruction_section }
    requires known_instruction { KnownInstruction rows.now r }
    ensures { instruction_meaning result ≡ instruction_row rows.now r }
{
    let t = rows.instructions();
    match instruction_at(rows.bytes(), t.start + r) {
        Some((_, row)) => row,
        // not reached: the kind is known
        None => InstructionRow::Skip,
    }
}
