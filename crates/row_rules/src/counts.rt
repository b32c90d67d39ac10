// Rule 7: how many rows each section has, and how many procedures there are.
ghost use Rattle.std.specs.Prelude.{◌≡◌, List, ℕ, not, ◌&&◌, ◌/◌};
ghost use Rattle.lingua.specs.Answers.{file_meaning};
ghost use Rattle.lingua.specs.Numbers.{most_variables, most_types, most_expressions, most_instructions, most_procedures};
ghost use Rattle.lingua.specs.Rules.{between, count_wrong};
ghost use Rattle.decoder.specs.Tables.{AreTables};

use decoder::tables::Tables;
use lingua::FileKind;
use lingua::sizes::{
    MOST_EXPRESSIONS, MOST_INSTRUCTIONS, MOST_LIMITS, MOST_PROCEDURES, MOST_TYPES, MOST_VARIABLES,
};

// Whether a number lies from low to high.
pub fn in_between(low: usize, high: usize, n: usize) -> bool
    ensures { result ≡ between low high n }
{
    low <= n && n <= high
}

// Declarations and limits are counted in pairs. The tables are enough: who has them need not have the rows.
pub fn count_wrong(file: FileKind, tables: Tables) -> bool
    ensures { (rows : List ℕ) → AreTables rows tables → result ≡ count_wrong (file_meaning file) rows }
{
    match file {
        FileKind::Profile => profile_count_wrong(tables),
        FileKind::Limits => !in_between(0, MOST_LIMITS, tables.limits.count / 2),
    }
}

fn profile_count_wrong(tables: Tables) -> bool
    ensures { result ≡ not (between 1 most_variables (tables.declarations.count / 2) && between 1 most_types tables.types.count && between 0 most_expressions tables.expressions.count
        && between 1 most_instructions tables.instructions.count && between 0 most_procedures tables.procedures.count) }
{
    !in_between(1, MOST_VARIABLES, tables.declarations.count / 2)
        || !in_between(1, MOST_TYPES, tables.types.count)
        || !in_between(0, MOST_EXPRESSIONS, tables.expressions.count)
        || !in_between(1, MOST_INSTRUCTIONS, tables.instructions.count)
        || !in_between(0, MOST_PROCEDURES, tables.procedures.count)
}
