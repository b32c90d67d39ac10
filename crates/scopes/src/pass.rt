// Whose variables a row names: those of the first procedure whose body leads to it, and the profile's where none does. A scope is 1 + the
// procedure's number, 0 the profile's. Rows name lower rows, so each row hands its scope on once all that name it have: from the last row
// to the first. Rows that several others name are fine: rule 11 refuses them only later.
ghost use Rattle.std.specs.Prelude.{◌≡◌, true, [], ◌∷◌, ◌<◌, length};
ghost use Rattle.lingua.specs.Numbers.{expression_section, instruction_section};
ghost use Rattle.lingua.specs.Rows.{table_count, procedure_count};
ghost use Rattle.lingua.specs.References.{rows_refer};
ghost use Rattle.decoder.specs.Tables.{Sized};
ghost use Rattle.decoder.specs.Mentions.{listed};
ghost use Rattle.scopes.specs.Marks.{Nearer, Within, Marked, Ready, Owned, Used, InstructionScopes, ExpressionScopes};

use decoder::mentions::{UpToThree, evaluated, operands, parts, yoke_set};
use decoder::rows::Rows;
use lingua::sizes::{MOST_EXPRESSIONS, MOST_INSTRUCTIONS};

// The nearer of two scopes: the lower one, and any before 0.
fn nearer(a: u8, b: u8) -> u8
    ensures { Nearer a b result }
{
    if a == 0 {
        return b;
    }
    if b == 0 {
        return a;
    }
    if b < a {
        return b;
    }
    a
}

// A body or a row with scope s names row x.
fn mark(scopes: &mut [u8], x: usize, s: u8)
    requires { x < length scopes.old }
    ensures { Marked (x ∷ []) s scopes.old scopes.new }
{
    let old = scopes[x];
    scopes[x] = nearer(old, s);
}

fn mark_all(scopes: &mut [u8], f: UpToThree, s: u8)
    requires { Within (length scopes.old) (listed f) }
    ensures { Marked (listed f) s scopes.old scopes.new }
{
    let numbers = f.numbers();
    for x in numbers {
        mark(scopes, *x, s);
    }
}

// The procedures' bodies. Ready is what rules 7 and 10 have shown of the same rows: it stays a clause, since a type for what each rule has
// shown would be one more name for those rows.
fn mark_bodies(scopes: &mut [u8], rows: &Rows)
    requires ready { Ready rows.now }
    requires owned { Owned rows.now 0 (table_count rows.now instruction_section) scopes.old }
    ensures { Owned rows.now (procedure_count rows.now) (table_count rows.now instruction_section) scopes.new }
{
    for k in 0..rows.procedures() {
        let procedure = rows.procedure(k);
        mark(scopes, procedure.body, (k + 1) as u8);
    }
}

// The parts of the instruction rows, from the last row to the first.
fn mark_parts(scopes: &mut [u8], rows: &Rows)
    requires ready { Ready rows.now }
    requires owned { Owned rows.now (procedure_count rows.now) (table_count rows.now instruction_section) scopes.old }
    ensures { Owned rows.now (procedure_count rows.now) 0 scopes.new }
{
    let instructions = rows.instructions();
    for r in (0..instructions.count).rev() {
        let s = scopes[r];
        mark_all(scopes, parts(rows.instruction_row(r)), s);
    }
}

pub fn instruction_scopes(rows: &Rows) -> [u8; MOST_INSTRUCTIONS]
    requires sized { Sized rows.now }
    requires rows_value { rows_refer rows.now ≡ true }
    ensures { InstructionScopes rows.now result }
{
    let mut scopes = [0u8; MOST_INSTRUCTIONS];
    mark_bodies(&mut scopes, rows);
    mark_parts(&mut scopes, rows);
    scopes
}

// The expression rows that instructions evaluate or set as yokes.
fn mark_roots(scopes: &mut [u8], rows: &Rows, owners: &[u8; MOST_INSTRUCTIONS])
    requires ready { Ready rows.now }
    requires instruction_scopes { InstructionScopes rows.now owners.now }
    requires used { Used rows.now 0 (table_count rows.now expression_section) scopes.old }
    ensures { Used rows.now (table_count rows.now instruction_section) (table_count rows.now expression_section) scopes.new }
{
    let instructions = rows.instructions();
    for r in 0..instructions.count {
        let row = rows.instruction_row(r);
        let s = owners[r];
        mark_all(scopes, evaluated(row), s);
        mark_all(scopes, yoke_set(row), s);
    }
}

// The operands of the expression rows, from the last row to the first.
fn mark_operands(scopes: &mut [u8], rows: &Rows)
    requires ready { Ready rows.now }
    requires used { Used rows.now (table_count rows.now instruction_section) (table_count rows.now expression_section) scopes.old }
    ensures { Used rows.now (table_count rows.now instruction_section) 0 scopes.new }
{
    let expressions = rows.expressions();
    for e in (0..expressions.count).rev() {
        let s = scopes[e];
        mark_all(scopes, operands(rows.expression_row(e)), s);
    }
}

// Given the instruction rows' scopes.
pub fn expression_scopes(rows: &Rows, owners: &[u8; MOST_INSTRUCTIONS]) -> [u8; MOST_EXPRESSIONS]
    requires sized { Sized rows.now }
    requires rows_value { rows_refer rows.now ≡ true }
    requires instruction_scopes { InstructionScopes rows.now owners.now }
    ensures { ExpressionScopes rows.now result }
{
    let mut scopes = [0u8; MOST_EXPRESSIONS];
    mark_roots(&mut scopes, rows, owners);
    mark_operands(&mut scopes, rows);
    scopes
}
