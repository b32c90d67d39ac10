// The whole type check: declared yokes first, the procedures' too, then instructions by rising row; the earliest that has a fault gives the
// answer.
ghost use Rattle.std.specs.Prelude.{◌≡◌, List, ℕ, suc, ◌≤◌, ◌<◌, length};
ghost use Rattle.lingua.specs.Numbers.{layout_length, instruction_section};
ghost use Rattle.lingua.specs.Rows.{table_count, pair_count, procedure_count};
ghost use Rattle.lingua.specs.Typing.{check_profile};
ghost use Rattle.lingua.specs.Trees.{profile_of};
ghost use Rattle.scopes.specs.Marks.{InstructionScopes};
ghost use Rattle.typing.specs.Check.{Ready};
ghost use Rattle.typecheck.specs.Verdicts.{DeclarationsAsked, Settles, in_order, declaration_check, declarations_check, scope_check, instruction_check, whole_check, Concludes};

use crate::verdicts::{check_instruction, check_yoke};
use decoder::rows::Rows;
use decoder::tables::Table;
use lingua::errors::ErrorAt;
use lingua::sizes::{DECLARATION_PLACE, MOST_INSTRUCTIONS};
use profile::declarations::declared_yoke;
use scopes::pass::instruction_scopes;
use typing::leaves::variable_body;
use typing::walk::Scope;

// A declared yoke, on its variable's own body. It reads no variable, and the profile's stand for any.
fn check_declaration(
    own: &Scope,
    t: Table,
    d: usize,
    place: u16,
    layout: &mut [u16],
) -> Result<(), ErrorAt>
    requires declarations_asked { DeclarationsAsked own.now t layout.old }
    requires d_bound { d < pair_count own.now.rows.now t.section }
    ensures { Settles result layout.old layout.new (declaration_check own.now.rows.now t.section d place) }
{
    let rows = own.rows;
    let yoke = declared_yoke(rows, t, d);
    let declared = variable_body(rows, t, own.bodies, d);
    check_yoke(own, yoke, declared, place, layout)
}

// The declared yokes of a scope's variables, the first at a place.
fn check_declarations(
    own: &Scope,
    t: Table,
    first: usize,
    layout: &mut [u16],
) -> Result<(), ErrorAt>
    requires declarations_asked { DeclarationsAsked own.now t layout.old }
    requires first_bound { first ≤ 1024 }
    ensures { Settles result layout.old layout.new (declarations_check own.now.rows.now t.section first) }
{
    for d in 0..t.count / 2 {
        let place = (first + d) as u16;
        check_declaration(own, t, d, place, layout)?;
    }
    Ok(())
}

// All declared yokes: the profile's, and places count on through the procedures'.
fn check_scopes(rows: &Rows, bodies: &[u8], layout: &mut [u16]) -> Result<(), ErrorAt>
    requires ready { Ready rows.now bodies.now }
    requires layout_len { length layout.old ≡ layout_length }
    ensures { Settles result layout.old layout.new (in_order (suc (procedure_count rows.now)) (scope_check rows.now)) }
{
    let own = Scope {
        rows: rows,
        variables: rows.declarations(),
        bodies: bodies,
    };
    let mut first = DECLARATION_PLACE;
    for s in 0..rows.procedures() + 1 {
        let t = rows.scope(s);
        check_declarations(&own, t, first, layout)?;
        first += t.count / 2;
    }
    Ok(())
}

// Each row by the variables of its own scope, which has the rows and the bodies at one lifetime.
fn check_instructions<'a>(
    rows: &'a Rows<'a>,
    scopes: &[u8; MOST_INSTRUCTIONS],
    bodies: &'a [u8],
    layout: &mut [u16],
) -> Result<(), ErrorAt>
    requires ready { Ready rows.now bodies.now }
    requires instruction_scopes { InstructionScopes rows.now scopes.now }
    requires layout_len { length layout.old ≡ layout_length }
    ensures { Settles result layout.old layout.new (in_order (table_count rows.now instruction_section) (instruction_check rows.now)) }
{
    let t = rows.instructions();
    for r in 0..t.count {
        let scope = Scope {
            rows: rows,
            variables: rows.scope(scopes[r] as usize),
            bodies: bodies,
        };
        check_instruction(&scope, r, layout)?;
    }
    Ok(())
}

// Declared yokes first, then instructions.
fn check_rows(rows: &Rows, bodies: &[u8], layout: &mut [u16]) -> Result<(), ErrorAt>
    requires ready { Ready rows.now bodies.now }
    requires layout_len { length layout.old ≡ layout_length }
    ensures { Settles result layout.old layout.new (whole_check rows.now) }
{
    check_scopes(rows, bodies, layout)?;
    let scopes = instruction_scopes(rows);
    check_instructions(rows, &scopes, bodies, layout)
}

// The layout table starts from zeros, and a type error zeroes it again.
pub fn check_profile(rows: &Rows, bodies: &[u8], layout: &mut [u16]) -> Result<(), ErrorAt>
    requires ready { Ready rows.now bodies.now }
    requires layout_len { length layout.old ≡ layout_length }
    ensures { (limits : List ℕ) → Concludes result layout.new (check_profile (profile_of rows.now limits)) }
{
    layout.fill(0);
    match check_rows(rows, bodies, layout) {
        Ok(()) => Ok(()),
        Err(error) => {
            layout.fill(0);
            Err(error)
        }
    }
}
