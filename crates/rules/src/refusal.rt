// The first of rules 6 to 13, 18 and 19 that applies to a file's rows. Rules are asked in order, so that each may rely on those before.
ghost use Rattle.std.specs.Prelude.{◌≡◌, length};
ghost use Rattle.lingua.specs.Numbers.{type_bodies_length};
ghost use Rattle.lingua.specs.Answers.{file_meaning};
ghost use Rattle.rules.specs.Refusals.{Linkable, Linked, Judged};

use crate::parameters::parameters_wrong;
use crate::places::place_wrong;
use crate::references::reference_wrong;
use crate::repeats::references_wrong;
use crate::types::type_wrong;
use crate::uses::use_wrong;
use decoder::rows::Rows;
use lingua::FileKind;
use lingua::errors::Refusal;
use row_rules::constants::constant_wrong;
use row_rules::counts::count_wrong;
use row_rules::form::form_wrong;
use row_rules::names::name_wrong;

// Rules 10 to 13, 18 and 19, which only a profile has.
fn link_refusal(rows: &Rows, bodies: &mut [u8]) -> Result<(), Refusal>
    requires { Linkable rows.now bodies.old }
    ensures { Linked result rows.now bodies.new }
{
    if reference_wrong(rows) {
        return Err(Refusal::BadReference);
    }
    if use_wrong(rows) {
        return Err(Refusal::BadUse);
    }
    if place_wrong(rows) {
        return Err(Refusal::Misplaced);
    }
    if type_wrong(rows, bodies) {
        return Err(Refusal::BadType);
    }
    if parameters_wrong(rows) {
        return Err(Refusal::BadParameters);
    }
    if references_wrong(rows) {
        return Err(Refusal::RepeatedReference);
    }
    Ok(())
}

// Rule 13 makes the bodies of a profile's type rows, and leaves them in the array.
pub fn rows_refusal(file: FileKind, rows: &Rows, bodies: &mut [u8]) -> Result<(), Refusal>
    requires { length bodies.old ≡ type_bodies_length }
    ensures { Judged result (file_meaning file) rows.now bodies.new }
{
    if form_wrong(file, rows) {
        return Err(Refusal::BadForm);
    }
    if count_wrong(file, rows.tables()) {
        return Err(Refusal::BadCount);
    }
    if name_wrong(file, rows) {
        return Err(Refusal::BadName);
    }
    if constant_wrong(file, rows) {
        return Err(Refusal::BadConstant);
    }
    match file {
        FileKind::Profile => link_refusal(rows, bodies),
        FileKind::Limits => Ok(()),
    }
}
