// Rule 8: names of declarations, a procedure's too, and of limits.
ghost use Rattle.std.specs.Prelude.{◌≡◌, ◌+◌, ◌*◌, ◌/◌, ◌≤◌, ◌<◌, length};
ghost use Rattle.lingua.specs.Numbers.{most_procedures};
ghost use Rattle.lingua.specs.Answers.{file_meaning};
ghost use Rattle.lingua.specs.Format.{profile};
ghost use Rattle.lingua.specs.Compute.{same_text};
ghost use Rattle.lingua.specs.Rows.{procedure_count};
ghost use Rattle.lingua.specs.Rules.{is_name, is_new, names_fit, name_wrong};
ghost use Rattle.decoder.specs.Tables.{IsTable};
ghost use Rattle.row_rules.specs.Form.{FewProcedures};

use decoder::fields::{bytes_at, padded};
use decoder::rows::Rows;
use decoder::tables::Table;
use lingua::FileKind;

// 1 to 8 capital letters, zeros after.
#[tactic(auto, unfolding(lingua::specs::Rules::is_name, lingua::specs::Rules::is_capital))]
fn is_name(bytes: &[u8]) -> bool
    requires { 0 < length bytes.now }
    ensures { result ≡ is_name bytes.now }
{
    bytes[0] != 0 && padded(bytes, b'A', b'Z')
}

// What == answers, in the definitions' words.
#[tactic(auto, using(crate::proofs::Forms::pointwise_is))]
pub fn same_bytes(a: &[u8], b: &[u8]) -> bool
    requires { length a.now ≡ length b.now }
    ensures { result ≡ same_text a.now b.now }
{
    a == b
}

// No lower pair has the name of pair d. The table is that of any scope, or that of the limits, which is no scope's.
fn is_new(rows: &[u8], t: Table, d: usize) -> bool
    requires table { IsTable rows.now t.section t }
    requires d_bound { d < t.count / 2 }
    ensures { result ≡ is_new rows.now t.section d }
{
    let name = bytes_at(rows, t.start + 2 * d);
    (0..d).all(|e| !same_bytes(bytes_at(rows, t.start + 2 * e), name))
}

// The names of a table: each is a name, and new.
fn names_fit(rows: &[u8], t: Table) -> bool
    requires { IsTable rows.now t.section t }
    ensures { result ≡ names_fit rows.now t.section }
{
    (0..t.count / 2).all(|d| is_name(bytes_at(rows, t.start + 2 * d)) && is_new(rows, t, d))
}

// The profile's own variables, and each procedure's by themselves. Rule 7 has shown of the same rows that procedures are few; a type for
// rows that a rule let through would be one more name for them, and asks no less.
fn profile_name_wrong(rows: &Rows) -> bool
    requires { procedure_count rows.now ≤ most_procedures }
    ensures { result ≡ name_wrong profile rows.now }
{
    !(0..rows.procedures() + 1).all(|s| names_fit(rows.bytes(), rows.scope(s)))
}

#[tactic(auto, unfolding(lingua::specs::Answers::file_meaning, lingua::specs::Rules::name_wrong, crate::specs::Form::FewProcedures))]
pub fn name_wrong(file: FileKind, rows: &Rows) -> bool
    requires { FewProcedures (file_meaning file) rows.now }
    ensures { result ≡ name_wrong (file_meaning file) rows.now }
{
    match file {
        FileKind::Profile => profile_name_wrong(rows),
        FileKind::Limits => !names_fit(rows.bytes(), rows.limits()),
    }
}
