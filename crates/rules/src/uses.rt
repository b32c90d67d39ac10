// Rule 11: each expression row and each instruction row but the last is used once; a procedure uses its body.
// Uses are counted in one pass over the rows, up to 2: more makes no difference.
ghost use Rattle.std.specs.Prelude.{◌≡◌, List, [], ◌∷◌, ◌++◌, ℕ, suc, ◌≤◌, ◌<◌, pred, eqb};
ghost use Rattle.lingua.specs.Numbers.{expression_section, instruction_section, most_expressions, most_procedures};
ghost use Rattle.lingua.specs.Rows.{table_count, procedure_count};
ghost use Rattle.lingua.specs.Trees.{tabulate};
ghost use Rattle.lingua.specs.Typing.{joined};
ghost use Rattle.lingua.specs.Format.{every_below};
ghost use Rattle.lingua.specs.References.{declared_roots, occurrences, expression_uses, instruction_uses, use_wrong};
ghost use Rattle.decoder.specs.Tables.{Sized};
ghost use Rattle.decoder.specs.Mentions.{listed};
ghost use Rattle.rules.specs.Uses.{Counted, Names};

use decoder::fields::b_at;
use decoder::mentions::{UpToThree, evaluated, operands, parts, yoke_root, yoke_set};
use decoder::rows::Rows;
use lingua::sizes::MOST_EXPRESSIONS;

// One use of row x.
fn note(uses: &mut [u8; MOST_EXPRESSIONS], x: usize)
    ensures { (xs : List ℕ) → Counted uses.old xs → Counted uses.new (xs ++ (x ∷ [])) }
{
    if x < MOST_EXPRESSIONS {
        let used = uses[x];
        if used == 0 {
            uses[x] = 1;
        } else {
            uses[x] = 2;
        }
    }
}

fn note_all(uses: &mut [u8; MOST_EXPRESSIONS], f: UpToThree)
    ensures { (xs : List ℕ) → Counted uses.old xs → Counted uses.new (xs ++ listed f) }
{
    let numbers = f.numbers();
    for x in numbers {
        note(uses, *x);
    }
}

// The rows that each row below n names, in turn.
fn note_named<F: Fn(usize) -> UpToThree>(uses: &mut [u8; MOST_EXPRESSIONS], n: usize, named: F)
    requires { (r : ℕ) → r < n → F.pre named r }
    ensures { (names : ℕ → List ℕ) → Names (F.post named) n names → (xs : List ℕ) → Counted uses.old xs → Counted uses.new (xs ++ joined (tabulate n names)) }
{
    for r in 0..n {
        note_all(uses, named(r));
    }
}

// The expression rows of the yokes that a scope declares.
fn note_declared(uses: &mut [u8; MOST_EXPRESSIONS], rows: &Rows, s: usize)
    requires s_le_count { s ≤ procedure_count rows.now }
    requires s_le_most { s ≤ most_procedures }
    ensures { (xs : List ℕ) → Counted uses.old xs → Counted uses.new (xs ++ declared_roots rows.now s) }
{
    let bytes = rows.bytes();
    let own = rows.scope(s);
    let start = own.start;
    note_named(
        uses,
        own.count / 2,
        |d| yoke_root(b_at(bytes, start + (2 * d + 1))),
    );
}

// Those of the profile and of each procedure.
fn note_scopes(uses: &mut [u8; MOST_EXPRESSIONS], rows: &Rows)
    requires { procedure_count rows.now ≤ most_procedures }
    ensures { (xs : List ℕ) → Counted uses.old xs → Counted uses.new (xs ++ joined (tabulate (suc (procedure_count rows.now)) (λ s. declared_roots rows.now s))) }
{
    for s in 0..rows.procedures() + 1 {
        note_declared(uses, rows, s);
    }
}

// Whether each row below n is used once.
fn all_once(uses: &[u8; MOST_EXPRESSIONS], n: usize) -> bool
    requires { n ≤ most_expressions }
    ensures { (xs : List ℕ) → Counted uses.now xs → result ≡ every_below n (λ r. eqb (occurrences r xs) 1) }
{
    (0..n).all(|r| uses[r] == 1)
}

fn expressions_once(rows: &Rows) -> bool
    requires { Sized rows.now }
    ensures { result ≡ every_below (table_count rows.now expression_section) (λ r. eqb (occurrences r (expression_uses rows.now)) 1) }
{
    let mut uses = [0u8; MOST_EXPRESSIONS];
    let instructions = rows.instructions().count;
    let expressions = rows.expressions().count;
    note_scopes(&mut uses, rows);
    note_named(
        &mut uses,
        instructions,
        |r| yoke_set(rows.instruction_row(r)),
    );
    note_named(
        &mut uses,
        instructions,
        |r| evaluated(rows.instruction_row(r)),
    );
    note_named(&mut uses, expressions, |r| operands(rows.expression_row(r)));
    all_once(&uses, expressions)
}

// The last instruction row is the program, and no row names it. A procedure names its body.
fn instructions_once(rows: &Rows) -> bool
    requires { Sized rows.now }
    ensures { result ≡ every_below (pred (table_count rows.now instruction_section)) (λ r. eqb (occurrences r (instruction_uses rows.now)) 1) }
{
    let mut uses = [0u8; MOST_EXPRESSIONS];
    let instructions = rows.instructions().count;
    note_named(&mut uses, instructions, |r| parts(rows.instruction_row(r)));
    note_named(
        &mut uses,
        rows.procedures(),
        |k| UpToThree::One([rows.procedure(k).body]),
    );
    all_once(&uses, instructions - 1)
}

#[tactic(auto, unfolding(lingua::specs::References::use_wrong))]
pub fn use_wrong(rows: &Rows) -> bool
    requires { Sized rows.now }
    ensures { result ≡ use_wrong rows.now }
{
    !expressions_once(rows) || !instructions_once(rows)
}
