// Rule 6 on section 6: it begins with a procedure, and in it each row of kind 0, and no other, has one of kind 1 behind it.
ghost use Rattle.std.specs.Prelude.{◌≡◌, ◌&&◌, suc, ◌+◌, ◌*◌, ◌≤◌, ltb, length};
ghost use Rattle.std.specs.Bool.{beq};
ghost use Rattle.lingua.specs.Rows.{row_count, procedure_kind};
ghost use Rattle.lingua.specs.Format.{every_below};
ghost use Rattle.lingua.specs.Rules.{procedure_pairs};

use decoder::rows::Rows;
use decoder::tables::is_kind;
use lingua::sizes::ROW_BYTES;

// Row i names a variable where the row behind it says which, and only there.
#[tactic(auto, using(crate::proofs::Pairing::behind_last, crate::proofs::Pairing::behind_told), unfolding(lingua::specs::Rows::row_count))]
fn pair_fits(rows: &[u8], i: usize) -> bool
    requires { 10 * i + 10 ≤ length rows.now }
    ensures { result ≡ beq (procedure_kind 0 rows.now i) (ltb (suc i) (row_count rows.now) && procedure_kind 1 rows.now (suc i)) }
{
    let detail = i + 1 < rows.len() / ROW_BYTES && is_kind(rows, i + 1, 1);
    is_kind(rows, i, 0) == detail
}

fn pairs_fit(rows: &[u8]) -> bool
    ensures { result ≡ every_below (row_count rows.now) (λ i. beq (procedure_kind 0 rows.now i) (ltb (suc i) (row_count rows.now) && procedure_kind 1 rows.now (suc i))) }
{
    (0..rows.len() / ROW_BYTES).all(|i| pair_fits(rows, i))
}

// The first procedure begins where the limits end: no row of section 6 stands before it.
pub fn procedures_paired(rows: &Rows) -> bool
    ensures { result ≡ procedure_pairs rows.now }
{
    let bytes = rows.bytes();
    let t = rows.tables();
    t.procedures.heads[0] == t.limits.start + t.limits.count && pairs_fit(bytes)
}
