// A constant's body and its cell, from the row's eight bytes.
ghost use Rattle.std.specs.Prelude.{◌≡◌, true, List, ℕ, ◌<◌, length};
ghost use Rattle.std.specs.Int.{w32, w64};
ghost use Rattle.std.proofs.Common.{to_z};
ghost use Rattle.lingua.specs.Numbers.{expression_section};
ghost use Rattle.lingua.specs.Value.{is_character, is_text, packed};
ghost use Rattle.lingua.specs.Rows.{table_count, until_zero};
ghost use Rattle.lingua.specs.Rules.{padded_by};
ghost use Rattle.body.specs.Encode.{Holds};
ghost use Rattle.decoder.specs.Decoded.{expression_meaning};
ghost use Rattle.profile.specs.Row.{constant_of};
ghost use Rattle.profile.specs.Constants.{SimpleIn, ConstantSays, ConstantRow, IsCell};

use body::make::simple;
use body::walk::{BOOLEAN, HUNDREDTHS, NUMBER, WORD};
use decoder::decode::{ExpressionRow, Simple, expression_at};
use decoder::fields::{bytes_at, wide_at};
use decoder::rows::Rows;
use lingua::sizes::BODY_BYTES;

// 64 bits read with a sign.
pub fn signed64(n: usize) -> i64
    ensures { result ≡ to_z w64 n }
{
    (n as u64).cast_signed()
}

// 32 bits read with a sign.
pub fn signed32(n: u32) -> i64
    ensures { result ≡ to_z w32 n }
{
    i64::from(n.cast_signed())
}

// A word's cell. Only zeros stand behind its characters, so all eight bytes are packed; characters leave the top bit clear.
fn word_cell(bytes: &[u8]) -> i64
    requires bytes_len { length bytes.now ≡ 8 }
    requires bytes_value { padded_by is_character bytes.now ≡ true }
    requires bytes_value_2 { is_text (until_zero bytes.now) ≡ true }
    ensures { result ≡ packed (until_zero bytes.now) }
{
    let packed = u64::from_be_bytes([
        bytes[0], bytes[1], bytes[2], bytes[3], bytes[4], bytes[5], bytes[6], bytes[7],
    ]);
    packed as i64
}

// Which constant a row of the expressions has; what a row without one answers does not matter.
fn simple_of(row: ExpressionRow) -> Simple
    ensures { (rows : List ℕ) (i : ℕ) → SimpleIn (expression_meaning rows i row) rows i result }
{
    match row {
        ExpressionRow::Constant(s) => s,
        _ => Simple::Boolean,
    }
}

fn constant_at(rows: &Rows, r: usize) -> Simple
    requires { r < table_count rows.now expression_section }
    ensures { ConstantSays rows.now r result }
{
    let t = rows.expressions();
    match expression_at(rows.bytes(), t.start + r) {
        Some((_, row)) => simple_of(row),
        None => Simple::Boolean,
    }
}

// The cell of row r of the expressions, a constant.
pub fn constant_cell(rows: &Rows, r: usize) -> i64
    requires r_lt_count { r < table_count rows.now expression_section }
    requires constant_row { ConstantRow rows.now r }
    ensures { IsCell result (constant_of rows.now r) }
{
    let s = constant_at(rows, r);
    let bytes = rows.bytes();
    let t = rows.expressions();
    let i = t.start + r;
    match s {
        Simple::Boolean => {
            if wide_at(bytes, i) == 0 {
                return 0;
            }
            1
        }
        Simple::Number => signed64(wide_at(bytes, i)),
        Simple::Word => word_cell(bytes_at(bytes, i)),
        Simple::Hundredths => signed64(wide_at(bytes, i)),
    }
}

// The body of row r of the expressions, a constant.
pub fn constant_body(rows: &Rows, r: usize) -> [u8; BODY_BYTES]
    requires { r < table_count rows.now expression_section }
    ensures { Holds result (constant_of rows.now r).body }
{
    let s = constant_at(rows, r);
    match s {
        Simple::Boolean => simple(BOOLEAN),
        Simple::Number => simple(NUMBER),
        Simple::Word => simple(WORD),
        Simple::Hundredths => simple(HUNDREDTHS),
    }
}
