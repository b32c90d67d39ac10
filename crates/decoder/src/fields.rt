// The fields of row i, which lies in the slice.
ghost use Rattle.std.specs.Prelude.{◌≡◌, ◌+◌, ◌*◌, ◌≤◌, ◌<◌, length, drop};
ghost use Rattle.lingua.specs.Format.{all_zero};
ghost use Rattle.lingua.specs.Rules.{between, padded_by};
ghost use Rattle.lingua.specs.Rows.{section_at, kind_at, a_at, b_at, c_at, wide_at, bytes_at};

use lingua::sizes::ROW_BYTES;
use lingua::words::{word16_at, word64_at};

pub fn section_at(rows: &[u8], i: usize) -> u8
    requires { 10 * i + 10 ≤ length rows.now }
    ensures { result ≡ section_at rows.now i }
{
    rows[ROW_BYTES * i]
}

pub fn kind_at(rows: &[u8], i: usize) -> u8
    requires { 10 * i + 10 ≤ length rows.now }
    ensures { result ≡ kind_at rows.now i }
{
    rows[ROW_BYTES * i + 1]
}

pub fn a_at(rows: &[u8], i: usize) -> usize
    requires { 10 * i + 10 ≤ length rows.now }
    ensures { (result ≡ a_at rows.now i) × (result < 65536) }
{
    word16_at(rows, ROW_BYTES * i + 2) as usize
}

pub fn b_at(rows: &[u8], i: usize) -> usize
    requires { 10 * i + 10 ≤ length rows.now }
    ensures { (result ≡ b_at rows.now i) × (result < 65536) }
{
    word16_at(rows, ROW_BYTES * i + 4) as usize
}

pub fn c_at(rows: &[u8], i: usize) -> usize
    requires { 10 * i + 10 ≤ length rows.now }
    ensures { (result ≡ c_at rows.now i) × (result < 65536) }
{
    word16_at(rows, ROW_BYTES * i + 6) as usize
}

// The eight bytes behind section and kind.
pub fn bytes_at(rows: &[u8], i: usize) -> &[u8]
    requires { 10 * i + 10 ≤ length rows.now }
    ensures { (result.now ≡ bytes_at rows.now i) × (length result.now ≡ 8) }
{
    let from = ROW_BYTES * i + 2;
    let to = from + 8;
    &rows[from..to]
}

// Whether all bytes from one on are 0.
pub fn zero_from(bytes: &[u8], from: usize) -> bool
    ensures { result ≡ all_zero (drop from bytes.now) }
{
    bytes.iter().skip(from).all(|byte| *byte == 0)
}

// Whether there are bytes from low to high, and behind them zeros only.
pub fn padded(bytes: &[u8], low: u8, high: u8) -> bool
    ensures { result ≡ padded_by (λ c. between low high c) bytes.now }
{
    bytes
        .iter()
        .skip_while(|c| **c != 0 && low <= **c && **c <= high)
        .all(|byte| *byte == 0)
}

// The eight bytes as one number without sign.
pub fn wide_at(rows: &[u8], i: usize) -> usize
    requires { 10 * i + 10 ≤ length rows.now }
    ensures { result ≡ wide_at rows.now i }
{
    word64_at(rows, ROW_BYTES * i + 2) as usize
}
