// The rows of a file: the row areas of its blocks one after the other, without the zero rows at the end.
ghost use Rattle.std.specs.Prelude.{◌≡◌, ◌*◌, ◌≤◌, ◌++◌, length, drop};
ghost use Rattle.lingua.specs.Numbers.{area_bytes, row_bytes};
ghost use Rattle.lingua.specs.Value.{pad};
ghost use Rattle.lingua.specs.Rows.{row_count};
ghost use Rattle.lingua.specs.Format.{block_count, areas_from, used_rows, rows_of};
ghost use Rattle.blocks.specs.Blocks.{Gathered};

use crate::rules::all_zero;
use lingua::sizes::{AREA_BYTES, BLOCK_BYTES, CHECK_PLACE, HEADER_BYTES, ROW_BYTES};

// The row areas of all blocks to the front of areas; what lies behind them stays.
pub fn gather(file: &[u8], areas: &mut [u8])
    requires { area_bytes * block_count file.now ≤ length areas.old }
    ensures { areas.new ≡ areas_from 0 (block_count file.now) file.now ++ drop (area_bytes * block_count file.now) areas.old }
{
    for k in 0..file.len() / BLOCK_BYTES {
        let start = BLOCK_BYTES * k;
        let at = AREA_BYTES * k;
        areas[at..at + AREA_BYTES].copy_from_slice(
            &file[start + HEADER_BYTES..start + CHECK_PLACE],
        );
    }
}

// How many rows there are, up to the last that is not zero: looked for from the end, where few are zero.
fn used_rows(areas: &[u8]) -> usize
    ensures { result ≡ used_rows (row_count areas.now) areas.now }
{
    for r in (0..areas.len() / ROW_BYTES).rev() {
        let at = ROW_BYTES * r;
        if !all_zero(&areas[at..at + ROW_BYTES]) {
            return r + 1;
        }
    }
    0
}

// A file's rows to the front of areas, which has room for all its row areas; how many bytes they are.
pub fn gather_rows(file: &[u8], areas: &mut [u8]) -> usize
    requires { area_bytes * block_count file.now ≤ length areas.old }
    ensures { Gathered result areas.new file.now }
{
    gather(file, &mut *areas);
    let end = AREA_BYTES * (file.len() / BLOCK_BYTES);
    ROW_BYTES * used_rows(&areas[..end])
}

// The rows, then zeros: all of out is written.
pub fn copy_rows(rows: &[u8], out: &mut [u8])
    requires { length rows.now ≤ length out.old }
    ensures { out.new ≡ pad (length out.old) 0 rows.now }
{
    out[..rows.len()].copy_from_slice(rows);
    out[rows.len()..].fill(0);
}
