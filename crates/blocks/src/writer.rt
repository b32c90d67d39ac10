// The bytes of a file, from its rows: each block written whole, its check last.
ghost use Rattle.std.specs.Prelude.{◌≡◌, ◌*◌, ◌%◌, ◌<◌, ◌≤◌, ◌++◌, length, take, drop};
ghost use Rattle.lingua.specs.Numbers.{area_bytes, block_bytes, header_bytes, check_place, most_blocks};
ghost use Rattle.lingua.specs.Value.{pad};
ghost use Rattle.lingua.specs.Rows.{row_count};
ghost use Rattle.lingua.specs.Format.{with_check, file_length, file_of};
ghost use Rattle.lingua.specs.Answers.{file_meaning};
ghost use Rattle.blocks.specs.Blocks.{header_of};

use crate::rows::copy_rows;
use crate::rules::marker_of;
use crate::words::block_check;
use lingua::FileKind;
use lingua::sizes::{AREA_BYTES, BLOCK_BYTES, BLOCK_ROWS, CHECK_PLACE, HEADER_BYTES, ROW_BYTES};

// How long the file of these rows is, however many they are.
pub fn file_length(kind: FileKind, rows: &[u8]) -> usize
    ensures { result ≡ file_length (file_meaning kind) (row_count rows.now) }
{
    if let FileKind::Limits = kind {
        return BLOCK_BYTES;
    }
    let begun = (rows.len() / ROW_BYTES + (BLOCK_ROWS - 1)) / BLOCK_ROWS;
    if begun <= 1 {
        return BLOCK_BYTES;
    }
    BLOCK_BYTES * begun
}

// The eight bytes before a block's rows.
fn write_header(kind: FileKind, model: u16, k: u8, count: u8, header: &mut [u8])
    requires { length header.old ≡ header_bytes }
    ensures { header.new ≡ header_of (file_meaning kind) model k count }
{
    let marker = marker_of(kind);
    header[..4].copy_from_slice(&marker);
    header[4] = k;
    header[5] = count;
    let model_bytes = model.to_le_bytes();
    header[6] = model_bytes[0];
    header[7] = model_bytes[1];
}

// A block's check, behind what it goes over.
fn write_check(block: &mut [u8])
    requires { length block.old ≡ block_bytes }
    ensures { block.new ≡ with_check (take check_place block.old) }
{
    let check = block_check(&block[..CHECK_PLACE]);
    block[CHECK_PLACE..].copy_from_slice(&check.to_le_bytes());
}

// Block k of count, with the rows of its area; what the area has left is zero.
fn write_block(kind: FileKind, model: u16, k: u8, count: u8, area: &[u8], block: &mut [u8])
    requires { (length area.now ≤ area_bytes) × (length block.old ≡ block_bytes) }
    ensures { block.new ≡ with_check (header_of (file_meaning kind) model k count ++ pad area_bytes 0 area.now) }
{
    write_header(kind, model, k, count, &mut block[..HEADER_BYTES]);
    copy_rows(area, &mut block[HEADER_BYTES..CHECK_PLACE]);
    write_check(&mut *block);
}

// The rows of block k: up to fifty, and none where the rows end before it.
fn area_of(rows: &[u8], k: usize) -> &[u8]
    requires { k < most_blocks }
    ensures { result.now ≡ take area_bytes (drop (area_bytes * k) rows.now) }
{
    let length = rows.len();
    let start = AREA_BYTES * k;
    if length <= start {
        return &rows[length..];
    }
    if length <= start + AREA_BYTES {
        return &rows[start..];
    }
    &rows[start..start + AREA_BYTES]
}

// The file of the rows and the model, over all of out.
pub fn write_file(kind: FileKind, model: u16, rows: &[u8], out: &mut [u8])
    requires { (length out.old ≡ file_length (file_meaning kind) (row_count rows.now)) × (length out.old ≤ block_bytes * most_blocks) }
    ensures { out.new ≡ file_of (file_meaning kind) model rows.now }
{
    let count = out.len() / BLOCK_BYTES;
    for k in 0..count {
        let start = BLOCK_BYTES * k;
        let area = area_of(rows, k);
        write_block(
            kind,
            model,
            k as u8,
            count as u8,
            area,
            &mut out[start..start + BLOCK_BYTES],
        );
    }
}
