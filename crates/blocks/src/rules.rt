// Rules 2 to 5: what is wrong with a file's bytes. Each rule looks at any bytes, and only at whole blocks.
ghost use Rattle.std.specs.Prelude.{◌≡◌, ◌/◌, ◌<◌, ◌≤◌, length, take, ◌==◌};
ghost use Rattle.lingua.specs.Numbers.{block_bytes, check_place};
ghost use Rattle.lingua.specs.Compute.{same_text};
ghost use Rattle.lingua.specs.Rows.{word32};
ghost use Rattle.lingua.specs.Format.{block_at, marker, all_zero, empty_block, block_check, length_wrong, marker_wrong, header_wrong, block_check_wrong};
ghost use Rattle.lingua.specs.Refusal.{lowest, file_rules};
ghost use Rattle.lingua.specs.Faults.{refusal_of};
ghost use Rattle.lingua.specs.Answers.{file_meaning};
ghost use Rattle.blocks.specs.Blocks.{header_is};

use crate::words::{block_check, word16_at, word32_at};
use lingua::FileKind;
use lingua::errors::Refusal;
use lingua::sizes::{BLOCK_BYTES, CHECK_PLACE, HEADER_BYTES, MOST_BLOCKS};

// Block k.
fn block(file: &[u8], k: usize) -> &[u8]
    requires { k < length file.now / block_bytes }
    ensures { (result.now ≡ block_at file.now k) × (length result.now ≡ block_bytes) }
{
    let start = BLOCK_BYTES * k;
    &file[start..start + BLOCK_BYTES]
}

// ---- 2: the length
pub fn length_wrong(kind: FileKind, file: &[u8]) -> bool
    ensures { result ≡ length_wrong (file_meaning kind) file.now }
{
    if let FileKind::Limits = kind {
        return file.len() != BLOCK_BYTES;
    }
    let count = file.len() / BLOCK_BYTES;
    if file.len() != BLOCK_BYTES * count {
        return true;
    }
    if count < 1 {
        return true;
    }
    MOST_BLOCKS < count
}

// ---- 3: the marker
// A block begins with these four bytes.
pub fn marker_of(kind: FileKind) -> [u8; 4]
    ensures { result ≡ marker (file_meaning kind) }
{
    match kind {
        FileKind::Profile => *b"PROF",
        FileKind::Limits => *b"LIMS",
    }
}

fn starts_with(bytes: &[u8], text: &[u8]) -> bool
    ensures { result ≡ same_text (take (length text.now) bytes.now) text.now }
{
    bytes.starts_with(text)
}

pub fn marker_wrong(kind: FileKind, file: &[u8]) -> bool
    ensures { result ≡ marker_wrong (file_meaning kind) file.now }
{
    let marker = marker_of(kind);
    !(0..file.len() / BLOCK_BYTES).all(|k| starts_with(block(file, k), &marker))
}

// ---- 4: block number, count of blocks, model, and rows in each block of a profile
pub fn all_zero(bytes: &[u8]) -> bool
    ensures { result ≡ all_zero bytes.now }
{
    bytes.iter().all(|byte| *byte == 0)
}

fn empty_block(kind: FileKind, block: &[u8]) -> bool
    requires { check_place ≤ length block.now }
    ensures { result ≡ empty_block (file_meaning kind) block.now }
{
    match kind {
        FileKind::Profile => all_zero(&block[HEADER_BYTES..CHECK_PLACE]),
        FileKind::Limits => false,
    }
}

fn header_fits(kind: FileKind, block: &[u8], k: usize, count: usize, model: u16) -> bool
    requires { check_place ≤ length block.now }
    ensures { result ≡ header_is (file_meaning kind) block.now k count model }
{
    if block[4] as usize != k {
        return false;
    }
    if block[5] as usize != count {
        return false;
    }
    if word16_at(block, 6) != model {
        return false;
    }
    !empty_block(kind, block)
}

pub fn header_wrong(kind: FileKind, file: &[u8]) -> bool
    ensures { result ≡ header_wrong (file_meaning kind) file.now }
{
    let count = file.len() / BLOCK_BYTES;
    if count == 0 {
        return false;
    }
    let model = word16_at(file, 6);
    !(0..count).all(|k| header_fits(kind, block(file, k), k, count, model))
}

// ---- 5: the check
fn check_fits(block: &[u8]) -> bool
    requires { length block.now ≡ block_bytes }
    ensures { result ≡ (word32 block.now check_place == block_check block.now) }
{
    word32_at(block, CHECK_PLACE) == block_check(block)
}

pub fn check_wrong(file: &[u8]) -> bool
    ensures { result ≡ block_check_wrong file.now }
{
    !(0..file.len() / BLOCK_BYTES).all(|k| check_fits(block(file, k)))
}

// ---- the lowest of them
pub fn file_refusal(kind: FileKind, file: &[u8]) -> Result<(), Refusal>
    ensures { refusal_of result ≡ lowest (file_rules (file_meaning kind) file.now) }
{
    if length_wrong(kind, file) {
        return Err(Refusal::BadLength);
    }
    if marker_wrong(kind, file) {
        return Err(Refusal::BadMarker);
    }
    if header_wrong(kind, file) {
        return Err(Refusal::BadHeader);
    }
    if check_wrong(file) {
        return Err(Refusal::BadCheck);
    }
    Ok(())
}
