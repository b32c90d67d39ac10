// Files, numbers and readings, from text: none where the text is malformed.
ghost use Rattle.std.specs.Prelude.{◌≤◌, ◌<◌, length, IfSome};

use std::str::FromStr;

// A run takes at most 16 readings. So where there are more than the 64 that find room, it refuses those 64 as it would all.
pub const MOST_READINGS: usize = 64;

// `-` stands for what is empty, so that no field is.
const NOTHING: &str = "-";

fn digit_value(byte: u8) -> Option<u8>
    ensures { IfSome result (λ digit. digit < 16) }
{
    match byte {
        b'0'..=b'9' => Some(byte - b'0'),
        b'a'..=b'f' => Some(byte - b'a' + 10),
        _ => None,
    }
}

fn byte_of(pair: &[u8; 2]) -> Option<u8> {
    let high = digit_value(pair[0])?;
    let low = digit_value(pair[1])?;
    Some(high * 16 + low)
}

// The bytes that `text` spells in lower-case hex, at the start of `out`, where they find room.
pub(crate) fn decode<'a>(text: &str, out: &'a mut [u8]) -> Option<&'a [u8]>
    ensures { IfSome result (λ bytes. length bytes.now ≤ length out.old) }
{
    if text == NOTHING {
        return Some(&[]);
    }
    let (pairs, rest) = text.as_bytes().as_chunks::<2>();
    if pairs.is_empty() || !rest.is_empty() || out.len() < pairs.len() {
        return None;
    }
    for (byte, pair) in out.iter_mut().zip(pairs) {
        *byte = byte_of(pair)?;
    }
    Some(&out[..pairs.len()])
}

// A number in decimal digits, behind a minus where it has one. `parse` alone would take a plus too.
pub(crate) fn number<T: FromStr>(text: &str) -> Option<T>
where
    T::Err: Drop,
{
    if text.starts_with('+') {
        return None;
    }
    text.parse().ok()
}

// One reading, `variable:number`.
fn reading(text: &str) -> Option<(u16, i64)> {
    let (variable, value) = text.split_once(':')?;
    Some((number(variable)?, number(value)?))
}

// A list of readings: as many as find room, at the start of both buffers.
pub(crate) fn readings<'a>(
    text: &str,
    variables: &'a mut [u16; MOST_READINGS],
    numbers: &'a mut [i64; MOST_READINGS],
) -> Option<(&'a [u16], &'a [i64])> {
    if text == NOTHING {
        return Some((&[], &[]));
    }
    for (i, entry) in text.split(',').enumerate() {
        let (variable, value) = reading(entry)?;
        if i < MOST_READINGS {
            variables[i] = variable;
            numbers[i] = value;
        }
    }
    let count = text.split(',').count().min(MOST_READINGS);
    Some((&variables[..count], &numbers[..count]))
}
