// Words on the stack: up to eight bytes in a cell, the first highest, zeros after.
ghost use Rattle.std.specs.Prelude.{◌≡◌, true, List, ℕ, ◌<◌, length};
ghost use Rattle.lingua.specs.Numbers.{body_cells, word_length};
ghost use Rattle.lingua.specs.Body.{word};
ghost use Rattle.lingua.specs.Value.{Value, is_text, packed_in};
ghost use Rattle.lingua.specs.Faults.{number_of};
ghost use Rattle.lingua.specs.Operation.{glue};
ghost use Rattle.lingua.specs.Compute.{binary_value};
ghost use Rattle.cells.specs.Stack.{first_place, second_place, Lies, Leaves};
ghost use Rattle.cells.specs.Word.{IsWord, WordAt, Behind};

use lingua::errors::Error;
use lingua::sizes::BODY_CELLS;

// The first byte's place.
const HIGHEST: u64 = 72057594037927936;

// The second word's bytes moved behind the first's, or none where there is no room for them. Each turn passes a byte of the first word and moves the second by one
// place, which has to be empty: a character is no zero.
fn moved_behind(first: u64, second: u64) -> Option<u64>
    requires word { IsWord first }
    requires word_2 { IsWord second }
    ensures { (cs ds : List ℕ) → is_text cs ≡ true → is_text ds ≡ true → first ≡ packed_in word_length cs → second ≡ packed_in word_length ds → Behind result cs ds }
{
    let mut rest = first;
    let mut moved = second;
    let mut place = HIGHEST;
    // The first word ends at its last byte, after none to eight turns: nothing is counted.
    while rest != 0 {
        if moved % 256 != 0 {
            return None;
        }
        moved = moved / 256;
        rest = rest % place;
        place = place / 256;
    }
    Some(moved)
}

// The second word behind the first, if both have at most eight bytes together.
pub fn glue(stack: &mut [i64]) -> Result<(), Error>
    requires body_cells_in_bounds { body_cells < length stack.old }
    requires word_at { WordAt stack.old first_place }
    requires word_at_2 { WordAt stack.old second_place }
    ensures { (x y : Value) → Lies stack.old first_place word x → Lies stack.old second_place word y → Leaves (number_of result) stack.new word (binary_value glue x y) }
{
    let first = stack[0] as u64;
    let second = stack[BODY_CELLS] as u64;
    let Some(moved) = moved_behind(first, second) else {
        return Err(Error::WordTooLong);
    };
    stack[0] = (first + moved) as i64;
    Ok(())
}
