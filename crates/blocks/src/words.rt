// The check of a block; its words as lingua reads them.
ghost use Rattle.std.specs.Prelude.{◌≡◌, ◌≤◌, length};
ghost use Rattle.lingua.specs.Numbers.{check_place};
ghost use Rattle.lingua.specs.Format.{block_check};

use lingua::sizes::CHECKED_WORDS;
pub use lingua::words::{word16_at, word32_at};

// The check of a block, over its first 127 words.
pub fn block_check(block: &[u8]) -> u32
    requires { check_place ≤ length block.now }
    ensures { result ≡ block_check block.now }
{
    let mut sum = 0u32;
    for i in 0..CHECKED_WORDS {
        sum = sum.wrapping_add(word32_at(block, 4 * i)).rotate_left(5);
    }
    sum
}
