// Integers in bytes, low byte first.
ghost use Rattle.std.specs.Prelude.{◌≡◌, ◌+◌, ◌≤◌, length};
ghost use Rattle.lingua.specs.Rows.{word16, word32, word64};

// A 16-bit number.
#[tactic(auto, unfolding(crate::specs::Rows::word16))]
pub fn word16_at(bytes: &[u8], at: usize) -> u16
    requires { at + 2 ≤ length bytes.now }
    ensures { result ≡ word16 bytes.now at }
{
    u16::from_le_bytes([bytes[at], bytes[at + 1]])
}

// A 32-bit number.
#[tactic(auto, unfolding(crate::specs::Rows::word16, crate::specs::Rows::word32))]
pub fn word32_at(bytes: &[u8], at: usize) -> u32
    requires { at + 4 ≤ length bytes.now }
    ensures { result ≡ word32 bytes.now at }
{
    u32::from_le_bytes([bytes[at], bytes[at + 1], bytes[at + 2], bytes[at + 3]])
}

// A 64-bit number.
#[tactic(auto, unfolding(crate::specs::Rows::word16, crate::specs::Rows::word32, crate::specs::Rows::word64))]
pub fn word64_at(bytes: &[u8], at: usize) -> u64
    requires { at + 8 ≤ length bytes.now }
    ensures { result ≡ word64 bytes.now at }
{
    u64::from_le_bytes([
        bytes[at],
        bytes[at + 1],
        bytes[at + 2],
        bytes[at + 3],
        bytes[at + 4],
        bytes[at + 5],
        bytes[at + 6],
        bytes[at + 7],
    ])
}
