//! Little-endian numbers in bytes, for the formats of files.
ghost use Rattle.std.specs.Prelude.{◌≡◌, ◌+◌, ◌≤◌, length};
ghost use Rattle.intaglio_hash.specs.Numbers.{u8_at, u16_at, u32_at, u64_at};

/// The byte at a position.
#[inline(always)]
#[tactic(auto, unfolding(crate::specs::Numbers::u8_at))]
pub fn read_u8(bytes: &[u8], at: usize) -> u8
    requires { at + 1 ≤ length bytes.now }
    ensures { result ≡ u8_at bytes.now at }
{
    bytes[at]
}

/// The number in the two bytes from a position on.
#[inline(always)]
#[tactic(auto, unfolding(crate::specs::Numbers::u16_at))]
pub fn read_u16(bytes: &[u8], at: usize) -> u16
    requires { at + 2 ≤ length bytes.now }
    ensures { result ≡ u16_at bytes.now at }
{
    u16::from_le_bytes([bytes[at], bytes[at + 1]])
}

/// The number in the four bytes from a position on.
#[inline(always)]
#[tactic(auto, unfolding(crate::specs::Numbers::u32_at))]
pub fn read_u32(bytes: &[u8], at: usize) -> u32
    requires { at + 4 ≤ length bytes.now }
    ensures { result ≡ u32_at bytes.now at }
{
    u32::from_le_bytes([bytes[at], bytes[at + 1], bytes[at + 2], bytes[at + 3]])
}

/// The number in the eight bytes from a position on.
#[inline(always)]
#[tactic(auto, unfolding(crate::specs::Numbers::u64_at))]
pub fn read_u64(bytes: &[u8], at: usize) -> u64
    requires { at + 8 ≤ length bytes.now }
    ensures { result ≡ u64_at bytes.now at }
{
    u64::from_le_bytes([
        bytes[at],
        bytes[at + 1],
        bytes[at + 2],
        bytes[at + 3],
        bytes[at + 4],
        bytes[at + 5],
        bytes[at + 6],
        bytes[at + 7],
    ])
}
