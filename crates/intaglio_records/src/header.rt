//! The bytes in front of a string: its hash (8 bytes), its number (4) and its length (1).
ghost use Rattle.std.specs.Prelude.{◌≡◌, ◌+◌, ◌≤◌, length};
ghost use Rattle.intaglio_records.specs.Header.{header_of, hash_at, number_at};

// How many bytes there are in front of a string.
pub(crate) const HEADER: usize = 13;

// What stands for the length of a string that is as long as this or longer.
pub(crate) const LONG: usize = 255;

// The bytes in front of a string of this length.
#[inline(always)]
pub(crate) fn header(hash: u64, number: u32, length: usize) -> [u8; HEADER]
    ensures { result ≡ header_of hash number length }
{
    let h = hash.to_le_bytes();
    let n = number.to_le_bytes();
    let short = length.min(LONG) as u8;
    [
        h[0], h[1], h[2], h[3], h[4], h[5], h[6], h[7], n[0], n[1], n[2], n[3], short,
    ]
}

// The hash of the record that begins here.
#[inline(always)]
pub(crate) fn read_hash(bytes: &[u8], at: usize) -> u64
    requires { at + 8 ≤ length bytes.now }
    ensures { result ≡ hash_at bytes.now at }
{
    u64::from_le_bytes([
        bytes[at],
        bytes[at + 1],
        bytes[at + 2],
        bytes[at + 3],
        bytes[at + 4],
        bytes[at + 5],
        bytes[at + 6],
        bytes[at + 7],
    ])
}

// The number of the string of the record that begins here.
#[inline(always)]
pub(crate) fn read_number(bytes: &[u8], at: usize) -> u32
    requires { at + 12 ≤ length bytes.now }
    ensures { result ≡ number_at bytes.now at }
{
    u32::from_le_bytes([bytes[at + 8], bytes[at + 9], bytes[at + 10], bytes[at + 11]])
}
