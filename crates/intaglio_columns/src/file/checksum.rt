//! The checksum of a column.
ghost use Rattle.std.specs.Prelude.{◌≡◌, ◌^◌, ◌<◌, ◌≤◌, length};
ghost use Rattle.intaglio_columns.specs.Layout.{checksum_of};
ghost use Rattle.intaglio_columns.specs.Writing.{sealed};

use crate::file::header::HEADER;
use intaglio_hash::KeyedHasher;
use std::hash::Hasher;

// The checksum of the codes in these bytes and of the rest of the header.
pub(crate) fn checksum_of(bytes: &[u8]) -> u64
    requires { 128 ≤ length bytes.now }
    ensures sum { result ≡ checksum_of bytes.now }
    ensures small { checksum_of bytes.now < 2 ^ 64 }
{
    let mut hasher = KeyedHasher::with_keys(4, 0);
    hasher.write(&bytes[HEADER..]);
    hasher.write(&bytes[..56]);
    hasher.write(&[0u8, 0, 0, 0, 0, 0, 0, 0]);
    hasher.write(&bytes[64..HEADER]);
    hasher.finish()
}

// Writes the checksum into the header.
pub(crate) fn seal(bytes: &mut [u8])
    requires { 128 ≤ length bytes.old }
    ensures sealed { bytes.new ≡ sealed bytes.old }
    ensures len { length bytes.new ≡ length bytes.old }
    ensures small { checksum_of bytes.old < 2 ^ 64 }
{
    let sum = checksum_of(bytes);
    bytes[56..64].copy_from_slice(&sum.to_le_bytes());
}
