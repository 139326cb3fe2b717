//! The header of a frozen table.
ghost use Rattle.std.specs.Prelude.{◌≡◌, ◌<◌, ◌≤◌, ◌^◌, IfOk, IfErr, IsOk};
ghost use Rattle.intaglio_frozen.specs.Layout.{count, kind, shard, shards};
ghost use Rattle.intaglio_frozen.specs.IsFrozen.{Describes, HasHeader, HasKind, HasSet, IsReserved, number_of};
ghost use Rattle.intaglio_frozen.specs.Fault.{IsFault};

use crate::error::FrozenError;
use crate::id::DictionaryId;
use crate::kind::FrozenKind;
use crate::set_id::{Place, SetId};
use intaglio_hash::numbers::{read_u32, read_u64};

// How many bytes the header has.
pub(crate) const HEADER: usize = 128;
// "INTAGLIO".
pub(crate) const MAGIC: u64 = 0x4f49_4c47_4154_4e49;

pub(crate) const VERSION: u32 = 2;

// The version before it.
const OLD_VERSION: u32 = 1;

pub(crate) const MAX_COUNT: u64 = 1 << 31;

/// What the header of a frozen table says.
#[derive(Debug, Clone, Copy, PartialEq, Eq)]
pub struct Header {
    /// What the strings are.
    pub kind: FrozenKind,
    /// The first key of the hasher.
    pub key0: u64,
    /// The second key of the hasher.
    pub key1: u64,
    /// How many strings there are.
    pub count: u64,
    /// How many bytes the strings have.
    pub text_length: u64,
    /// What the dictionary of the strings is.
    pub id: DictionaryId,
    /// Which shard of which set the table is.
    pub place: Place,
}

impl Header {
    /// Reads the header at the beginning of these bytes. Nothing behind it is read.
    ///
    /// # Errors
    ///
    /// What is wrong with the header.
    pub fn read(bytes: &[u8]) -> Result<Header, FrozenError>
        ensures header { IfOk result (Describes bytes.now) }
        ensures ok { IfOk result (λ _. HasHeader bytes.now) }
        ensures only { HasHeader bytes.now → IsOk result }
        ensures err { IfErr result (IsFault bytes.now) }
    {
        let kind = read_kind(bytes)?;
        check_count(bytes)?;
        check_place(bytes)?;
        Ok(Header {
            kind,
            key0: read_u64(bytes, 16),
            key1: read_u64(bytes, 24),
            count: read_u64(bytes, 32),
            text_length: read_u64(bytes, 40),
            id: DictionaryId {
                is_text: kind == FrozenKind::Text,
                count: read_u64(bytes, 32),
                hash0: read_u64(bytes, 48),
                hash1: read_u64(bytes, 56),
            },
            place: Place {
                set: SetId {
                    hash0: read_u64(bytes, 64),
                    hash1: read_u64(bytes, 72),
                },
                shards: read_u32(bytes, 80),
                shard: read_u32(bytes, 84),
            },
        })
    }
}

// The kind, after the magic and the version.
fn read_kind(bytes: &[u8]) -> Result<FrozenKind, FrozenError>
    ensures kind { IfOk result (λ found. number_of found ≡ kind bytes.now) }
    ensures ok { IfOk result (λ _. HasKind bytes.now) }
    ensures only { HasKind bytes.now → IsOk result }
    ensures err { IfErr result (IsFault bytes.now) }
{
    if bytes.len() < 8 || read_u64(bytes, 0) != MAGIC {
        return Err(FrozenError::Magic);
    }
    if bytes.len() < 12 {
        return Err(FrozenError::Truncated);
    }
    match read_u32(bytes, 8) {
        VERSION => {}
        OLD_VERSION => return Err(FrozenError::OldVersion),
        _ => return Err(FrozenError::Version),
    }
    if bytes.len() < HEADER {
        return Err(FrozenError::Truncated);
    }
    match read_u32(bytes, 12) {
        0 => Ok(FrozenKind::Bytes),
        1 => Ok(FrozenKind::Text),
        _ => Err(FrozenError::Kind),
    }
}

// Checks the reserved bytes, and that there aren't too many strings.
fn check_count(bytes: &[u8]) -> Result<(), FrozenError>
    requires { HasKind bytes.now }
    ensures reserved { IfOk result (λ _. IsReserved bytes.now) }
    ensures few { IfOk result (λ _. count bytes.now ≤ 2 ^ 31) }
    ensures only { HasHeader bytes.now → IsOk result }
    ensures err { IfErr result (IsFault bytes.now) }
{
    if read_u64(bytes, 88) != 0
        || read_u64(bytes, 96) != 0
        || read_u64(bytes, 104) != 0
        || read_u64(bytes, 112) != 0
        || read_u64(bytes, 120) != 0
    {
        return Err(FrozenError::Reserved);
    }
    if read_u64(bytes, 32) > MAX_COUNT {
        return Err(FrozenError::TooMany);
    }
    Ok(())
}

// Checks the number of the shard, and the identity of the set if there is one shard.
fn check_place(bytes: &[u8]) -> Result<(), FrozenError>
    requires kind { HasKind bytes.now }
    requires reserved { IsReserved bytes.now }
    requires few { count bytes.now ≤ 2 ^ 31 }
    ensures shard { IfOk result (λ _. shard bytes.now < shards bytes.now) }
    ensures set { IfOk result (λ _. HasSet bytes.now) }
    ensures only { HasHeader bytes.now → IsOk result }
    ensures err { IfErr result (IsFault bytes.now) }
{
    let shards = read_u32(bytes, 80);
    if read_u32(bytes, 84) >= shards {
        return Err(FrozenError::Shard);
    }
    let is_own = read_u64(bytes, 64) == read_u64(bytes, 48)
        && read_u64(bytes, 72) == read_u64(bytes, 56);
    if shards == 1 && !is_own {
        return Err(FrozenError::OtherIdentity);
    }
    Ok(())
}
