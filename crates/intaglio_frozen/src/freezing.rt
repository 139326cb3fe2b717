//! How a list of strings is frozen.
ghost use Rattle.std.specs.Prelude.{◌≡◌, ◌≢◌, ◌-◌, ◌<◌, ◌≤◌, ◌^◌, IfErr, IfOk, IfSome, IsTrue, None, length, min, sum_by};
ghost use Rattle.intaglio_frozen.specs.Layout.{key0 as key0_of, key1 as key1_of, kind as kind_of, shards, strings};
ghost use Rattle.intaglio_frozen.specs.LookUp.{FindsAll};
ghost use Rattle.intaglio_frozen.specs.Id.{IsIdOfStrings};
ghost use Rattle.intaglio_frozen.specs.Identity.{HasId, is_text_number};
ghost use Rattle.intaglio_frozen.specs.IsFrozen.{IsBlock, IsFrozen, number_of};
ghost use Rattle.intaglio_frozen.specs.Stuck.{IsStuck};
ghost use Rattle.intaglio_frozen.specs.SetId.{IsAt};
ghost use Rattle.intaglio_frozen.specs.Freezing.{AreAllowed, HasDefaultKeys, HasKeys, HasKeysFor, HasNoEqual, HasPassedFor, IsRefusal, IsTableOf, HaveFirstPlaces, LackAllPlaces, LackDefaultPlaces, LackEarlierPlaces, LackPlacesFor, hashes_under};
ghost use Rattle.intaglio_frozen.specs.declared.error.FreezeError.TheVariants.{NoPlaces};

use crate::block::Block;
use crate::checking::first_misplaced;
use crate::drawing::hash_all;
use crate::equal::equal_strings;
use crate::error::FreezeError;
use crate::hashing::hashes;
use crate::header::{HEADER, Header, MAGIC, MAX_COUNT, VERSION};
use crate::id::{DictionaryId, kind_number};
use crate::kind::FrozenKind;
use crate::list::{StringList, first_fault};
use crate::placing::{PlacedSections, place_all};
use crate::set_id::{Place, SetId};
use intaglio_content::same_bytes;
use intaglio_hash::numbers::read_u64;
use std::alloc::{AllocError, Global};

// How many pairs of keys are tried.
const ATTEMPTS: u64 = 8;

/// The bytes of a frozen table of these strings: they open, to the same list, so each string keeps its
/// symbol.
///
/// The hashes are keyed by these numbers, or, if a string gets no place under them, by `key1` and one of the
/// seven numbers after `key0`, modulo 2^64. It is only tested that the same strings under the same keys always
/// give the same bytes.
///
/// # Errors
///
/// `TooMany`, `TooLong`, `NotUtf8` or `Equal` for strings that no frozen table of this kind can have.
/// `Equal(i, j)` says that string j is the first one that is equal to an earlier one, which is string i.
/// Otherwise `Memory` if an allocation fails, which may hide that two strings are equal, and `NoPlaces` if
/// under each of the pairs of keys a group of strings has no places (`IsStuck`). By chance that is very
/// unlikely, but strings can be chosen for known keys; others can then serve.
pub fn freeze<L: StringList>(
    alloc: Global,
    list: &L,
    kind: FrozenKind,
    key0: u64,
    key1: u64,
) -> Result<Vec<u8>, FreezeError>
    ensures frozen { IfOk result (λ bytes. IsFrozen bytes.items) }
    ensures strings { IfOk result (λ bytes. strings bytes.items ≡ L.strings list.now) }
    ensures kind { IfOk result (λ bytes. kind_of bytes.items ≡ number_of kind) }
    ensures single { IfOk result (λ bytes. shards bytes.items ≡ 1) }
    ensures keys { IfOk result (λ bytes. HasKeys key0 key1 bytes.items) }
    ensures passed { IfOk result (λ bytes. LackEarlierPlaces (L.strings list.now) key0 key1 bytes.items) }
    ensures err { IfErr result (IsRefusal kind (L.strings list.now)) }
    ensures no_places { IfErr result (λ error. error ≡ NoPlaces →
        LackAllPlaces (L.strings list.now) key0 key1) }
{
    freeze_at(alloc, list, kind, Some((key0, key1)), Place::SINGLE)
}

/// As [`freeze`], for a caller who has no keys: under the keys 0 and 0 and those that `freeze` tries
/// after them, and if a string gets no place under any of these, under keys that are drawn from the
/// strings, by a hash of all of them, and those that `freeze` tries after these. The same strings
/// always give the same bytes, which is only tested.
///
/// # Errors
///
/// Those of [`freeze`].
pub fn freeze_with_default_keys<L: StringList>(
    alloc: Global,
    list: &L,
    kind: FrozenKind,
) -> Result<Vec<u8>, FreezeError>
    ensures frozen { IfOk result (λ bytes. IsFrozen bytes.items) }
    ensures strings { IfOk result (λ bytes. strings bytes.items ≡ L.strings list.now) }
    ensures kind { IfOk result (λ bytes. kind_of bytes.items ≡ number_of kind) }
    ensures single { IfOk result (λ bytes. shards bytes.items ≡ 1) }
    ensures keys { IfOk result (λ bytes. HasDefaultKeys (L.strings list.now) bytes.items) }
    ensures passed { IfOk result (λ bytes. HaveFirstPlaces (L.strings list.now) bytes.items) }
    ensures err { IfErr result (IsRefusal kind (L.strings list.now)) }
    ensures no_places { IfErr result (λ error. error ≡ NoPlaces → LackDefaultPlaces (L.strings list.now)) }
{
    freeze_at(alloc, list, kind, None, Place::SINGLE)
}

/// As [`freeze`] under given keys, and otherwise as [`freeze_with_default_keys`], but the table is at this
/// place. If this is the only one of its set, the set is what the strings are, whatever the place says.
///
/// # Errors
///
/// Those of [`freeze`].
pub fn freeze_at<L: StringList>(
    alloc: Global,
    list: &L,
    kind: FrozenKind,
    keys: Option<(u64, u64)>,
    place: Place,
) -> Result<Vec<u8>, FreezeError>
    requires { place.shard < place.shards }
    ensures table { IfOk result (λ bytes. IsTableOf kind (L.strings list.now) bytes.items) }
    ensures place { IfOk result (λ bytes. IsAt place bytes.items) }
    ensures keys { IfOk result (λ bytes. HasKeysFor keys (L.strings list.now) bytes.items) }
    ensures passed { IfOk result (λ bytes. HasPassedFor keys (L.strings list.now) bytes.items) }
    ensures err { IfErr result (IsRefusal kind (L.strings list.now)) }
    ensures no_places { IfErr result (λ error. error ≡ NoPlaces → LackPlacesFor keys (L.strings list.now)) }
{
    check_strings(kind, list)?;
    let id = DictionaryId::of_list(kind == FrozenKind::Text, list);
    match freeze_by(alloc, list, kind, id, place, keys)? {
        Some(bytes) => Ok(bytes),
        None => Err(FreezeError::NoPlaces),
    }
}

// Checks all that can be wrong with strings but that two are equal.
fn check_strings<L: StringList>(kind: FrozenKind, list: &L) -> Result<(), FreezeError>
    ensures allowed { IfOk result (λ _. AreAllowed kind (L.strings list.now)) }
    ensures err { IfErr result (IsRefusal kind (L.strings list.now)) }
    ensures others { IfErr result (λ error. error ≢ NoPlaces) }
{
    if list.len() > MAX_COUNT as usize {
        return Err(FreezeError::TooMany);
    }
    if byte_count(list) > u32::MAX as u64 {
        return Err(FreezeError::TooLong);
    }
    match first_fault(kind, list) {
        Some(i) => Err(FreezeError::NotUtf8(i)),
        None => Ok(()),
    }
}

// The bytes under the first keys that have places of those that are tried, or nothing if each leaves a group of
// strings no places.
fn freeze_by<L: StringList>(
    alloc: Global,
    list: &L,
    kind: FrozenKind,
    id: DictionaryId,
    place: Place,
    keys: Option<(u64, u64)>,
) -> Result<Option<Vec<u8>>, FreezeError>
    requires allowed { AreAllowed kind (L.strings list.now) }
    requires id { IsIdOfStrings (is_text_number (number_of kind)) (L.strings list.now) id }
    ensures table { let IsTable = IsTableOf kind (L.strings list.now) in
        IfOk result (λ found. IfSome found (λ bytes. IsTable bytes.items)) }
    ensures place { IfOk result (λ found. IfSome found (λ bytes. IsAt place bytes.items)) }
    ensures keys { let HasKeys = HasKeysFor keys (L.strings list.now) in
        IfOk result (λ found. IfSome found (λ bytes. HasKeys bytes.items)) }
    ensures passed { let HasPassed = HasPassedFor keys (L.strings list.now) in
        IfOk result (λ found. IfSome found (λ bytes. HasPassed bytes.items)) }
    ensures none { let lacking = LackPlacesFor keys (L.strings list.now) in
        IfOk result (λ found. found ≡ None → lacking) }
    ensures distinct { IfOk result (λ found. found ≡ None → HasNoEqual (L.strings list.now)) }
    ensures err { IfErr result (IsRefusal kind (L.strings list.now)) }
    ensures others { IfErr result (λ error. error ≢ NoPlaces) }
{
    let Some((key0, key1)) = keys else {
        if let Some(bytes) = freeze_near(alloc, list, kind, id, place, 0, 0)? {
            return Ok(Some(bytes));
        }
        let key0 = hash_all(list, 0, 0);
        let key1 = hash_all(list, key0, 0);
        return freeze_near(alloc, list, kind, id, place, key0, key1);
    };
    freeze_near(alloc, list, kind, id, place, key0, key1)
}

// The bytes under these keys or one of the seven pairs after them, or nothing if each leaves a group of
// strings no places.
fn freeze_near<L: StringList>(
    alloc: Global,
    list: &L,
    kind: FrozenKind,
    id: DictionaryId,
    place: Place,
    key0: u64,
    key1: u64,
) -> Result<Option<Vec<u8>>, FreezeError>
    requires allowed { AreAllowed kind (L.strings list.now) }
    requires id { IsIdOfStrings (is_text_number (number_of kind)) (L.strings list.now) id }
    ensures table { let IsTable = IsTableOf kind (L.strings list.now) in
        IfOk result (λ found. IfSome found (λ bytes. IsTable bytes.items)) }
    ensures place { IfOk result (λ found. IfSome found (λ bytes. IsAt place bytes.items)) }
    ensures keys { IfOk result (λ found. IfSome found (λ bytes. HasKeys key0 key1 bytes.items)) }
    ensures passed { let HasPassed = LackEarlierPlaces (L.strings list.now) key0 key1 in
        IfOk result (λ found. IfSome found (λ bytes. HasPassed bytes.items)) }
    ensures none { let lacking = LackAllPlaces (L.strings list.now) key0 key1 in
        IfOk result (λ found. found ≡ None → lacking) }
    ensures distinct { IfOk result (λ found. found ≡ None → HasNoEqual (L.strings list.now)) }
    ensures err { IfErr result (IsRefusal kind (L.strings list.now)) }
    ensures others { IfErr result (λ error. error ≢ NoPlaces) }
{
    for attempt in 0..ATTEMPTS {
        let key0 = key0.wrapping_add(attempt);
        if let Some(bytes) = freeze_under(alloc, list, kind, id, place, key0, key1)? {
            return Ok(Some(bytes));
        }
    }
    Ok(None)
}

// The bytes under these keys, or nothing if they leave a group of strings no places.
fn freeze_under<L: StringList>(
    alloc: Global,
    list: &L,
    kind: FrozenKind,
    id: DictionaryId,
    place: Place,
    key0: u64,
    key1: u64,
) -> Result<Option<Vec<u8>>, FreezeError>
    requires allowed { AreAllowed kind (L.strings list.now) }
    requires id { IsIdOfStrings (is_text_number (number_of kind)) (L.strings list.now) id }
    ensures table { let IsTable = IsTableOf kind (L.strings list.now) in
        IfOk result (λ found. IfSome found (λ bytes. IsTable bytes.items)) }
    ensures place { IfOk result (λ found. IfSome found (λ bytes. IsAt place bytes.items)) }
    ensures first_key { IfOk result (λ found. IfSome found (λ bytes. key0_of bytes.items ≡ key0)) }
    ensures second_key { IfOk result (λ found. IfSome found (λ bytes. key1_of bytes.items ≡ key1)) }
    ensures none { let stuck = IsStuck (hashes_under key0 key1 (L.strings list.now)) in
        IfOk result (λ found. found ≡ None → stuck) }
    ensures distinct { IfOk result (λ found. found ≡ None → HasNoEqual (L.strings list.now)) }
    ensures err { IfErr result (IsRefusal kind (L.strings list.now)) }
    ensures others { IfErr result (λ error. error ≢ NoPlaces) }
{
    let hashes = hashes(alloc, list, key0, key1)?;
    let Some(sections) = place_all(alloc, &hashes)? else {
        return match equal_strings(alloc, list) {
            Ok(Some((first, second))) => Err(FreezeError::Equal(first, second)),
            Ok(None) => Ok(None),
            Err(_) => Err(FreezeError::Memory),
        };
    };
    let bytes = assemble(alloc, list, id, place, [key0, key1], &sections)?;
    if holds(&bytes, list, kind, id, place, key0, key1, &hashes) {
        Ok(Some(bytes))
    } else {
        // This is never so, but it isn't proved that it never is.
        Err(FreezeError::Memory)
    }
}

// How many bytes the strings have together, or `u64::MAX` if there are more.
fn byte_count<L: StringList>(list: &L) -> u64
    ensures { result ≡ min (sum_by length (L.strings list.now)) (2 ^ 64 - 1) }
{
    let mut count = 0u64;
    for i in 0..list.len() {
        count = count.saturating_add(list.string(i).len() as u64);
    }
    count
}

// Whether the bytes are a frozen table of these strings, which have these hashes, at this place and under these
// keys.
fn holds<L: StringList>(
    bytes: &[u8],
    list: &L,
    kind: FrozenKind,
    id: DictionaryId,
    place: Place,
    key0: u64,
    key1: u64,
    hashes: &[u64],
) -> bool
    requires allowed { AreAllowed kind (L.strings list.now) }
    requires id { IsIdOfStrings (is_text_number (number_of kind)) (L.strings list.now) id }
    requires hashes { hashes.now ≡ hashes_under key0 key1 (L.strings list.now) }
    ensures table { IsTrue result → IsTableOf kind (L.strings list.now) bytes.now }
    ensures place { IsTrue result → IsAt place bytes.now }
    ensures first_key { IsTrue result → key0_of bytes.now ≡ key0 }
    ensures second_key { IsTrue result → key1_of bytes.now ≡ key1 }
{
    if !has_header(bytes, kind, place, key0, key1) {
        return false;
    }
    let Ok(block) = Block::read(bytes) else {
        return false;
    };
    if !has_strings(&block, list) {
        return false;
    }
    block.has_unused() && has_id(bytes, id) && finds_all(&block, hashes)
}

// Whether a header is that of a table of this kind, at this place and under these keys.
fn has_header(bytes: &[u8], kind: FrozenKind, place: Place, key0: u64, key1: u64) -> bool
    ensures kind { IsTrue result → kind_of bytes.now ≡ number_of kind }
    ensures place { IsTrue result → IsAt place bytes.now }
    ensures first_key { IsTrue result → key0_of bytes.now ≡ key0 }
    ensures second_key { IsTrue result → key1_of bytes.now ≡ key1 }
{
    match Header::read(bytes) {
        Ok(header) => {
            header.kind == kind
                && header.key0 == key0
                && header.key1 == key1
                && header.place.shards == place.shards
                && header.place.shard == place.shard
                && (place.shards == 1 || header.place.set == place.set)
        }
        Err(_) => false,
    }
}

// Whether the header of these bytes has this identity, which is that of their strings.
fn has_id(bytes: &[u8], id: DictionaryId) -> bool
    requires block { IsBlock bytes.now }
    requires id { IsIdOfStrings (is_text_number (kind_of bytes.now)) (strings bytes.now) id }
    ensures { IsTrue result → HasId bytes.now }
{
    id.hash0 == read_u64(bytes, 48) && id.hash1 == read_u64(bytes, 56)
}

// Whether these are the strings of a block.
#[tactic(auto, using(std::proofs::lemmas::Grind::common_steps, crate::proofs::Found::same_by_get))]
fn has_strings<L: StringList>(block: &Block<'_>, list: &L) -> bool
    ensures { IsTrue result → strings block.now ≡ L.strings list.now }
{
    if block.len() != list.len() {
        return false;
    }
    for i in 0..block.len() {
        if !same_bytes(block.string(i), list.string(i)) {
            return false;
        }
    }
    true
}

// Whether each string of a block, which have these hashes, is found at its symbol.
#[tactic(auto, using(std::proofs::lemmas::Grind::common_steps, crate::proofs::Found::hashes_of, crate::proofs::Found::found_all))]
fn finds_all(block: &Block<'_>, hashes: &[u64]) -> bool
    requires { hashes.now ≡ hashes_under (key0_of block.now) (key1_of block.now) (strings block.now) }
    ensures { IsTrue result → FindsAll block.now }
{
    match first_misplaced(block, 0, hashes) {
        Some(_) => false,
        None => true,
    }
}

// The bytes of the header and of all sections.
fn assemble<L: StringList>(
    alloc: Global,
    list: &L,
    id: DictionaryId,
    place: Place,
    keys: [u64; 2],
    sections: &PlacedSections,
) -> Result<Vec<u8>, AllocError> {
    let mut bytes = Vec::with_capacity(alloc, size_of_table(list, sections))?;
    put_header(&mut bytes, keys, byte_count(list), id, place)?;
    put_symbols(&mut bytes, &sections.symbols)?;
    put_ends(&mut bytes, list)?;
    for pilot in &sections.pilots {
        bytes.extend_from_slice(&pilot.to_le_bytes())?;
    }
    bytes.extend_from_slice(&sections.tags)?;
    put_text(&mut bytes, list)?;
    Ok(bytes)
}

// How many bytes all sections have.
fn size_of_table<L: StringList>(list: &L, sections: &PlacedSections) -> usize {
    let numbers = (HEADER as u64)
        .saturating_add((sections.symbols.len() as u64).saturating_mul(4))
        .saturating_add((list.len() as u64).saturating_mul(4))
        .saturating_add((sections.pilots.len() as u64).saturating_mul(2))
        .saturating_add(sections.tags.len() as u64);
    numbers.saturating_add(byte_count(list)) as usize
}

// Adds the header of a table at this place.
fn put_header(
    bytes: &mut Vec<u8>,
    keys: [u64; 2],
    text_length: u64,
    id: DictionaryId,
    place: Place,
) -> Result<(), AllocError> {
    bytes.extend_from_slice(&MAGIC.to_le_bytes())?;
    bytes.extend_from_slice(&VERSION.to_le_bytes())?;
    bytes.extend_from_slice(&kind_number(id.is_text).to_le_bytes())?;
    let set = if place.shards == 1 {
        SetId::of_shards(&[id])
    } else {
        place.set
    };
    for number in &[
        keys[0],
        keys[1],
        id.count,
        text_length,
        id.hash0,
        id.hash1,
        set.hash0,
        set.hash1,
    ] {
        bytes.extend_from_slice(&number.to_le_bytes())?;
    }
    // The number of shards, the number of this one, and the reserved bytes.
    bytes.extend_from_slice(&place.shards.to_le_bytes())?;
    bytes.extend_from_slice(&place.shard.to_le_bytes())?;
    bytes.extend_from_slice(&[0u8; 40])
}

fn put_symbols(bytes: &mut Vec<u8>, symbols: &[u32]) -> Result<(), AllocError> {
    for symbol in symbols {
        bytes.extend_from_slice(&symbol.to_le_bytes())?;
    }
    Ok(())
}

fn put_ends<L: StringList>(bytes: &mut Vec<u8>, list: &L) -> Result<(), AllocError> {
    let mut end = 0u32;
    for i in 0..list.len() {
        end = end.wrapping_add((list.string(i).len() % (1 << 32)) as u32);
        bytes.extend_from_slice(&end.to_le_bytes())?;
    }
    Ok(())
}

fn put_text<L: StringList>(bytes: &mut Vec<u8>, list: &L) -> Result<(), AllocError> {
    for i in 0..list.len() {
        bytes.extend_from_slice(list.string(i))?;
    }
    Ok(())
}
