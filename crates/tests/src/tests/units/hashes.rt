//! Hashes of `KeyedHasher`, compared with those of Rust's own `DefaultHasher` and, with keys, of
//! `SipHasher13`, and of `FixedHasher`, compared with those of std's `FoldHasher`.
use crate::tests::assertions::{holds, same};
use intaglio_hash::{FixedHasher, FixedState, KeyedHasher, KeyedState};
use std::alloc::{AllocError, Global};
use std::collections::HashMap;
use std::hash::{
    BuildHasher, BuildHasherDefault, DefaultHasher, FoldHasher, Hash, Hasher, RandomState,
};
use std::process::Abort;

// The bytes 0 to 7 and 8 to 15, as in the vectors of SipHash's authors.
const KEY0: u64 = 0x0706_0504_0302_0100;

const KEY1: u64 = 0x0f0e_0d0c_0b0a_0908;

// With the keys 0 and 0: the hash of the bytes 0, 1, 2, .., as many as the position says.
const PLAIN: &str = "
    d1fba762150c532c 68a914128e01e473 010bac45c41e3669 4d4c9a4a8ef6e0ad 7cc43f98813e4dbd 5abe2169dff36275
    e3c25f87624f1cdb 2f098ab0c751325a ead411e67ebe2eea 75927f9d95124362 af9f77a65ab51a1d fe64ce8b6617fcff
    a6baf4fb0f9fe1c2 a0cf3211850f8e0d 7f86049379fbfe67 f30eb725bb91c9ea 8972188433a5c5b7 4883c49a2c009c1d
    adc2c0b63044067d 091f4a3329f87d19 639e355ae68c0100 b17bef2cb5213239 f8aeb1066236ccfe 37332b1389daa4ff
    31185a47af932f3a ebf352e82ae23e2f ed36ff242fe478b2 2454d97d299299df 8cd57fe8130d0ac7 be98eb2faf0a0e85
    d427c34ee09470c6 169739443111d49b 31ef8061c910629b 7fb71d24dfa4c9f6 92771f49e836d389 3c393cf6f0853bc3
    ac77921fcc642bd3 422a9751192ff266 c680ae8a8c584ddf 6c76b6d34bb6d26b 95bc321ab41d8206 908a3a97a6d37669
    fcaf3c64874dd0b4 f689479b32b84a44 d857641079efd1fd 8b581578722633f7 83cb09d35ea7bcd4 8485f7f5ae725a0d
    fe1f2445ba50237f 23cece041d7866b0 416687480b336c09 f15960da7e7f3892 ded6177b9826835a f80dae51668be6be
    17ecc6ee6647df18 5220d642b4a52110 a4f0cf4ba4adc016 e5125bb26d1f2976 851b0e75f580d256 12605250a37e39ac
    d95a713568daebf1 cdcf4a42ec0dd605 a5c708712b617164 385d3e39e5f37359
";

// The same with the keys above.
const KEYED: &str = "
    abac0158050fc4dc c9f49bf37d57ca93 82cb9b024dc7d44d 8bf80ab8e7ddf7fb cf75576088d38328 def9d52f49533b67
    c50d2b50c59f22a7 d3927d989bb11140 369095118d299a8e 25a48eb36c063de4 79de85ee92ff097f 70c118c1f94dc352
    78a384b157b4d9a2 306f760c1229ffa7 605aa111c0f95d34 d320d86d2a519956 cc4fdd1a7d908b66 9cf2689063dbd80c
    8ffc389cb473e63e f21f9de58d297d1c c0dc2f46a6cce040 b992abfe2b45f844 7ffe7b9ba320872e 525a0e7fdae6c123
    f464aeb267349c8c 45cd5928705b0979 3a3e35e3ca9913a5 a91dc74e4ade3b35 fb0bed02ef6cd00d 88d93cb44ab1e1f4
    540f11d643c5e663 2370dd1f8c21d1bc 81157b6c16a7b60d 4d54b9e57a8ff9bf 759f12781f2a753e cea1a3bebf186b91
    2cf508d3ada26206 b6101c2da3c33057 b3f47496ae3a36a1 626b57547b108392 c1d2363299e41531 667cc1923f1ad944
    65704ffec8138825 24f280d1c28949a6 c2ca1cedfaf8876b c2164bfc9f042196 a16e9c9368b1d623 49fb169c8b5114fd
    9f3143f8df074c46 c6fdaf2412cc86b3 7eaf49d10a52098f 1cf313559d292f9a c44a30dda2f41f12 36fae98943a71ed0
    318fb34c73f0bce6 a27abf3670a7e980 b4bcc0db243c6d75 23f8d852fdb71513 8f035f4da67d8a08 d89cd0e5b7e8f148
    f6f4e6bcf7a644ee aec59ad80f1837f2 c3b2f6154b6694e0 9d199062b7bbb3a8
";

// How many of the bytes 0, 1, .., 255, 0, 1, .. there are, and their hash with the keys
// above. The length wraps at 256.
static LONG: [(usize, u64); 4] = [
    (255, 0xf762_14e3_153c_4a15),
    (256, 0x75b3_e64e_167d_e370),
    (257, 0x5d8f_fca6_213c_73b8),
    (300, 0x4016_a23b_da5a_2224),
];

fn upward() -> [u8; 300] {
    let mut bytes = [0; 300];
    for i in 0..300 {
        bytes[i] = (i % 256) as u8;
    }
    bytes
}

fn hash_of(key0: u64, key1: u64, bytes: &[u8]) -> u64 {
    let mut hasher = KeyedHasher::with_keys(key0, key1);
    hasher.write(bytes);
    hasher.finish()
}

// Asserts that the bytes have this hash with the keys above.
fn is_keyed(rt: &impl Abort, bytes: &[u8], wanted: u64) {
    let len = bytes.len();
    same(rt, (len, hash_of(KEY0, KEY1, bytes)), (len, wanted));
}

// One of the hashes above.
fn listed(rt: &impl Abort, list: &str, place: usize) -> u64 {
    let word = list.split_whitespace().nth(place).expect(rt, "no hash");
    u64::from_str_radix(word, 16).expect(rt, word)
}

#[test]
fn bytes_have_the_hashes_of_rust(rt: HostRuntime) {
    let bytes = upward();
    for len in 0..64 {
        let plain = hash_of(0, 0, &bytes[..len]);
        same(&rt, (len, plain), (len, listed(&rt, PLAIN, len)));
        is_keyed(&rt, &bytes[..len], listed(&rt, KEYED, len));
    }
    for (len, hash) in LONG {
        is_keyed(&rt, &bytes[..len], hash);
    }
}

// The hash of two slices and a byte, written one after the other.
fn written(first: &[u8], second: &[u8], third: u8) -> u64 {
    let mut hasher = KeyedHasher::with_keys(KEY0, KEY1);
    hasher.write(first);
    hasher.write(second);
    hasher.write_u8(third);
    hasher.finish()
}

#[test]
fn writes_may_be_split_anywhere(rt: HostRuntime) {
    let bytes = upward();
    for first in 0..20 {
        for second in first..63 {
            let hash = written(&bytes[..first], &bytes[first..second], second as u8);
            let wanted = listed(&rt, KEYED, second + 1);
            same(&rt, (first, second, hash), (first, second, wanted));
        }
    }
}

fn value_hash<T: Hash + Drop>(key0: u64, key1: u64, value: T) -> u64 {
    KeyedState::with_keys(key0, key1).hash_one(value)
}

#[test]
fn values_have_the_hashes_of_rust(rt: HostRuntime) {
    let long = "a text of more than eight bytes";
    let three = (263u32, true, "x");
    let hashes = [
        (value_hash(0, 0, "word"), 0xcbb9_9deb_b8ab_baae),
        (value_hash(KEY0, KEY1, ""), 0x336d_3897_9e4a_286b),
        (value_hash(KEY0, KEY1, "word"), 0x0d3b_fe62_ac14_d036),
        (value_hash(KEY0, KEY1, long), 0xfa2b_6545_c678_6051),
        (value_hash(KEY0, KEY1, 0u64), 0x5cb9_6f6b_a2a4_fcfc),
        (value_hash(KEY0, KEY1, three), 0xcac3_2a21_e861_43f1),
    ];
    for (hash, wanted) in hashes {
        same(&rt, hash, wanted);
    }
}

fn std_hash(bytes: &[u8]) -> u64 {
    let mut hasher = DefaultHasher::new();
    hasher.write(bytes);
    hasher.finish()
}

#[test]
fn a_new_hasher_is_that_of_std(rt: HostRuntime) {
    let mut hasher = KeyedHasher::with_keys(0, 0);
    same(&rt, hasher.finish(), DefaultHasher::new().finish());
    hasher.write(b"wo");
    hasher.write(b"rd");
    same(&rt, hasher.finish(), std_hash(b"word"));
}

fn hash_by<S: BuildHasher>(builder: &S, text: &str) -> u64 {
    builder.hash_one(text)
}

fn keyed(random: &RandomState) -> KeyedState {
    KeyedState::with_keys(random.hash_one(0u64), random.hash_one(1u64))
}

#[test]
fn keys_are_drawn_from_a_random_state(rt: HostRuntime) {
    let random = RandomState::new(&rt).expect(&rt, "a seed");
    let hash = hash_by(&KeyedState::from_random(&random), "word");
    same(&rt, hash, hash_by(&keyed(&random), "word"));
    holds(&rt, hash != hash_by(&random, "word"));
}

// Whether a map of `word` alone contains it, and another text.
fn contains(alloc: Global, state: KeyedState) -> Result<(bool, bool), AllocError> {
    let mut counts = HashMap::with_hasher(alloc, state);
    counts.insert("word", 1)?;
    let is_other = counts.get(&"words").is_some();
    Ok((counts.get(&"word") == Some(&1), is_other))
}

#[test]
fn a_map_takes_it(rt: HostRuntime) {
    let random = RandomState::new(&rt).expect(&rt, "a seed");
    let found = contains(rt.alloc(), KeyedState::from_random(&random));
    same(&rt, found, Ok((true, false)));
}

#[test]
fn keys_are_not_printed(rt: HostRuntime) {
    let state = KeyedState::with_keys(263, 264);
    let shown = format!(in rt.alloc(); "{state:?}").expect(&rt, "memory");
    same(&rt, shown.as_str(), "KeyedState { .. }");
    let hasher = state.build_hasher();
    let shown = format!(in rt.alloc(); "{hasher:?}").expect(&rt, "memory");
    same(&rt, shown.as_str(), "KeyedHasher { .. }");
}

fn text_hash<H: Hasher + Drop>(mut hasher: H, bytes: &[u8]) -> u64 {
    hasher.write(bytes);
    hasher.write_u8(255);
    hasher.finish()
}

// Each length of each class, and some more.
#[test]
fn a_fixed_hasher_is_that_of_std(rt: HostRuntime) {
    let bytes = upward();
    for count in 0..300 {
        let hash = text_hash(FixedHasher::default(), &bytes[..count]);
        let wanted = text_hash(FoldHasher::default(), &bytes[..count]);
        same(&rt, (count, hash), (count, wanted));
    }
}

#[test]
fn a_fixed_state_is_the_builder_of_std(rt: HostRuntime) {
    let std: BuildHasherDefault<FoldHasher> = BuildHasherDefault::new();
    let three = (263u32, true, "x");
    same(&rt, FixedState.hash_one(three), std.hash_one(three));
    same(&rt, hash_by(&FixedState, "word"), hash_by(&std, "word"));
}
