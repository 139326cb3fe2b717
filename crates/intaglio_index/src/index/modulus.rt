//! The bucket of a hash, and words that combine a hash with a symbol.
ghost use Rattle.std.specs.Prelude.{◌≡◌, ◌↔◌, ◌+◌, ◌-◌, ◌*◌, ◌/◌, ◌%◌, ◌^◌, ◌<◌, IsTrue};
ghost use Rattle.intaglio_index.specs.Heads.{IsWord};
ghost use Rattle.intaglio_index.specs.Modulus.{IsModulus};

use intaglio_symbol::Symbol;

/// A number of buckets, and what makes a division by it unnecessary.
#[derive(Clone, Copy)]
pub(super) struct Modulus {
    count: u64,
    // The least power of two that is not below the count, minus one.
    mask: u64,
    // (2^64 - 1) / count
    inverse: u64,
}

impl Modulus {
    pub(super) fn new(count: usize) -> Modulus
        ensures made { IsModulus result }
        ensures count { result.count ≡ count }
    {
        let count = count as u64;
        let mask = match count.checked_next_power_of_two() {
            Some(power) => power - 1,
            None => u64::MAX,
        };
        let inverse = if count == 0 { 0 } else { u64::MAX / count };
        Modulus {
            count,
            mask,
            inverse,
        }
    }

    // Whether the count is a power of two.
    pub(super) fn is_power_of_two(self) -> bool
        requires { IsModulus self }
        ensures { IsTrue result ↔ (self.count ≡ self.mask + 1) }
    {
        self.mask < self.count
    }

    // The bucket of a hash, if the count is a power of two.
    pub(super) fn masked(self, hash: u64) -> usize
        requires made { IsModulus self }
        requires power { self.count ≡ self.mask + 1 }
        ensures { result ≡ hash % self.count }
    {
        (hash & self.mask) as usize
    }

    // The bucket of a hash.
    #[inline]
    pub(super) fn bucket(self, hash: u64) -> usize
        requires made { IsModulus self }
        requires some { 0 < self.count }
        ensures { result ≡ hash % self.count }
    {
        if self.is_power_of_two() {
            self.masked(hash)
        } else {
            remainder(hash, self.count, self.inverse) as usize
        }
    }
}

// A word is a hash with a symbol in place of the bits under the mask. If the count is a power of two, these
// bits are the number of the bucket, so a word and its bucket give the whole hash.
impl Modulus {
    pub(super) fn word(self, hash: u64, symbol: Symbol) -> u64
        requires made { IsModulus self }
        requires below { symbol < self.mask + 1 }
        ensures word { IsWord (self.mask + 1) (symbol, hash) result }
        ensures number { symbol < 2 ^ 32 }
    {
        self.high(hash) + u64::from(symbol.id())
    }

    // The symbol of a word.
    pub(super) fn symbol(self, word: u64) -> Symbol
        requires made { IsModulus self }
        requires number { word % (self.mask + 1) < 2 ^ 32 }
        ensures { result ≡ word % (self.mask + 1) }
    {
        Symbol::new((word & self.mask) as u32)
    }

    // The symbol of a word that agrees with a hash, by the bits under the mask in which they differ.
    pub(super) fn symbol_beside(self, word: u64, hash: u64, bucket: usize) -> Symbol
        requires made { IsModulus self }
        requires agree { word / (self.mask + 1) ≡ hash / (self.mask + 1) }
        requires bucket { bucket ≡ hash % (self.mask + 1) }
        requires number { word % (self.mask + 1) < 2 ^ 32 }
        ensures { result ≡ word % (self.mask + 1) }
    {
        Symbol::new((word ^ hash ^ bucket as u64) as u32)
    }

    // Whether a word and a hash have the same bits above the mask.
    pub(super) fn agrees(self, word: u64, hash: u64) -> bool
        requires { IsModulus self }
        ensures { IsTrue result ↔ (word / (self.mask + 1) ≡ hash / (self.mask + 1)) }
    {
        word ^ hash <= self.mask
    }

    // The hash with the bits under the mask cleared.
    pub(super) fn high(self, hash: u64) -> u64
        requires { IsModulus self }
        ensures { result ≡ hash / (self.mask + 1) * (self.mask + 1) }
    {
        hash - (hash & self.mask)
    }
}

// The quotient by the reciprocal is too small by at most one.
fn remainder(hash: u64, count: u64, inverse: u64) -> u64
    requires some { 0 < count }
    requires inverse { inverse ≡ (2 ^ 64 - 1) / count }
    ensures { result ≡ hash % count }
{
    let quotient = ((u128::from(hash) * u128::from(inverse)) >> 64) as u64;
    let rest = hash - quotient * count;
    if rest < count { rest } else { rest - count }
}
