//! Look-ups along a bucket.
ghost use Rattle.std.specs.Prelude.{◌≡◌, ◌%◌, ◌<◌, ◌++◌, ◌∷◌, [], List, ℕ, length, slice_index_or};
ghost use Rattle.std.specs.Prelude.{None, Some, MatchOption, IfSome};
ghost use Rattle.std.specs.Option.{option_map};
ghost use Rattle.intaglio_content.specs.Work.{Event, step};
ghost use Rattle.intaglio_index.specs.Found.{IsFound, IsPassed, IsBehind, IsReached, IsAt};
ghost use Rattle.intaglio_index.specs.Placed.{chain, bucket_of, head_of, first_symbol_of, first_symbol_with};
ghost use Rattle.intaglio_index.specs.Placed.{IsBucket, IsAbsent, BeginsAtOrAbove, IsPredecessor};
ghost use Rattle.intaglio_index.specs.Links.{entry_of};
ghost use Rattle.intaglio_symbol.specs.declared.symbol.Symbol.{Symbol};

use super::Index;
use super::filter::is_marked;
use super::link::next;
use intaglio_content::Work;
use intaglio_symbol::Symbol;

impl Index {
    /// The first symbol of the hash's bucket, with its own hash. One step.
    ///
    /// If there are no buckets, this is `None`.
    pub fn first(&self, hash: u64, work: &mut Work) -> Option<(Symbol, u64)>
        ensures bucket { IsBucket self.now hash }
        ensures first { result ≡ head_of (bucket_of self.now hash) }
        ensures none { self.now.count ≡ 0 → result ≡ None }
        ensures events { work.new.events ≡ work.old.events ++ step ∷ [] }
    {
        work.step(); // in an empty bucket too
        if self.heads.is_empty() {
            return None;
        }
        self.first_entry(self.modulus.bucket(hash))
    }

    /// The first symbol with this hash, if one was placed.
    ///
    /// Takes one step for each symbol of the bucket up to it. If there is none, it takes at least one step,
    /// and at most one more than the bucket has symbols. A bucket's head holds its first two symbols and the
    /// high bits of their hashes, so most look-ups read no more of the index than a filter and a head.
    #[inline(always)]
    pub fn find(&self, hash: u64, work: &mut Work) -> Option<Symbol>
        ensures found { IfSome result
            (IsFound hash (bucket_of self.now hash) work.old.events work.new.events) }
        ensures none { result ≡ None → IsAbsent self.now hash }
        ensures passed { result ≡ None → IsPassed (bucket_of self.now hash) work.old.events work.new.events }
    {
        if !self.modulus.is_power_of_two() {
            return self.find_by_remainder(hash, work);
        }
        work.step(); // also where the filter says no
        let bucket = self.modulus.masked(hash);
        if !is_marked(self.filters[bucket], hash) {
            return None;
        }
        let head = self.heads[bucket];
        let word = head.matching_word(self.modulus, hash);
        if !self.modulus.agrees(word, hash) {
            if hash < head.second || head.first == head.second {
                return None;
            }
            return self.find_behind(self.modulus.symbol(head.second), hash, work);
        }
        let symbol = self.modulus.symbol_beside(word, hash, bucket);
        if word == head.first {
            return Some(symbol);
        }
        work.step(); // past the first symbol alone
        Some(symbol)
    }

    // As `find`, where the number of buckets is no power of two: a word that agrees with the hash is
    // confirmed by the stored hash. A call of its own, so that `find` is short where it is inlined.
    #[inline(never)]
    fn find_by_remainder(&self, hash: u64, work: &mut Work) -> Option<Symbol>
        ensures found { IfSome result
            (IsFound hash (bucket_of self.now hash) work.old.events work.new.events) }
        ensures none { result ≡ None → IsAbsent self.now hash }
        ensures passed { result ≡ None → IsPassed (bucket_of self.now hash) work.old.events work.new.events }
    {
        work.step(); // in an index without buckets too
        if self.heads.is_empty() {
            return None;
        }
        let bucket = self.modulus.bucket(hash);
        if !is_marked(self.filters[bucket], hash) {
            return None;
        }
        let head = self.heads[bucket];
        let word = head.matching_word(self.modulus, hash);
        if !self.modulus.agrees(word, hash) {
            if hash < head.second || head.first == head.second {
                return None;
            }
            return self.find_behind(self.modulus.symbol(head.second), hash, work);
        }
        let symbol = self.modulus.symbol(word);
        if self.hashes[symbol.id() as usize] != hash {
            return self.find_along(self.first_entry(bucket), hash, work);
        }
        if word == head.first {
            return Some(symbol);
        }
        work.step(); // past the first symbol
        Some(symbol)
    }

    // The first symbol with the hash, where the first two symbols of its bucket have smaller ones. The search
    // has made its step into the bucket.
    #[inline(never)]
    fn find_behind(&self, second: Symbol, hash: u64, work: &mut Work) -> Option<Symbol>
        requires behind { IsBehind hash (bucket_of self.now hash) second }
        requires begun { (start : List Event) × (work.old.events ≡ start ++ step ∷ []) }
        ensures found { IfSome result (λ symbol. (start : List Event) →
            work.old.events ≡ start ++ step ∷ [] →
            IsFound hash (bucket_of self.now hash) start work.new.events symbol) }
        ensures none { result ≡ None → IsAbsent self.now hash }
        ensures passed { result ≡ None → (start : List Event) →
            work.old.events ≡ start ++ step ∷ [] →
            IsPassed (bucket_of self.now hash) start work.new.events }
    {
        work.step(); // past the first symbol
        work.step(); // and the second
        self.find_along(self.next_entry(second), hash, work)
    }

    // The first symbol with the hash, from a candidate on.
    #[inline(never)]
    fn find_along(
        &self,
        candidate: Option<(Symbol, u64)>,
        hash: u64,
        work: &mut Work,
    ) -> Option<Symbol>
        requires { (start : List Event) ×
            IsReached hash (bucket_of self.now hash) start work.old.events candidate }
        ensures found { IfSome result (λ symbol. (start : List Event) →
            IsReached hash (bucket_of self.now hash) start work.old.events candidate →
            IsFound hash (bucket_of self.now hash) start work.new.events symbol) }
        ensures none { result ≡ None → IsAbsent self.now hash }
        ensures passed { result ≡ None → (start : List Event) →
            IsReached hash (bucket_of self.now hash) start work.old.events candidate →
            IsPassed (bucket_of self.now hash) start work.new.events }
    {
        let mut candidate = candidate;
        while let Some(found) = candidate {
            if hash < found.1 {
                return None;
            }
            if hash == found.1 {
                return Some(found.0);
            }
            work.step(); // past this symbol
            candidate = self.next_entry(found.0);
        }
        None
    }

    /// A symbol with this hash, or `None`. Records nothing. It reads what [`find`](Index::find) will read, so
    /// that this is in the cache then.
    #[inline(always)]
    pub fn peek(&self, hash: u64) -> Option<Symbol>
        ensures placed { IfSome result (λ symbol. symbol < length self.now.hashes) }
        ensures hash { IfSome result (λ symbol. slice_index_or self.now.hashes symbol 0 ≡ hash) }
    {
        self.find(hash, &mut Work::new())
    }

    /// The next symbol after a placed one in its bucket, if it has the same hash. One step.
    pub fn find_next(&self, symbol: Symbol, work: &mut Work) -> Option<Symbol>
        requires { symbol < length self.now.hashes }
        ensures next { (b hash : ℕ) (before behind : List (ℕ × ℕ)) →
            chain self.now b ≡ before ++ (symbol, hash) ∷ behind → result ≡ first_symbol_with hash behind }
        ensures events { work.new.events ≡ work.old.events ++ step ∷ [] }
    {
        work.step(); // also at the bucket's end
        let hash = self.hashes[symbol.id() as usize];
        match self.next_entry(symbol) {
            None => None,
            Some(found) => { if found.1 == hash { Some(found.0) } else { None } }
        }
    }

    /// The next symbol after a placed one in its bucket, with its hash; `None` after the last one. One step.
    pub fn after(&self, symbol: Symbol, work: &mut Work) -> Option<(Symbol, u64)>
        requires { symbol < length self.now.hashes }
        ensures next { (b hash : ℕ) (before behind : List (ℕ × ℕ)) →
            chain self.now b ≡ before ++ (symbol, hash) ∷ behind → result ≡ head_of behind }
        ensures events { work.new.events ≡ work.old.events ++ step ∷ [] }
    {
        work.step(); // at the bucket's end too
        self.next_entry(symbol)
    }

    // The first symbol of a bucket.
    #[inline(always)]
    pub(super) fn first_symbol(&self, bucket: usize) -> Option<Symbol>
        requires { bucket < self.now.count }
        ensures { result ≡ first_symbol_of (chain self.now bucket) }
    {
        if self.filters[bucket] == 0 {
            return None;
        }
        Some(self.modulus.symbol(self.heads[bucket].first))
    }

    // The first symbol of a bucket, with its hash.
    fn first_entry(&self, bucket: usize) -> Option<(Symbol, u64)>
        requires { bucket < self.now.count }
        ensures { result ≡ head_of (chain self.now bucket) }
    {
        entry(&self.hashes, self.first_symbol(bucket))
    }

    fn next_entry(&self, symbol: Symbol) -> Option<(Symbol, u64)>
        requires { symbol < length self.now.hashes }
        ensures next { (b hash : ℕ) (before behind : List (ℕ × ℕ)) →
            chain self.now b ≡ before ++ (symbol, hash) ∷ behind → result ≡ head_of behind }
    {
        entry(&self.hashes, next(&self.links, symbol))
    }

    // The last symbol of the hash's bucket with a smaller hash.
    #[inline(always)]
    pub(super) fn predecessor(&self, bucket: usize, hash: u64) -> Option<Symbol>
        requires bucket { bucket ≡ hash % self.now.count }
        requires within { bucket < self.now.count }
        ensures { MatchOption result (BeginsAtOrAbove hash (bucket_of self.now hash))
            (λ last. IsPredecessor hash (bucket_of self.now hash) last) }
    {
        if !self.modulus.is_power_of_two() {
            return self.last_below(None, self.first_entry(bucket), hash);
        }
        let head = self.heads[bucket];
        let high = self.modulus.high(hash);
        if self.filters[bucket] == 0 || high <= head.first {
            return None;
        }
        if high <= head.second {
            return Some(self.modulus.symbol(head.first));
        }
        let second = self.modulus.symbol(head.second);
        self.last_below(Some(second), self.next_entry(second), hash)
    }

    // As `predecessor`, from a candidate on, where `last` is the symbol before it.
    #[inline(never)]
    fn last_below(
        &self,
        last: Option<Symbol>,
        candidate: Option<(Symbol, u64)>,
        hash: u64,
    ) -> Option<Symbol>
        requires { IsAt hash (bucket_of self.now hash) last candidate }
        ensures { MatchOption result (BeginsAtOrAbove hash (bucket_of self.now hash))
            (λ last. IsPredecessor hash (bucket_of self.now hash) last) }
    {
        let mut last = last;
        let mut candidate = candidate;
        while let Some(found) = candidate {
            if hash <= found.1 {
                break;
            }
            last = Some(found.0);
            candidate = self.next_entry(found.0);
        }
        last
    }
}

// The symbol that a link leads to, with its hash.
fn entry(hashes: &[u64], link: Option<Symbol>) -> Option<(Symbol, u64)>
    requires { (s : Symbol) → link ≡ Some s → s < length hashes.now }
    ensures { result ≡ option_map (entry_of hashes.now) link }
{
    match link {
        None => None,
        Some(symbol) => Some((symbol, hashes[symbol.id() as usize])),
    }
}
