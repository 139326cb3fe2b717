//! Placing and removing symbols.
ghost use Rattle.std.specs.Prelude.{◌≡◌, ◌-◌, ◌%◌, ◌<◌, ◌≤◌, ◌++◌, ◌∷◌, [], length, replicate, take, None};
ghost use Rattle.intaglio_content.specs.Work.{placed};

use super::Index;
use super::filter::marked;
use super::head::Head;
use super::link::next;
use intaglio_content::Work;
use intaglio_symbol::Symbol;

impl Index {
    /// Inserts the next symbol into the hash's bucket, after the smaller hashes and
    /// before the others. Records one placement.
    pub fn place(&mut self, hash: u64, symbol: Symbol, work: &mut Work)
        requires next { symbol ≡ length self.old.hashes }
        requires room { symbol < self.old.room }
        ensures hashes { self.new.hashes ≡ self.old.hashes ++ hash ∷ [] }
        ensures count { self.new.count ≡ self.old.count }
        ensures room { self.new.room ≡ self.old.room }
        ensures fits { self.new.room ≤ self.new.count }
        ensures events { work.new.events ≡ work.old.events ++ placed ∷ [] }
    {
        work.placed();
        self.insert(hash, symbol);
    }

    #[inline]
    fn insert(&mut self, hash: u64, symbol: Symbol)
        requires next { symbol ≡ length self.old.hashes }
        requires room { symbol < self.old.room }
        ensures hashes { self.new.hashes ≡ self.old.hashes ++ hash ∷ [] }
        ensures count { self.new.count ≡ self.old.count }
        ensures room { self.new.room ≡ self.old.room }
        ensures fits { self.new.room ≤ self.new.count }
    {
        let bucket = self.modulus.bucket(hash);
        let filter = self.filters[bucket];
        if filter != 0 {
            return self.insert_among(bucket, hash, symbol);
        }
        let word = self.modulus.word(hash, symbol);
        self.filters[bucket] = marked(filter, hash);
        self.heads[bucket] = Head {
            first: word,
            second: word,
        };
        self.hashes.push_reserved(hash);
        self.links.push_reserved(symbol);
    }

    // As `insert`, for a bucket that isn't empty.
    #[inline(never)]
    fn insert_among(&mut self, bucket: usize, hash: u64, symbol: Symbol)
        requires bucket { bucket ≡ hash % self.old.count }
        requires next { symbol ≡ length self.old.hashes }
        requires room { symbol < self.old.room }
        ensures hashes { self.new.hashes ≡ self.old.hashes ++ hash ∷ [] }
        ensures count { self.new.count ≡ self.old.count }
        ensures room { self.new.room ≡ self.old.room }
        ensures fits { self.new.room ≤ self.new.count }
    {
        let first_symbol = self.first_symbol(bucket);
        let place = self.predecessor(bucket, hash);
        let word = self.modulus.word(hash, symbol);
        let head = self.heads[bucket];
        self.filters[bucket] = marked(self.filters[bucket], hash);
        self.hashes.push_reserved(hash);
        match place {
            None => {
                self.heads[bucket] = head.with_first(first_symbol.is_none(), word);
                self.links.push_reserved(first_symbol.unwrap_or(symbol));
            }
            Some(last) => {
                self.heads[bucket] = head.with_after(first_symbol, last, word);
                let link = next(&self.links, last).unwrap_or(symbol);
                self.links.push_reserved(link);
                self.links[last.id() as usize] = symbol;
            }
        }
    }

    /// Removes all symbols. The buckets and the capacity stay.
    pub fn clear(&mut self)
        ensures hashes { self.new.hashes ≡ [] }
        ensures count { self.new.count ≡ self.old.count }
        ensures room { self.new.room ≡ self.old.room }
    {
        self.filters.fill(0);
        self.hashes.clear();
        self.links.clear();
    }

    /// Removes the symbols from `count` on. The others stay where they are, and
    /// the buckets and the capacity stay.
    ///
    /// Costs a walk along a bucket for each removed symbol.
    pub fn cut(&mut self, count: usize)
        requires { count ≤ length self.old.hashes }
        ensures hashes { self.new.hashes ≡ take count self.old.hashes }
        ensures count { self.new.count ≡ self.old.count }
        ensures room { self.new.room ≡ self.old.room }
    {
        while self.placed() > count {
            self.remove_last();
        }
    }

    // Removes the last symbol from its bucket.
    fn remove_last(&mut self)
        requires { 0 < length self.old.hashes }
        ensures hashes { self.new.hashes ≡ take (length self.old.hashes - 1) self.old.hashes }
        ensures count { self.new.count ≡ self.old.count }
        ensures room { self.new.room ≡ self.old.room }
    {
        let last = self.placed() - 1;
        let hash = self.hashes[last];
        let behind = next(&self.links, Symbol::new(last as u32));
        let bucket = self.modulus.bucket(hash);
        let before = self.predecessor(bucket, hash);
        self.hashes.truncate(last);
        self.links.truncate(last);
        match before {
            None => match behind {
                None => self.filters[bucket] = 0,
                Some(first) => {
                    self.heads[bucket] = Head::read(self.modulus, &self.hashes, &self.links, first);
                }
            },
            Some(before) => {
                let first = self.modulus.symbol(self.heads[bucket].first);
                self.links[before.id() as usize] = behind.unwrap_or(before);
                self.heads[bucket] = Head::read(self.modulus, &self.hashes, &self.links, first);
            }
        }
    }
}
