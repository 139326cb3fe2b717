//! What a table asks of an index over its list of contents.
ghost use Rattle.std.specs.Prelude.{◌≡◌, ℕ, ◌+◌, ◌^◌, ◌<◌, ◌≤◌, ◌⊎◌, ◌++◌, ◌∷◌, [], false, length, min, max, take};
ghost use Rattle.std.specs.Prelude.{IfOk, IsOk, OnErr, OnOk};
ghost use Rattle.intaglio_content.specs.Key.{Key};
ghost use Rattle.intaglio_content.specs.Work.{placed};
ghost use Rattle.intaglio_content.specs.Store.{byte_room, Doubles, DoublesByteRoom};
ghost use Rattle.intaglio_interner.specs.State.{first, Distinct};
ghost use Rattle.intaglio_interner.specs.Cost.{Costs};
ghost use Rattle.intaglio_core.specs.IndexOf.{IndexState, empty_index, AreHashed, IsHashed, LookupCost};
ghost use Rattle.intaglio_core.specs.IndexOf.{KeepsEntries, FindsRoom, FindsNoRoom, PlacesAtMost};
ghost use Rattle.intaglio_core.specs.IndexOf.{HasLessRoom, IsOverSome, KeepsState};

mod buckets;

use intaglio_content::{AddedTo, ByteStore, Content, SoughtIn, Store, Work};
use intaglio_symbol::Symbol;
use std::alloc::{AllocError, Global};

/// A store that says which index a table has over it.
pub trait Indexed: Store {
    /// The index.
    type Index: IndexOf<Self> + Drop;
}

/// An index over a list of contents, which finds them by their hashes.
///
/// Each call takes the list too, and what changes one of them changes both. So an index may depend on more of
/// its list than the contents, such as on where they are in a buffer.
///
/// A contract sees an index as the hashes by which the contents were added, its room, and its places. The
/// room is how many contents it can hold. The places are for how many it was made: a search takes at most a
/// step for each content whose hash is equal modulo the places, and one.
pub trait IndexOf<L: Store> {
    ghost state: { Self → L → IndexState };

    // that it is an index over this list
    ghost is_over: { Self → L → Type 0 };

    /// An empty list with an index over it, both with room for exactly this many contents. With room for none
    /// nothing is allocated.
    ///
    /// # Errors
    ///
    /// [`AllocError`] if an allocation fails.
    fn with_capacity(alloc: Global, capacity: usize) -> Result<(L, Self), AllocError>
        requires { capacity ≤ 2 ^ 32 }
        ensures over { IfOk result (λ made. is_over made.1 made.0) }
        ensures contents { IfOk result (λ made. L.contents made.0 ≡ []) }
        ensures most { IfOk result (λ made. L.most made.0 ≡ capacity) }
        ensures spare_bytes { IfOk result (λ made. L.spare_bytes made.0 ≡ 0) }
        ensures state { IfOk result (λ made. state made.1 made.0 ≡ empty_index capacity) }
        ensures none_needed { capacity ≡ 0 → IsOk result };

    /// How many contents the index can hold in total.
    fn room(&self, list: &L) -> usize
        requires { is_over self.now list.now }
        ensures room { result ≡ (state self.now list.now).room }
        ensures within { length (L.contents list.now) ≤ result }
        ensures fits { result ≤ (state self.now list.now).places };

    /// The symbol of the content with the sought key, if there is one, by the hash of the key. Compares
    /// only with contents of this hash.
    fn search<Q: SoughtIn<L>>(
        &self,
        list: &L,
        hash: u64,
        sought: &Q,
        work: &mut Work,
    ) -> Option<Symbol>
        requires over { is_over self.now list.now }
        requires distinct { Distinct L.Content.key (L.contents list.now) }
        requires hashed { IsHashed L.Content.key (L.contents list.now) (state self.now list.now).hashes
            (Q.key sought.now) hash }
        ensures found { result ≡ first L.Content.key (L.contents list.now) (Q.key sought.now) }
        ensures cost { let index = state self.now list.now in (h : Key → ℕ) →
            AreHashed L.Content.key h (L.contents list.now) index.hashes (Q.key sought.now) hash →
            let cost = LookupCost L.Content.key h (L.contents list.now) index.places in
            Costs work.old work.new (cost (Q.key sought.now)) };

    /// Reads what a search by this hash will read: of the index, and a byte of the content that it compares
    /// first. The byte itself means nothing.
    fn touch(&self, list: &L, hash: u64) -> u8
        requires { is_over self.now list.now };

    /// Allocates what adding the value needs, but for the place of one more content.
    ///
    /// # Errors
    ///
    /// [`AllocError`] if the allocation fails, which never happens if the value is moved. Then nothing has
    /// changed.
    fn prepare<H, Q: AddedTo<L, H>>(
        &mut self,
        list: &mut L,
        value: &Q,
    ) -> Result<L::Prepared, AllocError>
        requires { is_over self.old list.old }
        ensures over { is_over self.new list.new }
        ensures state { state self.new list.new ≡ state self.old list.old }
        ensures contents { L.contents list.new ≡ L.contents list.old }
        ensures most { L.most list.new ≡ L.most list.old }
        ensures spare_bytes { L.spare_bytes list.old ≤ L.spare_bytes list.new }
        ensures bytes { OnOk result (Q.needs value.now ≤ L.spare_bytes list.new) }
        ensures grows { let grows = DoublesByteRoom L.takes (Q.needs value.now) (L.contents list.old) in
            grows (L.spare_bytes list.old) (L.contents list.new) (L.spare_bytes list.new) }
        ensures err { OnErr result (L.spare_bytes list.new ≡ L.spare_bytes list.old) }
        ensures prepared { IfOk result (Q.is_prepared value.now) }
        ensures moved { Q.copies ≡ false → IsOk result }
        ensures none_needed { Q.in_store → Q.needs value.now ≤ L.spare_bytes list.old → IsOk result };

    /// Makes room for one more content, in the list and in the index. An index that is full grows
    /// for twice as many contents, for 4 at least and the limit at most. It grows last, so that a
    /// failed growth records no event.
    ///
    /// # Errors
    ///
    /// [`AllocError`] if an allocation fails. Then the index is made for as many as before.
    fn make_room(&mut self, list: &mut L, limit: usize, work: &mut Work) -> Result<(), AllocError>
        requires over { is_over self.old list.old }
        requires below { length (L.contents list.old) < limit }
        requires numbered { limit ≤ 2 ^ 32 }
        ensures over { is_over self.new list.new }
        ensures contents { L.contents list.new ≡ L.contents list.old }
        ensures capacity { L.most list.old ≤ L.most list.new }
        ensures grows { Doubles (length (L.contents list.old) + 1) (L.most list.old) (L.most list.new) }
        ensures spare_bytes { L.spare_bytes list.new ≡ L.spare_bytes list.old }
        ensures index { KeepsEntries (state self.old list.old) (state self.new list.new) }
        ensures free { OnOk result (length (L.contents list.old) < L.most list.new) }
        ensures place { let finds = FindsRoom (length (L.contents list.old)) limit
            (state self.old list.old) in
            OnOk result (finds (state self.new list.new) work.old work.new) }
        ensures refused { let n = length (L.contents list.old) in
            let finds = FindsNoRoom n (L.most list.old) (state self.old list.old) in
            OnErr result (finds (state self.new list.new) work.old work.new) };

    /// Adds the value to the list, and its hash with the symbol that it gets to the index. Nothing is
    /// allocated. Records one placement.
    fn push<H, Q: AddedTo<L, H>>(
        &mut self,
        list: &mut L,
        hash: u64,
        symbol: Symbol,
        value: Q,
        prepared: L::Prepared,
        work: &mut Work,
    )
        requires over { is_over self.old list.old }
        requires next { symbol ≡ length (L.contents list.old) }
        requires free { length (L.contents list.old) < L.most list.old }
        requires room { length (L.contents list.old) < (state self.old list.old).room }
        requires bytes { Q.needs value ≤ L.spare_bytes list.old }
        requires prepared { Q.is_prepared value prepared }
        ensures over { is_over self.new list.new }
        ensures hashes { (state self.new list.new).hashes ≡ (state self.old list.old).hashes ++ hash ∷ [] }
        ensures room { (state self.new list.new).room ≡ (state self.old list.old).room }
        ensures places { (state self.new list.new).places ≡ (state self.old list.old).places }
        ensures added { Q.adds value (L.contents list.old) (L.contents list.new) }
        ensures most { L.most list.new ≡ L.most list.old }
        ensures spare_bytes { L.spare_bytes list.old ≤ L.spare_bytes list.new + Q.needs value }
        ensures byte_room { byte_room L.takes (L.contents list.new) (L.spare_bytes list.new)
            ≡ byte_room L.takes (L.contents list.old) (L.spare_bytes list.old) }
        ensures events { work.new.events ≡ work.old.events ++ placed ∷ [] };

    /// Drops all contents but the first `n`. The room stays.
    fn truncate(&mut self, list: &mut L, n: usize)
    where
        L::Content: Drop,
        requires over { is_over self.old list.old }
        requires within { n ≤ length (L.contents list.old) }
        ensures over { is_over self.new list.new }
        ensures hashes { (state self.new list.new).hashes ≡ take n (state self.old list.old).hashes }
        ensures room { (state self.new list.new).room ≡ (state self.old list.old).room }
        ensures places { (state self.new list.new).places ≡ (state self.old list.old).places }
        ensures contents { L.contents list.new ≡ take n (L.contents list.old) }
        ensures most { L.most list.new ≡ L.most list.old }
        ensures spare_bytes { L.spare_bytes list.old ≤ L.spare_bytes list.new }
        ensures byte_room { byte_room L.takes (L.contents list.new) (L.spare_bytes list.new)
            ≡ byte_room L.takes (L.contents list.old) (L.spare_bytes list.old) };

    /// Drops all contents. The room stays.
    fn clear(&mut self, list: &mut L)
    where
        L::Content: Drop,
        requires { is_over self.old list.old }
        ensures over { is_over self.new list.new }
        ensures hashes { (state self.new list.new).hashes ≡ [] }
        ensures room { (state self.new list.new).room ≡ (state self.old list.old).room }
        ensures places { (state self.new list.new).places ≡ (state self.old list.old).places }
        ensures contents { L.contents list.new ≡ [] }
        ensures most { L.most list.new ≡ L.most list.old }
        ensures spare_bytes { L.spare_bytes list.old ≤ L.spare_bytes list.new }
        ensures byte_room { L.spare_bytes list.new
            ≡ byte_room L.takes (L.contents list.old) (L.spare_bytes list.old) };

    /// Makes room for this many more contents, in the list and in the index. The index is then made for as
    /// many as before, or for just the contents that there are and these.
    ///
    /// # Errors
    ///
    /// [`AllocError`] if an allocation fails. Then the index is made for as many as before.
    fn reserve(
        &mut self,
        list: &mut L,
        additional: usize,
        work: &mut Work,
    ) -> Result<(), AllocError>
        requires over { is_over self.old list.old }
        requires numbered { length (L.contents list.old) + additional ≤ 2 ^ 32 }
        ensures over { is_over self.new list.new }
        ensures contents { L.contents list.new ≡ L.contents list.old }
        ensures capacity { L.most list.old ≤ L.most list.new }
        ensures grows { Doubles (length (L.contents list.old) + additional) (L.most list.old)
            (L.most list.new) }
        ensures spare_bytes { L.spare_bytes list.new ≡ L.spare_bytes list.old }
        ensures index { KeepsEntries (state self.old list.old) (state self.new list.new) }
        ensures free { OnOk result (length (L.contents list.old) + additional ≤ L.most list.new) }
        ensures room { OnOk result
            (length (L.contents list.old) + additional ≤ (state self.new list.new).room) }
        ensures places { let n = length (L.contents list.old) + additional in
            OnOk result ((state self.new list.new).places ≡ max (state self.old list.old).places n) }
        ensures err { OnErr result ((state self.new list.new).places ≡ (state self.old list.old).places) }
        ensures cost { PlacesAtMost (length (L.contents list.old)) work.old work.new };

    /// Shrinks the index to room for `kept` contents, which is no more than it has.
    ///
    /// # Errors
    ///
    /// [`AllocError`] if the allocation of the smaller index fails. Then nothing has changed.
    fn shrink_to(&mut self, list: &L, kept: usize, work: &mut Work) -> Result<(), AllocError>
        requires over { is_over self.old list.now }
        requires within { length (L.contents list.now) ≤ kept }
        requires less { kept ≤ (state self.old list.now).room }
        ensures over { is_over self.new list.now }
        ensures hashes { (state self.new list.now).hashes ≡ (state self.old list.now).hashes }
        ensures room { OnOk result ((state self.new list.now).room ≡ kept) }
        ensures places { OnOk result ((state self.new list.now).places ≡ kept) }
        ensures err { OnErr result (state self.new list.now ≡ state self.old list.now) }
        ensures cost { PlacesAtMost (length (L.contents list.now)) work.old work.new };

    /// For contracts alone: the index is over the list still after that has given up room.
    fn stays_over(&self, list: &L)
        requires { let less = HasLessRoom L.contents L.hashes L.most L.spare_bytes list.now in
            IsOverSome (is_over self.now) less }
        ensures over { is_over self.now list.now }
        ensures state { let less = HasLessRoom L.contents L.hashes L.most L.spare_bytes list.now in
            KeepsState (state self.now) (is_over self.now) less list.now };

    /// Makes room for this many more bytes of contents. If the list has to grow for
    /// them, its room at least doubles.
    ///
    /// # Errors
    ///
    /// [`AllocError`] if the allocation fails. Then nothing has changed.
    fn reserve_bytes(&mut self, list: &mut L, additional: usize) -> Result<(), AllocError>
    where
        L: ByteStore,
        L::Content: Content,
        requires { is_over self.old list.old }
        ensures over { is_over self.new list.new }
        ensures state { state self.new list.new ≡ state self.old list.old }
        ensures contents { L.contents list.new ≡ L.contents list.old }
        ensures most { L.most list.new ≡ L.most list.old }
        ensures spare_bytes { L.spare_bytes list.old ≤ L.spare_bytes list.new }
        ensures bytes { OnOk result (additional ≤ L.spare_bytes list.new) }
        ensures grows { let grows = DoublesByteRoom L.takes additional (L.contents list.old) in
            grows (L.spare_bytes list.old) (L.contents list.new) (L.spare_bytes list.new) }
        ensures err { OnErr result (L.spare_bytes list.new ≡ L.spare_bytes list.old) }
        ensures none_needed { additional ≤ L.spare_bytes list.old → IsOk result };
}
