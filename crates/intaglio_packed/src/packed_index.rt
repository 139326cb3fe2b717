//! A [`RecordIndex`] as the index of a packed list.
ghost use Rattle.std.specs.Prelude.{◌≡◌, ◌+◌, ◌-◌, ◌^◌, ◌++◌, ◌≤◌, length, replicate};
ghost use Rattle.std.specs.Prelude.{IsOk, OnErr, OnOk};
ghost use Rattle.intaglio_content.specs.Store.{Doubles};
ghost use Rattle.intaglio_content.specs.Work.{placed};
ghost use Rattle.intaglio_records.specs.Index.{IsOver, is_long_of, made_for};
ghost use Rattle.intaglio_packed.specs.PackedIndex.{room_with, state_over, StaysShort};
ghost use Rattle.intaglio_records.specs.Records.{record_room_of};

use crate::packed::Packed;
use intaglio_content::{AddedTo, ByteStore, Content, SoughtIn, Spelling, Store, StringKind, Work};
use intaglio_core::{IndexOf, Indexed};
use intaglio_records::RecordIndex;
use intaglio_symbol::Symbol;
use std::alloc::{AllocError, Global};

impl<K: StringKind> Indexed for Packed<K> {
    type Index = RecordIndex;
}

impl<K: StringKind> IndexOf<Packed<K>> for RecordIndex {
    ghost state = { λ index list. state_over list index };

    ghost is_over = { λ index list. IsOver list.list (record_room_of list) index };

    fn with_capacity(
        alloc: Global,
        capacity: usize,
    ) -> Result<(Packed<K>, RecordIndex), AllocError> {
        let list = Packed::with_capacity(alloc, capacity)?;
        let index = RecordIndex::over(list.records(), capacity)?;
        Ok((list, index))
    }

    #[inline(always)]
    fn room(&self, _list: &Packed<K>) -> usize {
        self.places()
    }

    // Each string with this hash is compared as it is read: its record has the
    // hash, the string and its number.
    #[inline(always)]
    fn search<Q: SoughtIn<Packed<K>>>(
        &self,
        list: &Packed<K>,
        hash: u64,
        sought: &Q,
        work: &mut Work,
    ) -> Option<Symbol> {
        work.step();
        let mut matches = self.matches(list.records(), hash);
        while let Some(found) = matches.next() {
            if sought.same_at(list, found.0 as usize, found.1, work) {
                return Some(Symbol::new(found.0));
            }
            work.step();
        }
        None
    }

    #[inline(always)]
    fn touch(&self, list: &Packed<K>, hash: u64) -> u8 {
        RecordIndex::touch(self, list.records(), hash)
    }

    #[inline(always)]
    fn prepare<H, Q: AddedTo<Packed<K>, H>>(
        &mut self,
        list: &mut Packed<K>,
        value: &Q,
    ) -> Result<(), AllocError> {
        let spare = list.records().spare_bytes();
        value.prepare(list)?;
        reach_bytes(self, list, spare)
    }

    #[inline(always)]
    fn make_room(
        &mut self,
        list: &mut Packed<K>,
        limit: usize,
        work: &mut Work,
    ) -> Result<(), AllocError> {
        let count = list.len();
        let places = self.places();
        if count < list.capacity().min(places) {
            return Ok(());
        }
        reserve_in(self, list, 1)?;
        if count < places {
            return Ok(());
        }
        rebuild(self, list, limit.min((2 * places).max(4)), work)
    }

    #[inline(always)]
    fn push<H, Q: AddedTo<Packed<K>, H>>(
        &mut self,
        list: &mut Packed<K>,
        hash: u64,
        _symbol: Symbol,
        value: Q,
        prepared: (),
        work: &mut Work,
    ) {
        self.place(list.records(), hash);
        work.placed();
        value.push(hash, prepared, list);
    }

    fn truncate(&mut self, list: &mut Packed<K>, n: usize)
    where
        Spelling<K>: Drop,
    {
        RecordIndex::truncate(self, list.records(), n);
        list.truncate(n);
    }

    fn clear(&mut self, list: &mut Packed<K>)
    where
        Spelling<K>: Drop,
    {
        RecordIndex::clear(self);
        list.clear();
    }

    fn reserve(
        &mut self,
        list: &mut Packed<K>,
        additional: usize,
        work: &mut Work,
    ) -> Result<(), AllocError> {
        let total = list.len() + additional;
        reserve_in(self, list, additional)?;
        if total <= self.places() {
            return Ok(());
        }
        rebuild(self, list, total, work)
    }

    fn shrink_to(
        &mut self,
        list: &Packed<K>,
        kept: usize,
        work: &mut Work,
    ) -> Result<(), AllocError> {
        rebuild(self, list, kept, work)
    }

    fn stays_over(&self, _list: &Packed<K>) {}

    fn reserve_bytes(&mut self, list: &mut Packed<K>, additional: usize) -> Result<(), AllocError> {
        let spare = list.records().spare_bytes();
        list.reserve_bytes(additional)?;
        reach_bytes(self, list, spare)
    }
}

// Makes an index that is made for as many strings as are given here. Records a placement for each string.
fn rebuild<K: StringKind>(
    index: &mut RecordIndex,
    list: &Packed<K>,
    places: usize,
    work: &mut Work,
) -> Result<(), AllocError>
    requires enough { length list.now.list ≤ places }
    requires few { places ≤ 2 ^ 32 }
    ensures over { OnOk result (IsOver list.now.list (record_room_of list.now) index.new) }
    ensures places { OnOk result (made_for index.new ≡ places) }
    ensures placed { OnOk result
        (work.new.events ≡ work.old.events ++ replicate (length list.now.list) placed) }
    ensures err { OnErr result (index.new ≡ index.old) }
    ensures quiet { OnErr result (work.new.events ≡ work.old.events) }
{
    *index = RecordIndex::over(list.records(), places)?;
    work.placed_each(list.len());
    Ok(())
}

// Makes room in the list for this many more strings, all of which the index can reach.
fn reserve_in<K: StringKind>(
    index: &mut RecordIndex,
    list: &mut Packed<K>,
    additional: usize,
) -> Result<(), AllocError>
    requires over { IsOver list.old.list (record_room_of list.old) index.old }
    ensures over { IsOver list.new.list (record_room_of list.new) index.new }
    ensures places { made_for index.new ≡ made_for index.old }
    ensures list { list.new.list ≡ list.old.list }
    ensures spare_bytes { list.new.spare_bytes ≡ list.old.spare_bytes }
    ensures most { list.old.most ≤ list.new.most }
    ensures grows { Doubles (length list.old.list + additional) list.old.most list.new.most }
    ensures free { OnOk result (length list.old.list + additional ≤ list.new.most) }
    ensures short { StaysShort additional list.old → is_long_of index.new ≡ is_long_of index.old }
{
    if !list.records().stays_short(additional) {
        index.lengthen(list.records())?;
    }
    list.reserve(additional)
}

// Has the index reach all of the list's room, after that has grown from `spare` bytes. If there is no memory
// for that, the list gives up what it has above them.
#[inline(always)]
fn reach_bytes<K: StringKind>(
    index: &mut RecordIndex,
    list: &mut Packed<K>,
    spare: usize,
) -> Result<(), AllocError>
    requires over { IsOver list.old.list (room_with spare list.old) index.old }
    requires grown { spare ≤ list.old.spare_bytes }
    ensures over { IsOver list.new.list (record_room_of list.new) index.new }
    ensures places { made_for index.new ≡ made_for index.old }
    ensures list { list.new.list ≡ list.old.list }
    ensures most { list.new.most ≡ list.old.most }
    ensures kept { OnOk result (list.new.spare_bytes ≡ list.old.spare_bytes) }
    ensures given_up { OnErr result (list.new.spare_bytes ≡ spare) }
    ensures none_needed { list.old.spare_bytes ≡ spare → IsOk result }
    ensures short { record_room_of list.old ≤ 2 ^ 32 - 1 → is_long_of index.new ≡ is_long_of index.old }
{
    if list.records().is_short() {
        return Ok(());
    }
    let reached = index.lengthen(list.records());
    if reached.is_err() {
        list.shrink_spare(spare);
    }
    reached
}
