//! A list of calls, made in order on any table.
ghost use Rattle.std.specs.Prelude.{◌≡◌, ◌≢◌, ◌+◌, ◌<◌, ◌≤◌, [], length, option_copied, slice_get, IfOk, IsOk, OnOk, OnErr};
ghost use Rattle.intaglio_content.specs.Store.{Doubles, byte_room};
ghost use Rattle.intaglio_interner.specs.Bytes.{InternsBytes};
ghost use Rattle.std.specs.Option.{option_map};
ghost use Rattle.intaglio_interner.specs.State.{IsValid};
ghost use Rattle.intaglio_interner.specs.Change.{InternsValue, IsNotMemory};
ghost use Rattle.intaglio_interner.specs.Cost.{Costs, InternCost, IsRoomCost, SearchCost};
ghost use Rattle.intaglio_interner.specs.Step.{Step, StepCost, found, RepliesPair, RepliesSpelling};
ghost use Rattle.intaglio_interner.specs.Step.{RepliesReserved, RepliesShrunk, RepliesTakenBack};
ghost use Rattle.intaglio_interner.specs.Run.{RunsValues, HashesOnce, PlacesFew, HoldsRoom, HonoursRoom};
ghost use Rattle.intaglio_interner.specs.Run.{IssuesInOrder, KeepsRoom, HoldsBytes, HonoursFormRoom, UsesRoom};
ghost use Rattle.intaglio_interner.specs.Growths.{room, CallGrows, GrowsSeldom};

use crate::interner::BaseInterner;
use intaglio_content::{AddedTo, SoughtIn, SpelledStore, Work};
use intaglio_symbol::{InternError, Mark, RoomError, Symbol};
use std::alloc::{AllocError, Global};

/// A call on a table, with contents of type `C` or with borrowed forms, for [`run`].
#[derive(Drop)]
pub enum Call<C> {
    /// Interns the content.
    Intern(C),
    /// Looks the content up.
    Check(C),
    /// Looks the content up, and gets the stored spelling.
    GetInterned(C),
    /// Asks whether the content is stored.
    IsInterned(C),
    /// Asks whether the symbol was issued.
    Contains(Symbol),
    /// Gets the spelling of a symbol.
    Get(Symbol),
    /// Gets the number of contents.
    Len,
    /// Asks whether there is no content.
    IsEmpty,
    /// Drops all contents.
    Clear,
    /// Reserves capacity for this many more contents.
    Reserve(usize),
    /// Shrinks the capacity to this one, or to the number of contents if that is greater.
    ShrinkTo(usize),
    /// Shrinks the capacity to the number of contents.
    ShrinkToFit,
    /// Drops the contents added after the mark.
    TakeBack(Mark),
}

/// What a call returned.
#[derive(Debug, Drop, PartialEq, Eq)]
pub enum Reply {
    /// The symbol of a content, if there is one.
    Symbol(Option<Symbol>),
    /// The symbol of a content and a copy of the stored spelling, if there is one.
    Pair(Option<(Symbol, Vec<u8>)>),
    /// Yes or no.
    Bool(bool),
    /// A copy of a spelling, if the symbol was issued.
    Spelling(Option<Vec<u8>>),
    /// A number of contents.
    Count(usize),
    /// The call succeeded, and returns nothing.
    Done,
    /// The table holds as many contents as its limit.
    Overflow,
    /// More contents than the limit were requested.
    CapacityOverflow,
    /// The allocation of a growth, a shrink or a copy failed.
    NoMemory,
    /// The mark counts more contents than there are.
    Stale,
}

/// Makes the calls in order, and returns their replies in the same order. The calls have contents, which are
/// stored if they are new, or forms, which are copied then.
///
/// Replies and contents are those of a plain list that is scanned from the front, and `work` records what the
/// calls did. A failed call gives a reply too, and the run continues after it.
///
/// # Errors
///
/// [`AllocError`] if the list of replies can't be allocated. Then no call was made.
pub fn run<H, T: BaseInterner, Q: AddedTo<T::Store, H>>(
    alloc: Global,
    table: &mut T,
    calls: Vec<Call<Q>>,
    work: &mut Work,
) -> Result<Vec<Reply>, AllocError>
where
    T::Store: SpelledStore,
    // Each call is a step of the plain list, at its cost, and leaves a valid table.
    ensures ok { let runs = RunsValues T.Content.key Q.key T.Content.spelling Q.adds Q.copies
        (T.hash table.old) in
        IfOk result (λ replies. Costs work.old work.new (λ cost.
        runs (T.state table.old) calls.items replies.items cost (T.state table.new))) }

    // Over the whole run: which symbols are issued, what is hashed, what is
    // placed, and which capacity is kept.
    ensures issues { IfOk result (λ replies.
        IssuesInOrder Q.key (T.state table.old) calls.items replies.items) }
    ensures hashes { OnOk result (Costs work.old work.new (HashesOnce Q.key calls.items)) }
    ensures growth { OnOk result
        (Costs work.old work.new (PlacesFew (T.state table.old) calls.items (T.state table.new))) }
    ensures capacity { OnOk result (HoldsRoom (T.state table.old) calls.items (T.state table.new)) }
    ensures room { IfOk result (λ replies.
        HonoursRoom Q.copies (T.state table.old) calls.items replies.items) }
    ensures same_hash { T.hash table.new ≡ T.hash table.old }

    // Which room for bytes is kept, and that copies in such room don't run out of memory.
    ensures bytes { OnOk result (HoldsBytes T.Store.takes (T.state table.old) (T.spare_bytes table.old)
        calls.items (T.state table.new) (T.spare_bytes table.new)) }
    ensures byte_room { IfOk result (λ replies. HonoursFormRoom Q.needs Q.in_store (T.state table.old)
        (T.spare_bytes table.old) calls.items replies.items) }

    // How often the room for contents and the room for bytes grew.
    ensures growths { let steps = Step T.Content.key Q.key T.Content.spelling Q.adds Q.copies in
        let old = room (T.state table.old) (T.most table.old) (T.spare_bytes table.old) in
        let new = room (T.state table.new) (T.most table.new) (T.spare_bytes table.new) in
        IfOk result (λ replies. GrowsSeldom T.Store.takes Q.needs steps old calls.items replies.items new) }

    // If the replies can't be allocated, no call is made.
    ensures err { OnErr result (T.state table.new ≡ T.state table.old) }
    ensures same_bytes { OnErr result (T.spare_bytes table.new ≡ T.spare_bytes table.old) }
    ensures no_cost { OnErr result (work.new.events ≡ work.old.events) }
    ensures none_needed { calls.items ≡ [] → IsOk result }
{
    let mut replies = Vec::with_capacity(alloc, calls.len())?;
    for call in calls {
        replies.push_reserved(step(alloc, table, call, work));
    }
    Ok(replies)
}

// Makes one call.
fn step<H, T: BaseInterner, Q: AddedTo<T::Store, H>>(
    alloc: Global,
    table: &mut T,
    call: Call<Q>,
    work: &mut Work,
) -> Reply
where
    T::Store: SpelledStore,
    ensures step { let steps = Step T.Content.key Q.key T.Content.spelling Q.adds Q.copies in
        steps (T.state table.old) call result (T.state table.new) }
    ensures cost { let costs = StepCost T.Content.key Q.key (T.hash table.old) in
        Costs work.old work.new (costs (T.state table.old) call result (T.state table.new)) }
    ensures bytes { KeepsRoom call →
        byte_room T.Store.takes (T.state table.old).contents (T.spare_bytes table.old)
        ≤ byte_room T.Store.takes (T.state table.new).contents (T.spare_bytes table.new) }
    ensures room { UsesRoom Q.needs Q.in_store (T.state table.old) (T.spare_bytes table.old) call result
        (T.spare_bytes table.new) }
    ensures grows { let old = room (T.state table.old) (T.most table.old) (T.spare_bytes table.old) in
        let new = room (T.state table.new) (T.most table.new) (T.spare_bytes table.new) in
        CallGrows T.Store.takes Q.needs old call new }
    ensures same_hash { T.hash table.new ≡ T.hash table.old }
    ensures valid { IsValid T.Content.key (T.state table.new) }
{
    match call {
        Call::Intern(value) => match intern(table, value, work) {
            Ok(symbol) => Reply::Symbol(Some(symbol)),
            Err(InternError::Overflow(_)) => Reply::Overflow,
            Err(InternError::Memory(_)) => Reply::NoMemory,
        },
        Call::Check(value) => Reply::Symbol(table.search_counted(&value, work)),
        Call::GetInterned(value) => get_interned(alloc, table, &value, work),
        Call::IsInterned(value) => Reply::Bool(table.search_counted(&value, work).is_some()),
        Call::Contains(symbol) => Reply::Bool((symbol.id() as usize) < table.count()),
        Call::Get(symbol) => get(alloc, table, symbol),
        Call::Len => Reply::Count(table.count()),
        Call::IsEmpty => Reply::Bool(table.count() == 0),
        Call::Clear => {
            table.empty();
            Reply::Done
        }
        Call::Reserve(additional) => reserve(table, additional, work),
        Call::ShrinkTo(min_capacity) => shrink(table, min_capacity, work),
        Call::ShrinkToFit => shrink(table, 0, work),
        Call::TakeBack(mark) => take_back(table, mark),
    }
}

// Interns a value.
fn intern<H, T: BaseInterner, Q: AddedTo<T::Store, H>>(
    table: &mut T,
    value: Q,
    work: &mut Work,
) -> Result<Symbol, InternError>
    ensures step { InternsValue T.Content.key (Q.adds value) Q.copies (T.state table.old) (Q.key value) result
        (T.state table.new) }
    ensures cost { let k = Q.key value in
        Costs work.old work.new
        (InternCost T.Content.key (T.hash table.old) (T.state table.old) k result (T.state table.new)) }
    ensures bytes { let interns = InternsBytes T.Store.takes T.Content.key (Q.needs value) (Q.key value) in
        interns (T.state table.old) (T.spare_bytes table.old) result (T.state table.new)
        (T.spare_bytes table.new) }
    ensures none_needed { 0 < (T.state table.old).spare → Q.in_store →
        Q.needs value ≤ T.spare_bytes table.old →
        IsNotMemory result }
    ensures grows { Doubles (length (T.state table.old).contents + 1) (T.most table.old) (T.most table.new) }
    ensures same_hash { T.hash table.new ≡ T.hash table.old }
    ensures valid { IsValid T.Content.key (T.state table.new) }
{
    let hash = table.hash_counted(&value, work);
    table.intern_hashed(hash, value, work)
}

// Looks a value up, and copies the stored spelling.
fn get_interned<T: BaseInterner, Q: SoughtIn<T::Store>>(
    alloc: Global,
    table: &T,
    sought: &Q,
    work: &mut Work,
) -> Reply
where
    T::Store: SpelledStore,
    ensures reply { let all = (T.state table.now).contents in
        RepliesPair T.Content.spelling (found T.Content.key all (Q.key sought.now)) result }
    ensures cost { let k = Q.key sought.now in
        Costs work.old work.new (SearchCost T.Content.key (T.hash table.now) (T.state table.now) k) }
    ensures valid { IsValid T.Content.key (T.state table.now) }
{
    match table.search_counted(sought, work) {
        None => Reply::Pair(None),
        Some(symbol) => match spelling(table, symbol) {
            None => Reply::Pair(None),
            Some(stored) => match copy_of(alloc, stored) {
                Ok(copy) => Reply::Pair(Some((symbol, copy))),
                Err(_) => Reply::NoMemory,
            },
        },
    }
}

// Copies the spelling of a symbol.
fn get<T: BaseInterner>(alloc: Global, table: &T, symbol: Symbol) -> Reply
where
    T::Store: SpelledStore,
    ensures reply { RepliesSpelling T.Content.spelling (slice_get (T.state table.now).contents symbol)
        result }
    ensures valid { IsValid T.Content.key (T.state table.now) }
{
    match spelling(table, symbol) {
        None => Reply::Spelling(None),
        Some(stored) => match copy_of(alloc, stored) {
            Ok(copy) => Reply::Spelling(Some(copy)),
            Err(_) => Reply::NoMemory,
        },
    }
}

// The bytes of a symbol's content.
fn spelling<T: BaseInterner>(table: &T, symbol: Symbol) -> Option<&[u8]>
where
    T::Store: SpelledStore,
    ensures spelling { option_copied result
        ≡ option_map T.Content.spelling (slice_get (T.state table.now).contents symbol) }
    ensures valid { IsValid T.Content.key (T.state table.now) }
{
    table.store().spelling_at(symbol.id() as usize)
}

// Reserves capacity for more contents.
fn reserve<T: BaseInterner>(table: &mut T, additional: usize, work: &mut Work) -> Reply
    ensures reply { RepliesReserved (T.state table.old) additional result (T.state table.new) }
    ensures grows { Doubles (length (T.state table.old).contents + additional) (T.most table.old)
        (T.most table.new) }
    ensures bytes { T.spare_bytes table.new ≡ T.spare_bytes table.old }
    ensures cost { Costs work.old work.new (IsRoomCost (T.state table.old)) }
    ensures same_hash { T.hash table.new ≡ T.hash table.old }
    ensures valid { IsValid T.Content.key (T.state table.new) }
{
    match table.reserve_counted(additional, work) {
        Ok(()) => Reply::Done,
        Err(RoomError::CapacityOverflow) => Reply::CapacityOverflow,
        Err(RoomError::Memory(_)) => Reply::NoMemory,
    }
}

// Shrinks the capacity.
fn shrink<T: BaseInterner>(table: &mut T, min_capacity: usize, work: &mut Work) -> Reply
    ensures reply { RepliesShrunk (T.state table.old) min_capacity result (T.state table.new) }
    ensures cost { Costs work.old work.new (IsRoomCost (T.state table.old)) }
    ensures same_hash { T.hash table.new ≡ T.hash table.old }
    ensures valid { IsValid T.Content.key (T.state table.new) }
{
    match table.shrink_counted(min_capacity, work) {
        Ok(()) => Reply::Done,
        Err(_) => Reply::NoMemory,
    }
}

// Drops the contents added after a mark.
fn take_back<T: BaseInterner>(table: &mut T, mark: Mark) -> Reply
    ensures reply { RepliesTakenBack (T.state table.old) mark result (T.state table.new) }
    ensures most { T.most table.new ≡ T.most table.old }
    ensures byte_room { byte_room T.Store.takes (T.state table.new).contents (T.spare_bytes table.new)
        ≡ byte_room T.Store.takes (T.state table.old).contents (T.spare_bytes table.old) }
    ensures same_hash { T.hash table.new ≡ T.hash table.old }
    ensures valid { IsValid T.Content.key (T.state table.new) }
{
    match table.take_back(mark) {
        Ok(()) => Reply::Done,
        Err(_) => Reply::Stale,
    }
}

// A copy of some bytes. Copying none allocates nothing.
fn copy_of(alloc: Global, bytes: &[u8]) -> Result<Vec<u8>, AllocError>
    ensures ok { IfOk result (λ copy. copy.items ≡ bytes.now) }
    ensures err { OnErr result (bytes.now ≢ []) }
{
    let mut copy = Vec::with_capacity(alloc, bytes.len())?;
    copy.extend_from_slice(bytes)?;
    Ok(copy)
}
