//! How a table takes in all strings of a list.
ghost use Rattle.std.specs.Prelude.{◌≡◌, ◌+◌, ◌<◌, ◌≤◌, length, map, sum_by, IfErr, IfOk, OnErr, OnOk};
ghost use Rattle.intaglio_interner.specs.Batch.{IfOverflow, InternsAll, RefusedCost, StaysValid};
ghost use Rattle.intaglio_content.specs.Store.{byte_room};
ghost use Rattle.intaglio_interner.specs.Bytes.{GrowsBytes, GrowsFor, KeepsBytes};
ghost use Rattle.intaglio_interner.specs.Cost.{Costs};
ghost use Rattle.intaglio_interner.specs.Issue.{interned_all, issue_from};
ghost use Rattle.intaglio_interner.specs.Lookup.{Keeps};
ghost use Rattle.intaglio_frozen.specs.Merging.{AreAccepted, AreKeys, FailsAsForms, IsMap, OfForms};

use crate::StringList;
use crate::from_string::FromString;
use intaglio_core::{BaseInterner, Content, InternError, Store, Symbol, Work, get_or_intern_all};
use std::alloc::{AllocError, Global};

/// Interns all strings of a list, such as a frozen table, all or none, and returns the symbol of each: the
/// map by which codes of the list become codes of the table.
///
/// Earlier symbols keep their strings, and what is new comes in the list's order. The strings are read where
/// they are, and only new ones are copied. They are interned as one batch of forms ([`get_or_intern_all`]),
/// of which a list is allocated first. A table of bytes takes in every string. Whether a table of texts can
/// take in a list, [`are_texts`](crate::are_texts) says.
///
/// # Errors
///
/// `Overflow` if the table can't hold them all, `Memory` if an allocation fails before that is found. Then
/// the contents of the table are unchanged, its capacity isn't lower, and there is no less room for bytes.
///
/// ```
/// # use intaglio::Work;
/// # use intaglio::bytes::{BytesContent, SymbolTable};
/// # use intaglio_frozen::absorb;
/// # use intaglio_frozen::{Frozen, FrozenKind, freeze};
/// # let alloc = rt.alloc();
/// # let mut words = SymbolTable::new(alloc)?;
/// # words.intern(BytesContent::from(b"b".as_slice()))?;
/// # words.intern(BytesContent::from(b"a".as_slice()))?;
/// let bytes = freeze(alloc, &words, FrozenKind::Bytes, 1, 2)?;
/// let frozen = Frozen::open(&bytes)?;
/// let mut table = SymbolTable::new(alloc)?;
/// let a = table.intern(BytesContent::from(b"a".as_slice()))?;
/// let map = absorb(alloc, &mut table, &frozen, &mut Work::new())?;
/// assert!(rt; map.get(1).copied() == Some(a));
/// ```
pub fn absorb<'s, L: StringList, T: BaseInterner>(
    alloc: Global,
    table: &mut T,
    list: &'s L,
    work: &mut Work,
) -> Result<Vec<Symbol>, InternError>
where
    T::Content: FromString<'s, T::Store>,
    requires { AreAccepted T.Content.accepts (L.strings list.now) }
    // The symbols and the contents are those of internings one by one.
    ensures symbols { let held = map T.Content.spelling (T.state table.old).contents in
        IfOk result (λ symbols. symbols.items ≡ issue_from T.Content.key_of held (L.strings list.now)) }
    ensures held { let held = map T.Content.spelling (T.state table.old).contents in
        let all = interned_all T.Content.key_of held (L.strings list.now) in
        OnOk result (map T.Content.spelling (T.state table.new).contents ≡ all) }

    // Where contents are equal if their spellings are: string i of the list is the string at symbol i.
    ensures same { let new = map T.Content.spelling (T.state table.new).contents in
        AreKeys T.Content.key_of → IfOk result (λ symbols. IsMap (L.strings list.now) new symbols.items) }
    ensures kept { Keeps T.Content.key (T.state table.old) (T.state table.new) }

    // All or none.
    ensures refused { OnErr result ((T.state table.new).contents ≡ (T.state table.old).contents) }
    ensures overflow { let held = map T.Content.spelling (T.state table.old).contents in
        let all = interned_all T.Content.key_of held (L.strings list.now) in
        IfErr result (λ e. IfOverflow e ((T.state table.old).limit < length all)) }

    // As one batch of forms: out of memory only where the table wasn't full, or
    // where a list couldn't be allocated.
    ensures cost { IfOk result (λ symbols. Costs work.old work.new (λ cost.
        OfForms T.Content.Form.form_spelling (L.strings list.now) (λ forms.
        InternsAll T.Content.key T.Content.Form.key T.Content.Form.adds T.Content.Form.copies
        (T.hash table.old)
        (T.state table.old) forms symbols.items cost (T.state table.new)))) }
    ensures refused_cost { IfErr result (λ e. Costs work.old work.new (λ cost.
        FailsAsForms T.Content.Form.form_spelling (L.strings list.now) e cost (λ forms.
        RefusedCost T.Content.key T.Content.Form.key T.Content.Form.adds T.Content.Form.copies
        (T.hash table.old)
        (T.state table.old) forms e cost))) }
    ensures grows { let needed = length (T.state table.old).contents + length (L.strings list.now) in
        GrowsFor needed (T.most table.old) (T.most table.new) }
    ensures grows_bytes { let room = byte_room T.Store.takes in
        GrowsBytes (room (T.state table.old).contents (T.spare_bytes table.old))
        (room (T.state table.new).contents (T.spare_bytes table.new)) }
    ensures table { StaysValid T.Content.key (T.hash table.old) (T.state table.old)
        (T.hash table.new) (T.state table.new) }
    ensures bytes { KeepsBytes T.Store.takes (sum_by length (L.strings list.now)) (T.state table.old).contents
        (T.spare_bytes table.old) result (T.state table.new).contents (T.spare_bytes table.new) }
{
    // For the contract alone: what holds of every table holds if the forms can't be allocated.
    let _ = table.count();
    let forms = forms_of::<L, T::Store, T::Content>(alloc, list)?;
    get_or_intern_all(alloc, table, &forms, work)
}

// The strings of a list as forms.
fn forms_of<'s, L: StringList, B: Store, C: FromString<'s, B>>(
    alloc: Global,
    list: &'s L,
) -> Result<Vec<C::Form>, AllocError>
where
    B::Content: Content,
    requires { AreAccepted C.accepts (L.strings list.now) }
    ensures strings { IfOk result (λ forms. map C.Form.form_spelling forms.items ≡ L.strings list.now) }
    ensures needs { IfOk result (λ forms. sum_by C.Form.needs forms.items
        ≤ sum_by length (L.strings list.now)) }
{
    let mut forms = Vec::with_capacity(alloc, list.len())?;
    for i in 0..list.len() {
        forms.push_reserved(C::from_string(list.string(i)));
    }
    Ok(forms)
}
