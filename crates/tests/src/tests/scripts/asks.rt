//! Calls of a table by borrowed forms, and what borrows from it, whose results are text.
use super::printed::{Shown, inserted_text, numbered, reply_text, spelled, symbols_text, word};
use super::steps::walked;
use super::table::Table;
use crate::support::builders::HasherCount;
use crate::support::kinds::{BStrKind, BytesKind, CStrKind, Host, OsStrKind, PathKind, StrKind};
use crate::support::replies::interned;
use intaglio::packed::Packed;
use intaglio::{
    Content, ContentOf, Indexed, KindForm, Lends, LookedUpIn, Reply, SoughtIn, Symbol, TableOver,
    Work, get_or_intern_all,
};

/// A call by borrowed forms, or one that borrows what is stored.
#[derive(Clone, Copy)]
pub enum Ask {
    /// `get_or_intern`.
    GetOrIntern,
    /// `insert_full`.
    InsertFull,
    /// `get_or_intern_all`.
    GetOrInternAll,
    /// The function `get_or_intern_all`.
    CountedAll,
    /// `check_interned`.
    CheckInterned,
    /// `check_all`.
    CheckAll,
    /// `is_interned`.
    IsInterned,
    /// `get_interned`.
    GetInterned,
    /// `contains`.
    Contains(Symbol),
    /// `get`.
    Get(Symbol),
    /// Steps on the iterator of forms.
    Forms,
    /// Steps on `iter`.
    Pairs,
    /// Steps on the iterator of the table itself.
    Each,
}

/// The table of owned contents of a kind.
pub type OwnedTable<K, S> = intaglio::Table<ContentOf<K>, S>;

/// The table of a kind in one buffer.
pub type PackedTable<K, S> = TableOver<Packed<K>, S>;

// What a table returns that yields its forms by the last of these.
macro_rules! answer_or {
    ($rt:ident, $table:expr, $contents:ident, $steps:ident, $ask:ident, $forms:ident) => {
        match $ask {
            Ask::Forms => walked($rt, $table.$forms(), $steps),
            Ask::GetInterned => match $table.get_interned(first($rt, $contents).form()) {
                None => word($rt, "none"),
                Some((symbol, form)) => numbered($rt, symbol, form.shown()),
            },
            _ => answer($rt, $table, $contents, $steps, $ask),
        }
    };
}

// The prover takes seconds wherever a table of one kind is passed to a call of any table. So these impls alone
// name tables of one kind.
impl<S: HasherCount> Table for OwnedTable<StrKind, S> {
    fn ask<R: Host>(&mut self, rt: &R, contents: &[Self::Item], steps: &str, ask: Ask) -> String {
        answer_or!(rt, self, contents, steps, ask, strings)
    }
}

impl<S: HasherCount> Table for OwnedTable<OsStrKind, S> {
    fn ask<R: Host>(&mut self, rt: &R, contents: &[Self::Item], steps: &str, ask: Ask) -> String {
        answer_or!(rt, self, contents, steps, ask, os_strings)
    }
}

impl<S: HasherCount> Table for OwnedTable<BytesKind, S> {
    fn ask<R: Host>(&mut self, rt: &R, contents: &[Self::Item], steps: &str, ask: Ask) -> String {
        answer_or!(rt, self, contents, steps, ask, bytestrings)
    }
}

impl<S: HasherCount> Table for OwnedTable<BStrKind, S> {
    fn ask<R: Host>(&mut self, rt: &R, contents: &[Self::Item], steps: &str, ask: Ask) -> String {
        answer_or!(rt, self, contents, steps, ask, bstrings)
    }
}

impl<S: HasherCount> Table for OwnedTable<CStrKind, S> {
    fn ask<R: Host>(&mut self, rt: &R, contents: &[Self::Item], steps: &str, ask: Ask) -> String {
        answer_or!(rt, self, contents, steps, ask, c_strings)
    }
}

impl<S: HasherCount> Table for OwnedTable<PathKind, S> {
    const ARE_PATHS: bool = true;

    fn ask<R: Host>(&mut self, rt: &R, contents: &[Self::Item], steps: &str, ask: Ask) -> String {
        answer_or!(rt, self, contents, steps, ask, paths)
    }
}

impl<S: HasherCount> Table for PackedTable<StrKind, S> {
    fn ask<R: Host>(&mut self, rt: &R, contents: &[Self::Item], steps: &str, ask: Ask) -> String {
        answer_or!(rt, self, contents, steps, ask, strings)
    }
}

impl<S: HasherCount> Table for PackedTable<OsStrKind, S> {
    fn ask<R: Host>(&mut self, rt: &R, contents: &[Self::Item], steps: &str, ask: Ask) -> String {
        answer_or!(rt, self, contents, steps, ask, os_strings)
    }
}

impl<S: HasherCount> Table for PackedTable<BytesKind, S> {
    fn ask<R: Host>(&mut self, rt: &R, contents: &[Self::Item], steps: &str, ask: Ask) -> String {
        answer_or!(rt, self, contents, steps, ask, bytestrings)
    }
}

impl<S: HasherCount> Table for PackedTable<BStrKind, S> {
    fn ask<R: Host>(&mut self, rt: &R, contents: &[Self::Item], steps: &str, ask: Ask) -> String {
        answer_or!(rt, self, contents, steps, ask, bstrings)
    }
}

impl<S: HasherCount> Table for PackedTable<PathKind, S> {
    const ARE_PATHS: bool = true;

    fn ask<R: Host>(&mut self, rt: &R, contents: &[Self::Item], steps: &str, ask: Ask) -> String {
        answer_or!(rt, self, contents, steps, ask, paths)
    }
}

fn first<'a, C>(rt: &impl Host, contents: &'a [C]) -> &'a C {
    contents.first().expect(rt, "no content")
}

// What any table returns for a call by the forms of these.
fn answer<'a, L: Lends<'a> + LookedUpIn<'a> + Indexed, K, S: HasherCount>(
    rt: &impl Host,
    table: &'a mut TableOver<L, S>,
    contents: &'a [ContentOf<K>],
    steps: &str,
    ask: Ask,
) -> String
where
    K: KindForm<'a, Form = <L as LookedUpIn<'a>>::By>,
    L::Content: Content + SoughtIn<L> + Drop,
    L::Prepared: Drop,
    L::Form: Shown,
{
    let mut forms = Vec::new(rt.alloc());
    for content in contents {
        forms.push(content.form()).expect(rt, "memory");
    }
    match ask {
        Ask::GetOrInternAll => symbols_text(rt, table.get_or_intern_all(&forms)),
        Ask::CountedAll => {
            let symbols = get_or_intern_all(rt.alloc(), table, &forms, &mut Work::new());
            symbols_text(rt, symbols)
        }
        Ask::CheckAll => checked_text(rt, &table.check_all(&forms).expect(rt, "memory")),
        Ask::Pairs => walked(rt, table.iter(), steps),
        Ask::Each => walked(rt, (&*table).into_iter(), steps),
        Ask::InsertFull => inserted_text(rt, table.insert_full(forms.pop().expect(rt, "no form"))),
        _ => reply_text(
            rt,
            &reply(rt, table, forms.pop().expect(rt, "no form"), ask),
        ),
    }
}

fn checked_text(rt: &impl Host, symbols: &[Option<Symbol>]) -> String {
    format!(in rt.alloc(); "{symbols:?}").expect(rt, "memory")
}

// The same for all other calls, which take at most one form.
fn reply<'a, L: Lends<'a> + LookedUpIn<'a> + Indexed, S: HasherCount>(
    rt: &impl Host,
    table: &'a mut TableOver<L, S>,
    form: <L as LookedUpIn<'a>>::By,
    ask: Ask,
) -> Reply
where
    L::Content: Content + SoughtIn<L> + Drop,
    L::Prepared: Drop,
    L::Form: Shown,
{
    match ask {
        Ask::GetOrIntern => interned(table.get_or_intern(form)),
        Ask::CheckInterned => Reply::Symbol(table.check_interned(form)),
        Ask::IsInterned => Reply::Bool(table.is_interned(form)),
        Ask::Contains(symbol) => Reply::Bool(table.contains(symbol)),
        Ask::Get(symbol) => spelled(rt, table.get(symbol)),
        _ => Reply::Stale,
    }
}
