//! What is run on tables of each kind: scripts, and more.
use super::asks::{OwnedTable, PackedTable};
use super::loops::{interns, keeps_new};
use super::script::plays;
use super::table::{Makes, Table};
use crate::support::builders::{Fold, hash_of};
use crate::support::kinds::{BStrKind, BytesKind, CStrKind, Host, OsStrKind, PathKind, StrKind};
use crate::support::tables::Make;
use crate::tests::assertions::same;
use intaglio::{AllSymbols, Symbol};
use intaglio_hash::FixedState;

/// What can be tried on tables of any kind.
pub trait Trial {
    /// Tries it on tables of this kind, which it makes.
    fn try_on<T: Makes, R: Host>(&self, rt: &R);
}

/// A table of owned contents, as it is by default.
pub type Owned<K> = OwnedTable<K, Fold>;

/// A table in one buffer, as it is by default.
pub type InBuffer<K> = PackedTable<K, FixedState>;

/// Runs the trial on tables of each kind.
pub fn try_on_each<Q: Trial>(rt: &impl Host, trial: &Q) {
    try_on_owned(rt, trial);
    try_on_packed(rt, trial);
}

/// Runs the trial on tables of owned contents of each kind.
pub fn try_on_owned<Q: Trial>(rt: &impl Host, trial: &Q) {
    trial.try_on::<Owned<StrKind>, _>(rt);
    trial.try_on::<Owned<OsStrKind>, _>(rt);
    trial.try_on::<Owned<BytesKind>, _>(rt);
    trial.try_on::<Owned<BStrKind>, _>(rt);
    trial.try_on::<Owned<CStrKind>, _>(rt);
    trial.try_on::<Owned<PathKind>, _>(rt);
}

/// Runs the trial on tables in one buffer.
pub fn try_on_packed<Q: Trial>(rt: &impl Host, trial: &Q) {
    trial.try_on::<InBuffer<StrKind>, _>(rt);
    trial.try_on::<InBuffer<OsStrKind>, _>(rt);
    trial.try_on::<InBuffer<BytesKind>, _>(rt);
    trial.try_on::<InBuffer<BStrKind>, _>(rt);
    trial.try_on::<InBuffer<PathKind>, _>(rt);
}

/// Runs the trial on tables of bytes.
pub fn try_on_bytes<Q: Trial>(rt: &impl Host, trial: &Q) {
    trial.try_on::<Owned<BytesKind>, _>(rt);
    trial.try_on::<InBuffer<BytesKind>, _>(rt);
    trial.try_on::<Owned<BStrKind>, _>(rt);
    trial.try_on::<InBuffer<BStrKind>, _>(rt);
}

/// Plays the script on tables of texts.
pub fn on_texts(rt: &impl Host, script: &'static str) {
    plays::<Owned<StrKind>>(rt, script);
    plays::<InBuffer<StrKind>>(rt, script);
}

/// Plays the script on tables of paths.
pub fn on_paths(rt: &impl Host, script: &'static str) {
    plays::<Owned<PathKind>>(rt, script);
    plays::<InBuffer<PathKind>>(rt, script);
}

/// A script, whose calls make their tables.
#[derive(Clone, Copy)]
pub struct Script(pub &'static str);

impl Trial for Script {
    fn try_on<T: Makes, R: Host>(&self, rt: &R) {
        plays::<T>(rt, self.0);
    }
}

/// Exhausted symbol iterators, beside those of an empty table.
#[derive(Clone, Copy)]
pub struct RunOut;

impl Trial for RunOut {
    fn try_on<T: Makes, R: Host>(&self, rt: &R) {
        let empty = T::make(rt.alloc(), Make::New).expect(rt, "no table");
        let mut one = T::make(rt.alloc(), Make::New).expect(rt, "no table");
        interns(rt, &mut one, b"a", 0);
        run_out(rt, one.symbols(), empty.symbols());
    }
}

fn run_out(rt: &impl Host, mut one: AllSymbols<'_>, empty: AllSymbols<'_>) {
    same(rt, one == empty, false);
    same(rt, one.next(), Some(Symbol::new(0)));
    same(rt, one == empty, true);
    same(rt, hash_of(one), hash_of(empty));
}

/// Contents, no two of which are equal, in a new table.
#[derive(Clone, Copy)]
pub struct Kept<'a>(pub &'a [&'a [u8]]);

impl<'a> Trial for Kept<'a> {
    fn try_on<T: Makes, R: Host>(&self, rt: &R) {
        let mut table = T::make(rt.alloc(), Make::New).expect(rt, "no table");
        for (wanted, content) in (0..u32::MAX).zip(self.0.iter()) {
            keeps_new(rt, &mut table, content, wanted);
        }
    }
}
