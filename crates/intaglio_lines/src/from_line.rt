//! Lines of an input as forms that are interned.
ghost use Rattle.std.specs.Prelude.{◌≡◌, ℕ, List, [], ◌∷◌, ◌++◌, Bool, true, is_none, is_ok, None, IfOk, IsUtf8};
ghost use Rattle.std.proofs.lemmas.Str.{IsUtf8-nil};
ghost use Rattle.std.proofs.Common.{refl};
ghost use Rattle.intaglio_cstr.specs.Zeros.{first_zero};
ghost use Rattle.intaglio_lines.specs.Cuts.{IsUtf8-parts};

use crate::tool_error::Unfit;
use bstr::BStr;
use intaglio_bytes::b_str::BStrKind;
use intaglio_bytes::bytes::BytesKind;
use intaglio_content::{
    Content, ContentOf, CopiedTo, Keyed, KindOwned, Packable, PackedForm, Spelling, SpellingStore,
    Spells, Store, StringKind,
};
use intaglio_cstr::{CStrKind, first_zero};
use intaglio_path::{Path, PathKind};
use intaglio_text::Utf8;

/// A content that is interned by a form of a line of an input, into a store of type `L`.
///
/// Not every input may be split into lines, and not every line fits. If an input is allowed, so is each part
/// that a split at a byte 10 gives.
pub trait FromLine<'a, L: Store>: Content
where
    L::Content: Content,
{
    /// The form of a line.
    type Line: CopiedTo<L>;

    ghost allows: { List ℕ → Type 0 };

    ghost fits: { List ℕ → Bool };

    /// The form whose spelling is the line, or why the line doesn't fit. Nothing is copied.
    fn from_line(line: &'a [u8]) -> Result<Self::Line, Unfit>
        requires { allows line.now }
        ensures spelling { IfOk result (λ form. Self.Line.form_spelling form ≡ line.now) }
        ensures fits { is_ok result ≡ fits line.now };

    ghost allows_parts: { (line rest : List ℕ) → allows (line ++ 10 ∷ rest) → allows line × allows rest };

    ghost allows_nothing: { allows [] };
}

/// A kind whose strings can be lines of an input: what [`FromLine`] says of its
/// contents, wherever they are stored.
pub trait LineKind<'a>: StringKind {
    /// The form of a line.
    type Line: Packable<Self> + Copy;

    ghost allows: { List ℕ → Type 0 };

    ghost fits: { List ℕ → Bool };

    /// The form whose spelling is the line, or why the line doesn't fit. Nothing is copied.
    fn line_of(line: &'a [u8]) -> Result<Self::Line, Unfit>
        requires { allows line.now }
        ensures spelling { IfOk result (λ form. Self.Line.spelled form ≡ line.now) }
        ensures fits { is_ok result ≡ fits line.now };

    ghost allows_parts: { (line rest : List ℕ) → allows (line ++ 10 ∷ rest) → allows line × allows rest };

    ghost allows_nothing: { allows [] };
}

impl<'a, K: LineKind<'a> + KindOwned> FromLine<'a, Vec<ContentOf<K>>> for ContentOf<K> {
    type Line = K::Line;

    ghost allows = { λ bytes. K.allows bytes };

    ghost fits = { λ line. K.fits line };

    ghost allows_parts = { λ line rest text. K.allows_parts line rest text };

    ghost allows_nothing = { K.allows_nothing };

    fn from_line(line: &'a [u8]) -> Result<K::Line, Unfit> {
        K::line_of(line)
    }
}

impl<'a, K: LineKind<'a>, L: SpellingStore<SpellingKind = K>> FromLine<'a, L> for Spelling<K> {
    type Line = K::Line;

    ghost allows = { λ bytes. K.allows bytes };

    ghost fits = { λ line. K.fits line };

    ghost allows_parts = { λ line rest text. K.allows_parts line rest text };

    ghost allows_nothing = { K.allows_nothing };

    fn from_line(line: &'a [u8]) -> Result<K::Line, Unfit> {
        K::line_of(line)
    }
}

impl<'a, M> LineKind<'a> for Utf8<M> {
    type Line = &'a str;

    ghost allows = { IsUtf8 };

    ghost fits = { λ _. true };

    ghost allows_parts = { λ line rest text. IsUtf8-parts line rest text };

    ghost allows_nothing = { IsUtf8-nil };

    fn line_of(line: &'a [u8]) -> Result<&'a str, Unfit> {
        Ok(Utf8::<M>::form_of(line))
    }
}

impl<'a> LineKind<'a> for PathKind {
    type Line = Path<'a>;

    ghost allows = { IsUtf8 };

    ghost fits = { λ _. true };

    ghost allows_parts = { λ line rest text. IsUtf8-parts line rest text };

    ghost allows_nothing = { IsUtf8-nil };

    fn line_of(line: &'a [u8]) -> Result<Path<'a>, Unfit> {
        Ok(PathKind::form_of(line))
    }
}

impl<'a> LineKind<'a> for BytesKind {
    type Line = &'a [u8];

    ghost allows = { λ _. Unit {0} };

    ghost fits = { λ _. true };

    ghost allows_parts = { λ _ _ _. (tt, tt) };

    ghost allows_nothing = { tt };

    fn line_of(line: &'a [u8]) -> Result<&'a [u8], Unfit> {
        Ok(line)
    }
}

impl<'a> LineKind<'a> for BStrKind {
    type Line = BStr<'a>;

    ghost allows = { λ _. Unit {0} };

    ghost fits = { λ _. true };

    ghost allows_parts = { λ _ _ _. (tt, tt) };

    ghost allows_nothing = { tt };

    fn line_of(line: &'a [u8]) -> Result<BStr<'a>, Unfit> {
        Ok(BStr::new(line))
    }
}

impl<'a> LineKind<'a> for CStrKind {
    type Line = Unended<'a>;

    ghost allows = { λ _. Unit {0} };

    ghost fits = { λ line. is_none (first_zero line) };

    ghost allows_parts = { λ _ _ _. (tt, tt) };

    ghost allows_nothing = { tt };

    fn line_of(line: &'a [u8]) -> Result<Unended<'a>, Unfit> {
        match first_zero(line) {
            Some(_) => Err(Unfit::ZeroByte),
            None => Ok(Unended { bytes: line }),
        }
    }
}

/// A line without a zero byte: a C string without its final zero.
#[derive(Clone, Copy)]
pub struct Unended<'a> {
    bytes: &'a [u8],
    ghost no_zero: { first_zero bytes.now ≡ None },
}

impl<'a> Keyed for Unended<'a> {
    ghost key = { λ line. line.bytes.now ∷ [] };
}

impl<'a> Spells<CStrKind> for Unended<'a> {
    ghost spelled = { λ line. line.bytes.now };

    #[inline(always)]
    fn spelled_bytes(&self) -> &[u8] {
        self.bytes
    }
}

impl<'a> Packable<CStrKind> for Unended<'a> {
    ghost key_of_spelled = { λ _. refl };
}
