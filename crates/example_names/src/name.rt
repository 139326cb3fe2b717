//! A kind of strings of this crate's own: names, which are equal if they differ
//! only in the case of ASCII letters.
ghost use Rattle.std.specs.Prelude.{◌≡◌, refl, IsUtf8, string_bytes};
ghost use Rattle.example_names.specs.Letters.{letters, name_text};

use intaglio::{ContentOf, Keyed, KindForm, KindOwned, Packable, PackedForm, Spells, StringKind};
use std::alloc::{AllocError, Global};
use std::hash::Hasher;
use std::str;

/// The kind of names. They are compared and hashed by their letters in lower case.
pub struct NameKind;

/// A name that a table stores: a `&'static str` or a `String`.
pub type NameContent = ContentOf<NameKind>;

/// A borrowed name, by which a table is searched, and which it returns.
#[derive(Clone, Copy)]
pub struct Name<'a> {
    text: &'a str,
}

impl<'a> Name<'a> {
    /// The name that is spelled so.
    #[inline(always)]
    pub fn new(text: &'a str) -> Name<'a>
        ensures { name_text result ≡ text.now }
    {
        Name { text }
    }

    /// The text as it was passed in.
    #[inline(always)]
    pub fn as_str(self) -> &'a str
        ensures { result.now ≡ name_text self.entry }
    {
        self.text
    }
}

impl StringKind for NameKind {
    ghost key_of = { letters };

    ghost is_spelling = { IsUtf8 };

    // Each letter is an item of the key: its byte in lower case, and the byte that ends an item.
    fn feed_spelling<H: Hasher>(spelling: &[u8], hasher: &mut H) {
        let mut rest = spelling;
        while let [first, behind @ ..] = rest {
            hasher.write(&[first.to_ascii_lowercase()]);
            hasher.write_u8(255);
            rest = behind;
        }
    }

    #[tactic(auto, using(crate::proofs::LetterLemmas::same_singles))]
    fn same_spellings(a: &[u8], b: &[u8]) -> bool {
        a.eq_ignore_ascii_case(b)
    }
}

impl Spells<NameKind> for &str {
    ghost spelled = { λ text. text.now };

    fn spelled_bytes(&self) -> &[u8] {
        self.as_bytes()
    }
}

impl Spells<NameKind> for String {
    ghost spelled = { string_bytes };

    fn spelled_bytes(&self) -> &[u8] {
        self.as_str().as_bytes()
    }
}

impl<'a> Spells<NameKind> for Name<'a> {
    ghost spelled = { name_text };

    fn spelled_bytes(&self) -> &[u8] {
        self.as_str().as_bytes()
    }
}

impl<'a> Keyed for Name<'a> {
    ghost key = { λ name. letters (name_text name) };
}

impl<'a> Packable<NameKind> for Name<'a> {
    ghost key_of_spelled = { λ _. refl };
}

impl KindOwned for NameKind {
    type Static = &'static str;

    type Owned = String;

    fn copy(alloc: Global, spelling: &[u8]) -> Result<String, AllocError> {
        String::from_str(alloc, unsafe { str::from_utf8_unchecked(spelling) })
    }
}

impl<'a> KindForm<'a> for NameKind {
    type Form = Name<'a>;

    fn lend(content: &'a NameContent) -> Name<'a> {
        name_of(content.spelling())
    }
}

impl<'a> PackedForm<'a> for NameKind {
    fn form_of(spelling: &'a [u8]) -> Name<'a> {
        name_of(spelling)
    }
}

// The name whose text has these bytes.
fn name_of(spelling: &[u8]) -> Name<'_>
    requires { IsUtf8 spelling.now }
    ensures { name_text result ≡ spelling.now }
{
    Name::new(unsafe { str::from_utf8_unchecked(spelling) })
}
