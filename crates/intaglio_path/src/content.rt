//! Paths as contents.
ghost use Rattle.std.specs.Prelude.{◌≡◌, refl, IsUtf8, string_bytes};
ghost use Rattle.intaglio_path.specs.Components.{components};
ghost use Rattle.intaglio_path.specs.Path.{path_text};

use crate::path::Path;
use intaglio_content::{
    ContentOf, Keyed, KindForm, KindOwned, Packable, PackedForm, Spells, StringKind,
};
use std::alloc::{AllocError, Global};
use std::hash::{Hash, Hasher};
use std::str;

/// The kind of paths. They are compared by their components.
pub struct PathKind;

/// A path that a table stores: a `&'static str` or a `String`.
pub type PathContent = ContentOf<PathKind>;

impl StringKind for PathKind {
    ghost key_of = { components };

    ghost is_spelling = { IsUtf8 };

    fn feed_spelling<H: Hasher>(spelling: &[u8], hasher: &mut H) {
        path_of(spelling).hash(hasher);
    }

    #[tactic(auto, using(crate::specs::Components::same_components_decides))]
    fn same_spellings(a: &[u8], b: &[u8]) -> bool {
        path_of(a) == path_of(b)
    }
}

impl Spells<PathKind> for &str {
    ghost spelled = { λ text. text.now };

    #[inline(always)]
    fn spelled_bytes(&self) -> &[u8] {
        self.as_bytes()
    }
}

impl Spells<PathKind> for String {
    ghost spelled = { string_bytes };

    #[inline(always)]
    fn spelled_bytes(&self) -> &[u8] {
        self.as_str().as_bytes()
    }
}

impl<'a> Spells<PathKind> for Path<'a> {
    ghost spelled = { path_text };

    #[inline(always)]
    fn spelled_bytes(&self) -> &[u8] {
        self.as_str().as_bytes()
    }
}

impl<'a> Keyed for Path<'a> {
    ghost key = { λ path. components (path_text path) };
}

impl<'a> Packable<PathKind> for Path<'a> {
    ghost key_of_spelled = { λ _. refl };
}

impl KindOwned for PathKind {
    type Static = &'static str;

    type Owned = String;

    fn copy(alloc: Global, spelling: &[u8]) -> Result<String, AllocError> {
        String::from_str(alloc, unsafe { str::from_utf8_unchecked(spelling) })
    }
}

impl<'a> KindForm<'a> for PathKind {
    type Form = Path<'a>;

    #[inline(always)]
    fn lend(content: &'a PathContent) -> Path<'a> {
        path_of(content.spelling())
    }
}

impl<'a> PackedForm<'a> for PathKind {
    #[inline(always)]
    fn form_of(spelling: &'a [u8]) -> Path<'a> {
        path_of(spelling)
    }
}

// The path whose text has these bytes.
#[inline(always)]
fn path_of(spelling: &[u8]) -> Path<'_>
    requires { IsUtf8 spelling.now }
    ensures { path_text result ≡ spelling.now }
{
    Path::new(unsafe { str::from_utf8_unchecked(spelling) })
}
