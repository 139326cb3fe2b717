//! What the lines of an input are interned as.
ghost use Rattle.std.specs.Prelude.{◌≡◌, ◌↔◌, [], ◌∷◌, IsTrue, map, string_bytes};
ghost use Rattle.intaglio_lines.specs.Kind.{Allows, kind_of_words};

/// What the lines of an input are interned as.
#[derive(Clone, Copy, Debug, PartialEq, Eq)]
pub enum Kind {
    /// Texts.
    Text,
    /// Bytes.
    Bytes,
    /// Byte strings that are text by convention.
    BStr,
    /// C strings.
    CStr,
    /// OS strings.
    OsStr,
    /// Paths, compared by their components.
    Path,
}

impl Kind {
    /// The kind that the arguments after the program's name name: there must be
    /// one argument, the kind's name.
    pub fn from_words(words: &[String]) -> Option<Kind>
        ensures { result ≡ kind_of_words (map string_bytes words.now) }
    {
        match words {
            [word] => Kind::from_word(word.as_str()),
            _ => None,
        }
    }

    // The kind with this name.
    fn from_word(word: &str) -> Option<Kind>
        ensures { result ≡ kind_of_words (word.now ∷ []) }
    {
        match word {
            "text" => Some(Kind::Text),
            "bytes" => Some(Kind::Bytes),
            "bstr" => Some(Kind::BStr),
            "cstr" => Some(Kind::CStr),
            "osstr" => Some(Kind::OsStr),
            "path" => Some(Kind::Path),
            _ => None,
        }
    }

    /// Whether an input can be split into lines of this kind. Some kinds require UTF-8.
    pub fn allows(self, input: &[u8]) -> bool
        ensures { IsTrue result ↔ Allows self input.now }
    {
        match self {
            Kind::Text | Kind::OsStr | Kind::Path => str::from_utf8(input).is_ok(),
            Kind::Bytes | Kind::BStr | Kind::CStr => true,
        }
    }
}
