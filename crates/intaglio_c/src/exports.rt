//! The calls that C sees. A handle knows the kind of its table, so one function serves all kinds; the header
//! also has names for each. A frozen table has no handle, and neither has a column: they are their bytes.
ghost use Rattle.std.specs.Prelude.{◌≡◌};

// The table of a handle, lent. Without a table the call returns at once: `NoTable`, or what is given.
macro_rules! table_of {
    ($handle:ident) => {
        table_of!($handle, code(failed(Refusal::NoTable)))
    };
    ($handle:ident, $without:expr) => {{
        if !$handle.live {
            return $without;
        }
        $handle.ptr.table_mut()
    }};
}

// The value of a result. After an error the call returns at once: its code, or what is given.
macro_rules! or_code {
    ($result:expr) => {
        match $result {
            Ok(value) => value,
            Err(error) => return code(failed(Refusal::from(error))),
        }
    };
    ($result:expr, $without:expr) => {
        match $result {
            Ok(value) => value,
            Err(_) => return $without,
        }
    };
}

// Writes a part of what was found, if something was, and returns whether it was.
macro_rules! write_found {
    ($found:expr, $part:ident => $place:ident = $value:expr) => {
        match $found {
            Some($part) => {
                *$place = $value;
                true
            }
            None => false,
        }
    };
}

mod columns;
mod frozen;
mod shards;
mod strings;
mod tables;

/// Returns the version of the library: its first number times 10000, its second times 100, and its third.
#[unsafe(no_mangle)]
pub extern "C" fn intaglio_version() -> u32
    ensures version { result ≡ 30000 }
{
    30000
}
