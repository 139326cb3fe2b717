//! How many bytes a code has.
ghost use Rattle.std.specs.Prelude.{◌≡◌, ◌+◌, ◌*◌, ◌<◌, ◌≤◌};
ghost use Rattle.intaglio_columns.specs.Width.{bytes_of, width_for};

/// How many bytes a code of a column has.
#[derive(Debug, Clone, Copy, PartialEq, Eq)]
pub enum Width {
    /// One byte, for a dictionary of at most 255 strings.
    One,
    /// Two bytes, for at most 65,535 strings.
    Two,
    /// Four bytes.
    Four,
}

impl Width {
    /// The least width that serves the codes of so many strings and the missing one.
    pub fn of(strings: u64) -> Width
        ensures { result ≡ width_for strings }
    {
        if strings <= 0xff {
            Width::One
        } else if strings <= 0xffff {
            Width::Two
        } else {
            Width::Four
        }
    }

    /// The number of bytes.
    #[inline(always)]
    pub fn bytes(self) -> usize
        ensures { result ≡ bytes_of self }
    {
        match self {
            Width::One => 1,
            Width::Two => 2,
            Width::Four => 4,
        }
    }

    // How many codes of this width so many bytes have.
    pub(crate) fn codes_in(self, room: usize) -> usize
        ensures fit { bytes_of self * result ≤ room }
        ensures most { room < bytes_of self * (result + 1) }
    {
        match self {
            Width::One => room,
            Width::Two => room / 2,
            Width::Four => room / 4,
        }
    }
}
