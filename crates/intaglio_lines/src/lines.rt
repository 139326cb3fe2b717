//! The first line of an input, and where it ends.
ghost use Rattle.std.specs.Prelude.{◌≡◌, ◌<◌, ◌==◌, ◌∷◌, length, position, IfSome};
ghost use Rattle.intaglio_lines.specs.Lines.{lines_of, Splits};

use memchr::memchr;

/// The first line of an input, and what follows it and its byte 10.
#[tactic(auto, using(crate::proofs::LineCuts::cuts, std::proofs::lemmas::Grind::common_steps))]
pub fn first_line(input: &[u8]) -> (&[u8], &[u8])
    requires { 0 < length input.now }
    ensures lines { lines_of input.now ≡ result.0.now ∷ lines_of result.1.now }
    ensures whole { Splits input.now result.0.now result.1.now }
    ensures shorter { length result.1.now < length input.now }
{
    match end_of_line(input) {
        Some(end) => (&input[..end], &input[end + 1..]),
        None => (input, &[]),
    }
}

/// The position of the first byte 10.
pub fn end_of_line(input: &[u8]) -> Option<usize>
    ensures place { result ≡ position (λ b. b == 10) input.now }
    ensures bound { IfSome result (λ end. end < length input.now) }
{
    memchr(b'\n', input)
}
