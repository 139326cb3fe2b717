//! What holds of the traits that symbols and marks derive.
//!
//! The contract of each function is a law: what a caller of the derived traits can rely on.
ghost use Rattle.std.specs.Prelude.{◌≡◌, ◌==◌, Some, fold};
ghost use Rattle.std.specs.Hash as fed;
ghost use Rattle.std.specs.Ordering.{nat_cmp};

use crate::mark::Mark;
use crate::symbol::Symbol;
use std::cmp::Ordering;
use std::hash::{Hash, Hasher};

/// Symbols are equal, ordered and hashed as their numbers.
///
/// Returns what `==`, `partial_cmp` and `cmp` return for the two, and feeds the first into the hasher.
pub fn symbol_law<H: Hasher>(
    left: Symbol,
    right: Symbol,
    state: &mut H,
) -> (bool, Option<Ordering>, Ordering)
    ensures equality { result.0 ≡ (left == right) }
    ensures partial_order { result.1 ≡ Some (nat_cmp left right) }
    ensures order { result.2 ≡ nat_cmp left right }
    ensures hash { state.new ≡ fold H.write state.old (fed.u32 left) }
{
    left.hash(state);
    (left == right, left.partial_cmp(&right), left.cmp(&right))
}

/// Marks are equal, ordered and hashed as their counts.
///
/// Returns what `==`, `partial_cmp` and `cmp` return for the two, and feeds the first into the hasher.
pub fn mark_law<H: Hasher>(
    left: Mark,
    right: Mark,
    state: &mut H,
) -> (bool, Option<Ordering>, Ordering)
    ensures equality { result.0 ≡ (left == right) }
    ensures partial_order { result.1 ≡ Some (nat_cmp left right) }
    ensures order { result.2 ≡ nat_cmp left right }
    ensures hash { state.new ≡ fold H.write state.old (fed.usize left) }
{
    left.hash(state);
    (left == right, left.partial_cmp(&right), left.cmp(&right))
}
