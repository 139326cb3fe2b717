//! What holds of hashes. The functions do nothing: the contract of each is a law.
ghost use Rattle.std.specs.Prelude.{◌≡◌};
ghost use Rattle.std.specs.Hash.BuildHasherDefault.{initial_hasher};
ghost use Rattle.std.specs.Hash.FoldHasher.{initial};
ghost use Rattle.intaglio_hash.specs.FixedState.{HasStdHashes};

use crate::fixed_state::FixedState;
use std::hash::{BuildHasherDefault, FoldHasher};

/// For the same writes, a hasher of [`FixedState`] and one of std's builder of fixed seed return the same
/// hash.
pub fn fixed_hashes_law(fixed: FixedState, std: &BuildHasherDefault<FoldHasher>)
    requires { initial_hasher std.now ≡ initial }
    ensures { HasStdHashes fixed std.now }
{}
