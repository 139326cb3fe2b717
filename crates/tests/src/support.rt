//! What tests of tables share: hash builders with known hashes, which count their hashers; strings of each
//! kind, made from their spellings; and tables over each store, with the calls that change them.

pub mod builders;
pub mod kinds;
pub mod replies;
pub mod tables;
