#![tactic(auto)]
//! What tables store and compare.
//!
//! - [`StringKind`], [`KindOwned`], [`KindForm`], [`PackedForm`]: kinds of strings; [`ContentOf`], [`Keyed`],
//!   [`Content`], [`Spells`], [`Packable`]: their contents and forms.
//! - [`Store`], [`ByteStore`], [`SoughtIn`], [`AddedTo`], [`CopiedTo`], [`Lends`], [`LookedUpIn`],
//!   [`SpelledStore`], [`SpellingStore`]: where contents are kept.
//! - [`doubled`]: how much room a growth makes.
//! - [`Forms`], [`Pairs`]: iterators over a store; [`OfKind`] is what names an iterator after its kind.
//! - [`Work`]: what a call did, for contracts. [`feed_item`], [`same_bytes`]: kinds compared by bytes.

mod content;
mod content_of;
mod feed;
mod forms;
mod growth;
mod kind;
mod of_kind;
mod pairs;
mod same;
mod spelling;
mod spelling_store;
mod store;
mod vec_store;
mod work;

pub use content::{Content, Keyed, Sought, Spelled};
pub use content_of::ContentOf;
pub use feed::feed_item;
pub use forms::Forms;
pub use growth::doubled;
pub use kind::{KindForm, KindOwned, Packable, PackedForm, Spells, StringKind};
pub use of_kind::OfKind;
pub use pairs::Pairs;
pub use same::same_bytes;
pub use spelling::Spelling;
pub use spelling_store::SpellingStore;
pub use store::{
    AddedTo, ByteStore, Copied, CopiedTo, Lends, LookedUpIn, Moved, SoughtIn, SpelledStore, Store,
};
pub use work::Work;
