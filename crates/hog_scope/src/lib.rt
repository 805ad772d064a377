//! What each word of a tree names: the variable of a declaration, a native or a global; and its literal texts.
//! Stands on hog_tree and hog_value.
//! Above, `resolve` answers a `Scoped` with one item for each word of the tree that names something, in the order
//! of the source, or the first fault (`resolution` in specs/Stops.antt, by the scope rules of specs/Scopes.antt),
//! and `literals` the distinct literal texts in byte order.
#![tactic(auto)]

mod item;
mod resolver;
mod scope;
mod scoped;
mod stop;
mod texts;
mod words;

pub use item::Item;
pub use scoped::{Scoped, resolve};
pub use stop::ScopeStop;
pub use texts::literals;
