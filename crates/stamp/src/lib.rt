//! How a version is named and when it holds: names of transactions, windows of versions, and what
//! a reader brings to a look-up. Promises that names are ordered by run, then by id. Which
//! versions a view admits is for `kv_model` to say.
#![tactic(auto)]

mod name;
mod version;
mod view;

pub use name::Name;
pub use version::{Version, Window};
pub use view::View;
