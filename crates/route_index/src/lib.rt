//! Which subscriptions match a subject or overlap with a pattern, by their tokens: a tree of them, and an index in the order of the patterns.
#![tactic(auto)]

mod beneath;
mod identifiers;
mod ids;
mod index;
mod names;
mod node_ids;
mod pattern;
mod route_tree;
mod search;
mod seek;
mod sub;
mod test;
mod token;
mod tree;

pub use index::RouteIndex;
pub use names::Names;
pub use route_tree::RouteTree;
pub use sub::Sub;
pub use test::Test;
