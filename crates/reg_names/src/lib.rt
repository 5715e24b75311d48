//! Names of objects: the index of names, in step with the facts, names both ways, and scopes.
#![tactic(auto)]

mod names;
mod naming;
mod resolving;
mod scopes;

pub use names::Names;
pub use naming::name_of;
pub use reg_facts::Scope;
pub use resolving::resolve;
pub use scopes::in_scope;
