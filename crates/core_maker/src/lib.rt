//! The core of a module without a fault: each name becomes a number, each expression gets its type, and each check its number.
#![tactic(auto)]

mod before;
mod calls;
mod expressions;
mod inits;
mod joining;
mod leaves;
mod place;

pub use calls::call;
pub use core_parts::{check, first_token, number, owned, stored_type};
pub use expressions::expression;
pub use inits::init;
pub use leaves::core_type;
pub use place::{Place, own};
