//! The resolved module: each name a number, each expression with its type, and each check with its number.
#![tactic(auto)]

mod check;
mod exports;
mod expr;
mod init;
mod items;
pub mod laws;
mod resolved;
mod stmt;

pub use check::{Check, SiteKind};
pub use exports::exports_of;
pub use expr::{CoreExpr, CoreKind, CoreLink, CoreStep};
pub use init::CoreInit;
pub use items::{CoreArea, CoreContract, CoreImport, CoreParam, CoreProc};
pub use resolved::Core;
pub use stmt::{CoreCall, CoreStmt};
