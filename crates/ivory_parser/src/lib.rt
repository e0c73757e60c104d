//! Reads the tokens of a module as its tree: recursive descent over slices of tokens, each function as its reader in the
//! grammar.
#![tactic(auto)]

mod answer;
mod contracts;
mod fields;
mod header;
mod item;
mod module;

pub use answer::{SyntaxFault, parse};
pub use ivory_tree::{
    AreaField, AreaItem, AreaKind, AreaText, BinOp, BitField, BitsItem, Block, CallText, Contract,
    Expr, ExprKind, Header, InitText, Item, Link, Module, Param, PrefixOp, ProcItem, RefText,
    RegionText, Step, Stmt, StmtKind, StructItem, TypeKind, TypeText,
};
