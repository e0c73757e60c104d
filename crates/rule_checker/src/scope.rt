//! What is known at a place of the module.

use crate::items::Items;
use alloc_effects::Allowed;
use area_types::ValueType;
use iv_words::{Seq, Word};
use name_lists::NameList;

/// A parameter, or a name of `let`, `alloc` or a loop, with its type, where it has one.
#[derive(Drop)]
pub struct Local {
    pub name: Word,
    pub ty: Option<ValueType>,
}

/// The items before the place, the names of all areas, imports and procedures of the module, and of the procedure around the place its
/// region parameters by number, its result, what is allowed, and the names in scope.
#[derive(Drop)]
pub struct Context {
    pub items: Items,
    pub names: NameList,
    pub regions: Seq<Word>,
    pub gives: bool,
    pub result: Option<ValueType>,
    pub in_ensures: bool,
    pub allowed: Allowed,
    pub scope: Seq<Local>,
}
