//! What the earlier items of a module declare, each kind in order of declaration.

ghost use Rattle.std.specs.Prelude.{◌≡◌, ◌≤◌, length};
ghost use Rattle.rule_checker.specs.Named.{names_of_bits, names_of_structs, names_of_areas, names_of_callees, names_of_imports, names_of_procedures};

use area_types::{Area, StructDef, ValueType};
use iv_words::{Seq, Word};
use ivory_tree::BitsItem;
use name_lists::NameList;

/// An area of the module; it has no type where its text names none.
#[derive(Drop)]
pub struct AreaEntry {
    pub name: Word,
    pub constant: bool,
    pub area: Option<Area>,
}

/// An import or a procedure, with the types of its parameters and its result, where their texts name some.
#[derive(Drop)]
pub struct CalleeEntry {
    pub name: Word,
    pub import: bool,
    pub params: Seq<Option<ValueType>>,
    pub gives: bool,
    pub result: Option<ValueType>,
}

/// The names of imports and procedures together, and those of each kind, by which they are numbered.
#[derive(Drop)]
pub struct CalleeNames {
    pub all: NameList,
    pub imports: NameList,
    pub procedures: NameList,
}

/// The items before a place of the module, and the names of each kind, by which they are found. The numbers of bit data and of structs have 32 bits.
#[derive(Drop)]
pub struct Items {
    pub bits: Seq<BitsItem>,
    pub structs: Seq<StructDef>,
    pub areas: Seq<AreaEntry>,
    pub callees: Seq<CalleeEntry>,
    pub bit_names: NameList,
    pub struct_names: NameList,
    pub area_names: NameList,
    pub callee_names: CalleeNames,
    pub ghost few_bits: { length bits ≤ 4_294_967_295 },
    pub ghost few_structs: { length structs ≤ 4_294_967_295 },
    pub ghost bits_are_named: { bit_names ≡ names_of_bits bits },
    pub ghost structs_are_named: { struct_names ≡ names_of_structs structs },
    pub ghost areas_are_named: { area_names ≡ names_of_areas areas },
    pub ghost callees_are_named: { callee_names.all ≡ names_of_callees callees },
    pub ghost imports_are_named: { callee_names.imports ≡ names_of_imports callees },
    pub ghost procedures_are_named: { callee_names.procedures ≡ names_of_procedures callees },
}
