//! Areas of memory and their types: what values they store, how many cells and bytes they have, what part a path leads to,
//! and which structs a table may hold. The idea of areas with types and of references with regions is that of Ivory.
#![tactic(auto)]

mod area;
mod copies;
mod count;
mod equality;
mod extent;
mod fault;
mod interning;
mod laws;
mod limits;
mod measure;
mod part;
mod region;
mod shape;
mod smallness;
mod structs;
mod table;

pub use area::{Area, RefType, ValueType};
pub use count::{cells, nodes};
pub use fault::AreaFault;
pub use interning::intern;
pub use laws::parts_are_areas;
pub use part::cell_at;
pub use region::Region;
pub use shape::AreaShape;
pub use smallness::{are_small, is_small};
pub use structs::{FieldDef, StructDef};
pub use table::StructTable;
