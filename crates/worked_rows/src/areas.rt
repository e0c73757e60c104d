ghost use Rattle.std.specs.Prelude.{ℕ, IfOk, IsTrue};
ghost use Rattle.area_types.specs.Tables.{is_area};
ghost use Rattle.area_types.specs.View.{area_of, shape_of};

use area_types::{
    Area, AreaFault, AreaShape, FieldDef, RefType, Region, StructDef, StructTable, ValueType,
    cell_at, cells, intern, nodes,
};
use iv_words::{Box, IntKind, Memory, Seq, Word};
use std::alloc::Global;

fn number(alloc: Global, kind: IntKind) -> Result<Area, Memory> {
    Ok(Area::Stored(Box::new(alloc, ValueType::Int(kind))?))
}

fn field(alloc: Global, name: &[u8], area: Area) -> Result<FieldDef, Memory> {
    Ok(FieldDef {
        name: Word::from_slice(alloc, name)?,
        area,
    })
}

/// `a : uint8_t; b : [2] uint32_t;`
fn pair_fields(alloc: Global) -> Result<Seq<FieldDef>, Memory> {
    let mut fields = Seq::new(alloc);
    fields.push(field(alloc, b"a", number(alloc, IntKind::U8)?)?)?;
    let element = Box::new(alloc, number(alloc, IntKind::U32)?)?;
    fields.push(field(alloc, b"b", Area::Array(2, element))?)?;
    Ok(fields)
}

/// A table with the one struct `S { a : uint8_t; b : [2] uint32_t; }`.
fn pair_table(alloc: Global) -> Result<StructTable, Memory> {
    let mut table = StructTable::new(alloc);
    let pair = StructDef {
        name: Word::from_slice(alloc, b"S")?,
        fields: pair_fields(alloc)?,
    };
    if table.struct_fits(&pair) {
        table.add_struct(pair)?;
    }
    Ok(table)
}

fn pair_area(alloc: Global, table: &StructTable) -> Result<Area, AreaFault>
    ensures { IfOk result (λ area. IsTrue (is_area table.now (area_of area))) }
{
    let name = Word::from_slice(alloc, b"S")?;
    intern(alloc, &AreaShape::Struct(name), table)
}

fn path_of(alloc: Global, steps: &[u32]) -> Result<Seq<u32>, Memory> {
    let mut path = Seq::with_capacity(alloc, steps.len())?;
    for step in steps {
        path.push(*step)?;
    }
    Ok(path)
}

/// The number of the first cell of what was found, where it is such an area.
fn first_of(found: &Option<(u32, Area)>, wanted: &Area) -> Option<u32> {
    match found {
        Some((first, area)) => {
            if area.same(wanted) {
                Some(*first)
            } else {
                None
            }
        }
        None => None,
    }
}

#[test]
fn a_struct_is_counted(rt: HostRuntime) -> Result<(), AreaFault> {
    let alloc = rt.alloc();
    let table = pair_table(alloc)?;
    let area = pair_area(alloc, &table)?;
    assert_eq!(rt; cells(&area, &table), 3);
    assert_eq!(rt; nodes(&area, &table), 5);
    Ok(())
}

/// What stands behind a path into that struct.
fn part_at(alloc: Global, steps: &[u32]) -> Result<Option<(u32, Area)>, AreaFault> {
    let table = pair_table(alloc)?;
    let area = pair_area(alloc, &table)?;
    Ok(cell_at(alloc, &area, &table, &path_of(alloc, steps)?)?)
}

/// The number of the first cell behind a path, where a `uint32_t` stands there.
fn cell_behind(alloc: Global, steps: &[u32]) -> Result<Option<u32>, AreaFault> {
    let wanted = number(alloc, IntKind::U32)?;
    let found = part_at(alloc, steps)?;
    Ok(first_of(&found, &wanted))
}

#[test]
fn paths_lead_to_cells(rt: HostRuntime) -> Result<(), AreaFault> {
    let alloc = rt.alloc();
    assert_eq!(rt; cell_behind(alloc, &[1, 1])?, Some(2));
    assert_eq!(rt; cell_behind(alloc, &[1, 2])?, None);
    Ok(())
}

/// The fault of an array of numbers, over an empty table.
fn fault_of(alloc: Global, length: u64, kind: IntKind) -> Result<Option<AreaFault>, Memory> {
    let element = Box::new(alloc, AreaShape::Stored(ValueType::Int(kind)))?;
    match intern(
        alloc,
        &AreaShape::Array(length, element),
        &StructTable::new(alloc),
    ) {
        Ok(_) => Ok(None),
        Err(fault) => Ok(Some(fault)),
    }
}

#[test]
fn arrays_are_interned_or_refused(rt: HostRuntime) -> Result<(), Memory> {
    let alloc = rt.alloc();
    assert_eq!(rt; fault_of(alloc, 65_535, IntKind::U8)?, None);
    assert_eq!(rt;
        fault_of(alloc, 65_536, IntKind::U8)?,
        Some(AreaFault::ZeroLength)
    );
    assert_eq!(rt;
        fault_of(alloc, 16_384, IntKind::U32)?,
        Some(AreaFault::TooLarge)
    );
    Ok(())
}

#[test]
fn an_absent_struct_is_refused(rt: HostRuntime) -> Result<(), Memory> {
    let alloc = rt.alloc();
    let absent = AreaShape::Struct(Word::from_slice(alloc, b"S")?);
    let fault = intern(alloc, &absent, &StructTable::new(alloc));
    assert_eq!(rt; fault.err(), Some(AreaFault::LaterStruct));
    Ok(())
}

fn is_struct(shape: &AreaShape) -> bool {
    match shape {
        AreaShape::Struct(name) => name.len() == 1,
        AreaShape::Stored(_) | AreaShape::Array(_, _) => false,
    }
}

#[test]
fn a_table_is_copied(rt: HostRuntime) -> Result<(), Memory> {
    let alloc = rt.alloc();
    let mut table = pair_table(alloc)?;
    table.add_word(IntKind::U16)?;
    let copy = table.copy(alloc)?;
    assert_eq!(rt; (copy.structs.len(), copy.words.len()), (1, 1));
    Ok(())
}

#[test]
fn shapes_and_types_are_copied(rt: HostRuntime) -> Result<(), Memory> {
    let alloc = rt.alloc();
    let shape = AreaShape::Struct(Word::from_slice(alloc, b"S")?);
    let shape_copy = shape.copy(alloc)?;
    assert!(rt; is_struct(&shape_copy));
    let reference = ValueType::Ref(RefType {
        constant: true,
        region: Region::Param(1),
        area: Area::Struct(0),
    });
    let reference_copy = reference.copy(alloc)?;
    assert!(rt; reference_copy.same(&reference));
    Ok(())
}
