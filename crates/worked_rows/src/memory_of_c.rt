use c_ast::{CBase, CMember, CScalar, CStruct, Target};
use c_objects::{
    Base, Fault, ObjectType, Objects, Refusal, find_type, lay_type, make_types, size_of, type_of,
};
use iv_words::{IntKind, Memory, Seq, Word};
use std::alloc::Global;

const BYTE: CScalar = CScalar::Int(IntKind::U8);

const WIDE: CScalar = CScalar::Int(IntKind::U32);

#[test]
fn reads_what_was_written_until_the_end(rt: HostRuntime) -> Result<(), Memory> {
    let alloc = rt.alloc();
    let mut objects = Objects::new(alloc);
    objects.create(alloc, Target::T32, ObjectType::Scalar(BYTE))?;
    let unset = Err(Refusal::Fault(Fault::Indeterminate));
    assert_eq!(rt; objects.read(Target::T32, 0, 0, BYTE), unset);
    assert_eq!(rt; objects.write(Target::T32, 0, 0, BYTE, 200), Ok(()));
    assert_eq!(rt; objects.read(Target::T32, 0, 0, BYTE), Ok(200));
    assert!(rt; objects.is_live(0));
    objects.leave(0);
    assert_eq!(rt; objects.len(), 1);
    assert_eq!(rt;
        objects.refuses(Target::T32, 0, 0, BYTE),
        Ok(Some(Fault::Dead))
    );
    Ok(())
}

fn member(alloc: Global, name: &str, s: CScalar, length: Option<u32>) -> Result<CMember, Memory> {
    Ok(CMember {
        name: Word::from_slice(alloc, name.as_bytes())?,
        base: CBase::Scalar(s),
        length,
    })
}

/// `struct p { uint8_t a; uint32_t b[2]; };`
fn structs(alloc: Global) -> Result<Seq<CStruct>, Memory> {
    let mut members = Seq::new(alloc);
    members.push(member(alloc, "a", BYTE, None)?)?;
    members.push(member(alloc, "b", WIDE, Some(2))?)?;
    let name = Word::from_slice(alloc, b"p")?;
    let mut structs = Seq::new(alloc);
    structs.push(CStruct { name, members })?;
    Ok(structs)
}

#[test]
fn keeps_a_const_struct_with_padding(rt: HostRuntime) -> Result<(), Memory> {
    let alloc = rt.alloc();
    let types = make_types(alloc, structs(alloc)?.as_slice())?;
    let name = Word::from_slice(alloc, b"p")?;
    assert!(rt; find_type(types.as_slice(), &name).is_some());
    let ty = type_of(types.as_slice(), Base::Struct(&name));
    assert_eq!(rt; size_of(Target::T32, ty), Some(12));
    let mut objects = Objects::new(alloc);
    objects.initialize(alloc, Target::T32, ty, true, [1, 2, 3].as_slice())?;
    let rows = [
        (4, WIDE, Ok(2)),
        (1, BYTE, Err(Refusal::Fault(Fault::BadAccess))),
        (0, WIDE, Err(Refusal::Fault(Fault::BadAccess))),
    ];
    for (at, s, answer) in rows {
        assert_eq!(rt; objects.read(Target::T32, 0, at, s), answer);
    }
    assert_eq!(rt;
        objects.refuses(Target::T32, 0, 8, WIDE),
        Ok(Some(Fault::ConstWrite))
    );
    assert_eq!(rt;
        objects.refuses_cast(Target::T32, Base::Scalar(WIDE), 0, 8),
        Ok(None)
    );
    Ok(())
}

#[test]
fn moves_all_scalars(rt: HostRuntime) -> Result<(), Memory> {
    let alloc = rt.alloc();
    let types = make_types(alloc, structs(alloc)?.as_slice())?;
    let name = Word::from_slice(alloc, b"p")?;
    let ty = type_of(types.as_slice(), Base::Struct(&name));
    let mut places = Seq::new(alloc);
    lay_type(Target::T32, ty, 0, &mut places)?;
    let mut objects = Objects::new(alloc);
    objects.create(alloc, Target::T32, ty)?;
    let done = objects.write_each(Target::T32, 0, places.as_slice(), [7, 8, 9].as_slice());
    assert_eq!(rt; done, Ok(()));
    let mut values = Seq::new(alloc);
    let done = objects.read_each(Target::T32, 0, places.as_slice(), &mut values);
    assert_eq!(rt; done, Ok(()));
    assert_eq!(rt; values.as_slice(), [7, 8, 9].as_slice());
    Ok(())
}
