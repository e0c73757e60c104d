ghost use Rattle.std.specs.Prelude.{◌≡◌, [], ◌∷◌, codes, IfOk};
ghost use Rattle.c_ast.specs.LayoutExamples.{one, int_of, pair};

use c_ast::{
    Arith, CBase, CBinary, CExpr, CFunction, CKind, CMember, CParam, CPlace, CScalar, CStruct,
    CType, CUnit, Suffix, Target, align_of, c_exports, common, convert, offset_of, promote,
    size_of,
};
use iv_words::{Box, IntKind, Memory, Seq, Word};
use run_records::Plain;
use std::alloc::Global;

#[test]
fn promotes_and_finds_common_types(rt: HostRuntime) {
    let promoted = [(IntKind::U16, Arith::Int), (IntKind::U32, Arith::UInt)];
    for (kind, arith) in promoted {
        assert_eq!(rt; promote(Target::T32, CScalar::Int(kind)), arith);
    }
    let commons = [
        (Arith::Long, Arith::UInt, Arith::ULong),
        (Arith::UInt, Arith::LongLong, Arith::LongLong),
    ];
    for (a, b, arith) in commons {
        assert_eq!(rt; common(Target::T32, a, b), arith);
    }
}

#[test]
fn converts_numbers(rt: HostRuntime) {
    let signed = CKind::Scalar(CScalar::Int(IntKind::I8));
    let rows = [
        (signed, 128, None),
        (signed, -128, Some(-128)),
        (CKind::Scalar(CScalar::Int(IntKind::U8)), -1, Some(255)),
        (CKind::Arith(Arith::ULong), -1, Some(4294967295)),
        (CKind::Scalar(CScalar::Truth), i128::MIN, Some(1)),
    ];
    for (kind, number, converted) in rows {
        assert_eq!(rt; convert(Target::T32, kind, number), converted);
    }
}

fn word(alloc: Global, text: &str) -> Result<Word, Memory>
    ensures { IfOk result (λ w. w ≡ text.now) }
{
    Word::from_slice(alloc, text.as_bytes())
}

fn member(alloc: Global, name: &str, kind: IntKind) -> Result<CMember, Memory>
    ensures { IfOk result (λ m. m ≡ one name.now (int_of kind)) }
{
    Ok(CMember {
        name: word(alloc, name)?,
        base: CBase::Scalar(CScalar::Int(kind)),
        length: None,
    })
}

/// `struct pair { uint8_t a; uint32_t b; };`
fn pair_struct(alloc: Global) -> Result<CStruct, Memory>
    ensures { IfOk result (λ s. s ≡ pair) }
{
    let mut members = Seq::new(alloc);
    members.push(member(alloc, "a", IntKind::U8)?)?;
    members.push(member(alloc, "b", IntKind::U32)?)?;
    let name = word(alloc, "pair")?;
    Ok(CStruct { name, members })
}

/// That struct, and a function `bool iv_f(uint8_t const x)`.
fn unit(alloc: Global) -> Result<CUnit, Memory>
    ensures { IfOk result (λ u. u.structs ≡ pair ∷ []) }
{
    let mut structs = Seq::new(alloc);
    structs.push(pair_struct(alloc)?)?;
    let mut functions = Seq::new(alloc);
    functions.push(function(alloc)?)?;
    Ok(CUnit {
        structs,
        externs: Seq::new(alloc),
        objects: Seq::new(alloc),
        functions,
    })
}

fn function(alloc: Global) -> Result<CFunction, Memory> {
    let mut params = Seq::new(alloc);
    params.push(CParam {
        name: word(alloc, "x")?,
        ty: CType::Value(CScalar::Int(IntKind::U8)),
    })?;
    Ok(CFunction {
        hidden: false,
        name: word(alloc, "iv_f")?,
        params,
        result: CType::Value(CScalar::Truth),
        body: Seq::new(alloc),
    })
}

#[test]
#[tactic(auto, unfolding(type_trees::specs::Multiples::up))]
fn lays_a_struct_out(rt: HostRuntime) -> Result<(), Memory> {
    let alloc = rt.alloc();
    let unit = unit(alloc)?;
    let tag = word(alloc, "pair")?;
    let member = word(alloc, "b")?;
    assert_eq!(rt; offset_of(Target::T32, &unit, &tag, &member), 4);
    let base = CBase::Struct(tag);
    assert_eq!(rt; size_of(Target::T32, &unit, &base), 8);
    assert_eq!(rt; align_of(Target::T32, &unit, &base), 4);
    Ok(())
}

#[test]
fn exports_a_plain_function(rt: HostRuntime) -> Result<(), Memory> {
    let alloc = rt.alloc();
    let exports = c_exports(alloc, &unit(alloc)?)?;
    assert_eq!(rt; exports.len(), 1);
    if let Some(export) = exports.get(0) {
        assert_eq!(rt; export.name.as_slice(), b"f".as_slice());
        assert_eq!(rt;
            export.params.as_slice(),
            [Plain::Int(IntKind::U8)].as_slice()
        );
        assert_eq!(rt; export.result, Some(Plain::Truth));
    }
    Ok(())
}

/// `((struct pair *)(NUMBERu + x))`
fn expression(alloc: Global, number: u64) -> Result<CExpr, Memory> {
    let left = Box::new(alloc, CExpr::Number(number, Suffix::U))?;
    let right = CExpr::Read(CPlace::Var(word(alloc, "x")?));
    let sum = CExpr::Binary(CBinary::Add, left, Box::new(alloc, right)?);
    let pointer = CType::Pointer(false, CBase::Struct(word(alloc, "pair")?));
    Ok(CExpr::Cast(pointer, Box::new(alloc, sum)?))
}

/// The number in such an expression.
fn number_in(e: &CExpr) -> Option<u64> {
    let CExpr::Cast(CType::Pointer(false, CBase::Struct(_)), sum) = e else {
        return None;
    };
    let CExpr::Binary(CBinary::Add, left, _) = sum.get() else {
        return None;
    };
    match left.get() {
        CExpr::Number(number, Suffix::U) => Some(*number),
        _ => None,
    }
}

#[test]
fn copies_a_unit(rt: HostRuntime) -> Result<(), Memory> {
    let alloc = rt.alloc();
    let made = unit(alloc)?;
    assert!(rt; made.copy(alloc)? == made);
    Ok(())
}

#[test]
fn copies_an_expression(rt: HostRuntime) -> Result<(), Memory> {
    let alloc = rt.alloc();
    for number in [5, 6] {
        let copy = expression(alloc, number)?.copy(alloc)?;
        assert_eq!(rt; number_in(&copy), Some(number));
    }
    Ok(())
}
