ghost use Rattle.std.specs.Prelude.{◌≡◌, pos, IfOk, IsTrue};
ghost use Rattle.iv_words.specs.Kinds.{in_range};
ghost use Rattle.c_ast.specs.View.{expr_of};
ghost use Rattle.c_ast.specs.declared.Target.TheVariants.{T32};
ghost use Rattle.overflow_checks.specs.Checks as checks;
ghost use Rattle.overflow_checks.specs.Contract.{IsOperand};

use c_ast::{CBinary, CExpr, CPlace, CUnary, Suffix, Target};
use int_ops::{Op, Stop, allowed, fits};
use iv_words::{IntKind, Memory, Word};
use overflow_checks::{compute, guard};
use std::alloc::Global;

// ---- expressions as texts, in which a cast is `c` and an operator has one byte

fn symbol(op: CBinary) -> u8 {
    match op {
        CBinary::Add => b'+',
        CBinary::Sub => b'-',
        CBinary::Mul => b'*',
        CBinary::Div => b'/',
        CBinary::Xor => b'^',
        CBinary::And => b'&',
        CBinary::Shr => b'>',
        CBinary::Eq => b'=',
        CBinary::Ne => b'#',
        CBinary::Lt => b'l',
        CBinary::Le => b'L',
        CBinary::Ge => b'G',
        CBinary::AndAlso => b'A',
        CBinary::OrElse => b'O',
        _ => b'x',
    }
}

const UNITS: [u64; 20] = [
    10000000000000000000,
    1000000000000000000,
    100000000000000000,
    10000000000000000,
    1000000000000000,
    100000000000000,
    10000000000000,
    1000000000000,
    100000000000,
    10000000000,
    1000000000,
    100000000,
    10000000,
    1000000,
    100000,
    10000,
    1000,
    100,
    10,
    1,
];

fn put_number(n: u64, out: &mut Word) -> Result<(), Memory> {
    for &unit in &UNITS {
        let quotient = n.checked_div(unit).unwrap_or(0);
        if quotient > 0 || unit == 1 {
            out.push(b'0' + (quotient % 10) as u8)?;
        }
    }
    Ok(())
}

fn put(e: &CExpr, out: &mut Word) -> Result<(), Memory> {
    match e {
        CExpr::Number(n, suffix) => {
            put_number(*n, out)?;
            if *suffix == Suffix::U {
                out.push(b'u')?;
            }
        }
        CExpr::Read(CPlace::Var(name)) => out.extend_from_slice(name.as_slice())?,
        CExpr::Unary(CUnary::Neg, e) => {
            out.push(b'n')?;
            put(e.get(), out)?;
        }
        CExpr::Binary(op, left, right) => {
            out.push(b'(')?;
            put(left.get(), out)?;
            out.push(symbol(*op))?;
            put(right.get(), out)?;
            out.push(b')')?;
        }
        CExpr::Cast(_, e) => {
            out.push(b'c')?;
            put(e.get(), out)?;
        }
        CExpr::Cond(test, first, second) => {
            out.push(b'?')?;
            put(test.get(), out)?;
            put(first.get(), out)?;
            put(second.get(), out)?;
        }
        _ => out.push(b'_')?,
    }
    Ok(())
}

fn text(alloc: Global, e: &CExpr) -> Result<Word, Memory> {
    let mut out = Word::new(alloc);
    put(e, &mut out)?;
    Ok(out)
}

// ---- operands

fn is_check(op: Op, kind: IntKind, which: Stop) -> bool
    ensures { result ≡ checks.is_check op kind which }
{
    let signed = matches!(
        kind,
        IntKind::I8 | IntKind::I16 | IntKind::I32 | IntKind::I64
    );
    match op {
        Op::Add | Op::Sub | Op::Mul | Op::Neg => matches!(which, Stop::Overflow),
        Op::Div | Op::Rem => match which {
            Stop::DivZero => true,
            Stop::Overflow => signed,
            Stop::Shift => false,
        },
        Op::Shl | Op::Shr => matches!(which, Stop::Shift),
        _ => false,
    }
}

#[tactic(auto, using(c_ast::proofs::View::read_is))]
fn name(alloc: Global, kind: IntKind, letter: u8) -> Result<CExpr, Memory>
    ensures { IfOk result (λ e. IsOperand T32 kind (expr_of e)) }
{
    let mut name = Word::new(alloc);
    name.push(letter)?;
    Ok(CExpr::Read(CPlace::Var(name)))
}

#[tactic(auto, using(c_ast::proofs::View::number_is))]
fn constant(kind: IntKind, n: u64) -> CExpr
    requires { IsTrue (in_range kind (pos n)) }
    ensures { IsOperand T32 kind (expr_of result) }
{
    CExpr::Number(n, Suffix::U)
}

/// A constant where there is a number that the kind has, else a name.
fn operand(alloc: Global, kind: IntKind, letter: u8, n: Option<u64>) -> Result<CExpr, Memory>
    ensures { IfOk result (λ e. IsOperand T32 kind (expr_of e)) }
{
    match n {
        Some(n) if fits(kind, i128::from(n)) => Ok(constant(kind, n)),
        _ => name(alloc, kind, letter),
    }
}

// ---- cases

/// An operator of a kind on names or constants, and its text.
#[derive(Clone, Copy, Drop)]
struct Case {
    op: Op,
    kind: IntKind,
    a: Option<u64>,
    b: Option<u64>,
    text: &'static [u8],
}

fn case_of(op: Op, kind: IntKind, a: Option<u64>, b: Option<u64>, text: &'static [u8]) -> Case {
    Case {
        op,
        kind,
        a,
        b,
        text,
    }
}

fn is_right_guard(alloc: Global, case: Case, which: Stop) -> Result<bool, Memory> {
    let Case { op, kind, .. } = case;
    if !(allowed(op, kind) && is_check(op, kind, which)) {
        return Ok(false);
    }
    let a = operand(alloc, kind, b'a', case.a)?;
    let b = operand(alloc, kind, b'b', case.b)?;
    let guard = guard(alloc, Target::T32, op, kind, which, a, b)?;
    Ok(text(alloc, &guard)?.as_slice() == case.text)
}

fn is_right_computation(alloc: Global, case: Case) -> Result<bool, Memory> {
    let Case { op, kind, .. } = case;
    if !allowed(op, kind) {
        return Ok(false);
    }
    let a = operand(alloc, kind, b'a', case.a)?;
    let b = operand(alloc, kind, b'b', case.b)?;
    let computation = compute(alloc, Target::T32, op, kind, a, b)?;
    Ok(text(alloc, &computation)?.as_slice() == case.text)
}

#[test]
fn guards_of_each_form(rt: HostRuntime) -> Result<(), Memory> {
    let cases = [
        (
            Stop::Overflow,
            case_of(Op::Add, IntKind::U8, None, None, b"(c(a+b)Ga)"),
        ),
        (
            Stop::Overflow,
            case_of(Op::Sub, IntKind::U32, None, Some(1), b"(c1uLa)"),
        ),
        (
            Stop::Overflow,
            case_of(Op::Mul, IntKind::U16, None, None, b"((ca*cb)L65535u)"),
        ),
        (
            Stop::Overflow,
            case_of(
                Op::Mul,
                IntKind::U64,
                Some(3),
                None,
                b"((c3u=0)O(bL(18446744073709551615u/c3u)))",
            ),
        ),
        (
            Stop::Overflow,
            case_of(
                Op::Add,
                IntKind::I8,
                None,
                None,
                b"(((a+b)G(n127-1))A((a+b)L127))",
            ),
        ),
        (
            Stop::Overflow,
            case_of(
                Op::Add,
                IntKind::I32,
                None,
                None,
                b"(((ca^(ca+cb))&(cb^(ca+cb)))l2147483648u)",
            ),
        ),
        (
            Stop::Overflow,
            case_of(Op::Neg, IntKind::I16, None, None, b"(aGn32767)"),
        ),
        (
            Stop::DivZero,
            case_of(Op::Rem, IntKind::I32, None, None, b"(b#0)"),
        ),
        (
            Stop::Overflow,
            case_of(
                Op::Div,
                IntKind::I64,
                None,
                None,
                b"((b#n1)O(aGn9223372036854775807))",
            ),
        ),
        (
            Stop::Shift,
            case_of(Op::Shl, IntKind::U32, None, None, b"(bl32)"),
        ),
    ];
    for (which, case) in &cases {
        assert!(rt; is_right_guard(rt.alloc(), *case, *which)?);
    }
    Ok(())
}

#[test]
fn computations_of_each_form(rt: HostRuntime) -> Result<(), Memory> {
    let cases = [
        case_of(Op::Add, IntKind::I32, None, Some(7), b"(a+c7u)"),
        case_of(Op::Mul, IntKind::U16, None, None, b"(ca*cb)"),
        case_of(Op::WrapMul, IntKind::U64, None, None, b"(a*b)"),
        case_of(Op::Neg, IntKind::I8, None, None, b"na"),
        case_of(Op::Le, IntKind::I64, None, None, b"(aLb)"),
    ];
    for case in &cases {
        assert!(rt; is_right_computation(rt.alloc(), *case)?);
    }
    Ok(())
}
