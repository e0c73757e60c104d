//! What the forms on numbers answer, by the types of their operands, and the checks that an answer passes.

ghost use Rattle.std.specs.Prelude.{◌≡◌, ◌&&◌, if◌then◌else◌};
ghost use Rattle.std.specs.Option.{option_map};
ghost use Rattle.iv_words.specs.Kinds.{in_range};
ghost use Rattle.iv_words.specs.declared.IntKind.TheVariants.{U16};
ghost use Rattle.area_types.specs.View.{type_of};
ghost use Rattle.core_meaning.specs.Answers as answers;
ghost use Rattle.core_meaning.specs.State.{seen};
ghost use Rattle.core_meaning.specs.Values.{Num};
ghost use Rattle.step_semantics.specs.Steps.{FailedCheck, halt, give, tick};
ghost use Rattle.core_state.specs.State.{value_of};
ghost use Rattle.core_expressions.specs.Operands.{answering_by};
ghost use Rattle.core_expressions.specs.Scopes.{core_in, Gives};
ghost use Rattle.core_expressions.specs.Forms.{unary_answer, binary_answer, first_site, NoHalt};

use crate::scope::Scope;
use area_types::ValueType;
use core_state::Value;
use core_tree::{Check, SiteKind};
use int_ops::{Op, Stop};
use iv_words::IntKind;
use run_records::Reason;
use run_world::{Halt, Stopped, World};

/// What the code does not follow: a number that the type of its form does not have. No well-typed module comes to it, and nothing
/// is said of a run that does.
pub(crate) fn not_followed() -> Stopped
    ensures { result ≡ Stopped.Memory }
{
    Stopped::Memory
}

/// A form that no valid module has: the run has no meaning.
pub(crate) fn formless() -> Stopped
    ensures { result ≡ Stopped.Halted (Halt.NoMeaning Reason.Dead) }
{
    Stopped::Halted(Halt::NoMeaning(Reason::Dead))
}

/// A form on one number.
#[derive(Clone, Copy, Drop)]
pub(crate) enum Unary {
    Cast(IntKind),
    Index(u32),
    Wrap(u32),
    Itself,
    Operator(Op, IntKind),
}

/// An operator on two numbers of a kind.
#[derive(Clone, Copy, Drop)]
pub(crate) struct Binary {
    pub op: Op,
    pub kind: IntKind,
}

/// `T(e)`.
pub(crate) fn cast_to(ty: &ValueType) -> Option<Unary>
    ensures { option_map unary_answer result ≡ answers.cast_to (type_of ty.now) }
{
    match ty {
        ValueType::Int(kind) => Some(Unary::Cast(*kind)),
        ValueType::Bool | ValueType::Ix(_) | ValueType::Bits(_) | ValueType::Ref(_) => None,
    }
}

/// `toix(N, e)`.
pub(crate) fn index_to(ty: &ValueType) -> Option<Unary>
    ensures { option_map unary_answer result ≡ answers.index_to (type_of ty.now) }
{
    match ty {
        ValueType::Ix(length) => Some(Unary::Index(*length)),
        ValueType::Bool | ValueType::Int(_) | ValueType::Bits(_) | ValueType::Ref(_) => None,
    }
}

/// `wrapix(N, e)`.
pub(crate) fn wrapped_to(ty: &ValueType) -> Option<Unary>
    ensures { option_map unary_answer result ≡ answers.wrapped_to (type_of ty.now) }
{
    match ty {
        ValueType::Ix(length) => Some(Unary::Wrap(*length)),
        ValueType::Bool | ValueType::Int(_) | ValueType::Bits(_) | ValueType::Ref(_) => None,
    }
}

/// A prefix operator on an operand of the type.
pub(crate) fn prefix_operation(op: Op, ty: &ValueType) -> Option<Unary>
    ensures { option_map unary_answer result ≡ answers.prefix_operation op (type_of ty.now) }
{
    match ty {
        ValueType::Int(kind) => Some(Unary::Operator(op, *kind)),
        ValueType::Bool | ValueType::Ix(_) | ValueType::Bits(_) | ValueType::Ref(_) => None,
    }
}

fn equates(op: Op) -> bool
    ensures { result ≡ answers.equates op }
{
    match op {
        Op::Eq | Op::Ne => true,
        Op::Lt | Op::Le | Op::Gt | Op::Ge => false,
        Op::Add | Op::Sub | Op::Mul | Op::Div | Op::Rem | Op::Neg => false,
        Op::Shl | Op::Shr | Op::And | Op::Or | Op::Xor | Op::Not => false,
        Op::WrapAdd | Op::WrapSub | Op::WrapMul => false,
    }
}

fn orders(op: Op) -> bool
    ensures { result ≡ answers.orders op }
{
    match op {
        Op::Lt | Op::Le | Op::Gt | Op::Ge => true,
        Op::Eq | Op::Ne => false,
        Op::Add | Op::Sub | Op::Mul | Op::Div | Op::Rem | Op::Neg => false,
        Op::Shl | Op::Shr | Op::And | Op::Or | Op::Xor | Op::Not => false,
        Op::WrapAdd | Op::WrapSub | Op::WrapMul => false,
    }
}

/// An operator on operands of the type. Indices and truths are compared alone.
pub(crate) fn operation(op: Op, ty: &ValueType) -> Option<Binary>
    ensures { option_map binary_answer result ≡ answers.operation op (type_of ty.now) }
{
    match ty {
        ValueType::Int(kind) => Some(Binary { op, kind: *kind }),
        ValueType::Ix(_) => compared(op, equates(op) || orders(op)),
        ValueType::Bool => compared(op, equates(op)),
        ValueType::Bits(_) | ValueType::Ref(_) => None,
    }
}

fn compared(op: Op, compares: bool) -> Option<Binary>
    ensures { option_map binary_answer result ≡ (if compares then Some (answers.in_kind op U16) else None) }
{
    if compares {
        Some(Binary {
            op,
            kind: IntKind::U16,
        })
    } else {
        None
    }
}

fn site_of(stop: Stop) -> SiteKind
    ensures { result ≡ answers.site_of stop }
{
    match stop {
        Stop::Overflow => SiteKind::Overflow,
        Stop::DivZero => SiteKind::DivZero,
        Stop::Shift => SiteKind::Shift,
    }
}

impl Binary {
    /// What the operator answers, on numbers of its kind.
    pub fn answer(self, a: i128, b: i128) -> Result<Result<i128, SiteKind>, Stopped>
        ensures { NoHalt result (λ answer. answer ≡ binary_answer self a b) }
    {
        if !int_ops::allowed(self.op, self.kind) || !in_range(self.kind, a, b) {
            return Err(not_followed());
        }
        match int_ops::apply(self.op, self.kind, a, b) {
            Ok(v) => Ok(Ok(v)),
            Err(stop) => Ok(Err(site_of(stop))),
        }
    }
}

fn in_range(kind: IntKind, a: i128, b: i128) -> bool
    ensures { result ≡ (in_range kind a && in_range kind b) }
{
    int_ops::fits(kind, a) && int_ops::fits(kind, b)
}

impl Unary {
    /// What the form answers, on a number of the type of its operand.
    pub fn answer(self, a: i128) -> Result<Result<i128, SiteKind>, Stopped>
        ensures { NoHalt result (λ answer. answer ≡ unary_answer self a) }
    {
        match self {
            Unary::Cast(kind) => Ok(held(int_ops::fits(kind, a), a, SiteKind::Cast)),
            Unary::Index(length) => {
                Ok(held(index_types::in_range(length, a), a, SiteKind::Index))
            }
            Unary::Wrap(length) => {
                if length == 0 || length > 65_535 {
                    return Err(not_followed());
                }
                Ok(Ok(i128::from(index_types::wrap_index(length, a))))
            }
            Unary::Itself => Ok(Ok(a)),
            Unary::Operator(op, kind) => Binary { op, kind }.answer(a, a),
        }
    }
}

/// The number, where it passes.
fn held(passes: bool, a: i128, failed: SiteKind) -> Result<i128, SiteKind>
    ensures { result ≡ (if passes then Ok a else Err failed) }
{
    if passes { Ok(a) } else { Err(failed) }
}

/// The site of the first check of the kind.
fn first_site(checks: &[Check], kind: SiteKind) -> Option<u32>
    ensures { result ≡ first_site checks.now kind }
{
    for check in checks {
        if kind == check.kind {
            return Some(check.site);
        }
    }
    None
}

/// A form that answers a number: its step, its checks, and then the number.
pub(crate) fn answering(
    scope: &Scope,
    world: &mut World,
    checks: &[Check],
    answer: &Result<i128, SiteKind>,
) -> Result<Value, Stopped>
    ensures { Gives scope.now value_of (answering_by (core_in scope.now) checks.now answer.now) world.old result world.new }
{
    match answer {
        Ok(v) => number(scope, world, *v),
        Err(kind) => match first_site(checks, *kind) {
            Some(site) => failure(scope, world, site),
            None => Err(formless()),
        },
    }
}

/// A step, and then the number.
pub(crate) fn number(scope: &Scope, world: &mut World, v: i128) -> Result<Value, Stopped>
    ensures { Gives scope.now value_of (tick (give (Num v))) world.old result world.new }
{
    world.tick()?;
    Ok(Value::Num(v))
}

/// A step, and then the check of the site fails.
fn failure(scope: &Scope, world: &mut World, site: u32) -> Result<Value, Stopped>
    ensures { Gives scope.now value_of (tick (halt (seen (core_in scope.now)) (FailedCheck site))) world.old result world.new }
{
    world.tick()?;
    Err(Stopped::Halted(Halt::FailedCheck(site)))
}
