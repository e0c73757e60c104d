//! The guards of the signed kinds.

ghost use Rattle.std.specs.Prelude.{◌≡◌, ◌-◌, ◌^◌, ℕ, IfOk};
ghost use Rattle.c_ast.specs.Syntax as syntax;
ghost use Rattle.c_ast.specs.View.{expr_of};
ghost use Rattle.int_ops.specs.Operators.{IsKindWidth};
ghost use Rattle.overflow_checks.specs.Parts as parts;
ghost use Rattle.overflow_checks.specs.SignedForms as forms;

use crate::build::{binary, cast, choice, plain, unary, unsigned};
use crate::row::Row;
use c_ast::{CBinary, CExpr, CUnary};
use iv_words::Memory;
use std::alloc::Global;

/// A number below 0.
fn is_negative(alloc: Global, e: &CExpr) -> Result<CExpr, Memory>
    ensures { IfOk result (λ r. expr_of r ≡ forms.is_negative (expr_of e.now)) }
{
    binary(alloc, CBinary::Lt, e.copy(alloc)?, plain(0))
}

/// A number other than -1.
fn is_not_minus_one(alloc: Global, e: &CExpr) -> Result<CExpr, Memory>
    ensures { IfOk result (λ r. expr_of r ≡ forms.is_not_minus_one (expr_of e.now)) }
{
    let minus_one = unary(alloc, CUnary::Neg, plain(1))?;
    binary(alloc, CBinary::Ne, e.copy(alloc)?, minus_one)
}

impl<const BITS: u32, const SIGNED: bool> Row<BITS, SIGNED> {
    /// 2 to the power `BITS - 1`.
    fn top() -> u64
        requires { IsKindWidth BITS }
        ensures { result ≡ 2 ^ (BITS - 1) }
    {
        1u64 << (BITS - 1)
    }

    /// The operand as a number of the unsigned kind with the same bits.
    fn unsigned_of(alloc: Global, e: &CExpr) -> Result<CExpr, Memory>
        ensures { IfOk result (λ r. expr_of r ≡ forms.unsigned_of BITS (expr_of e.now)) }
    {
        cast(alloc, Row::<BITS, false>::kind(), e.copy(alloc)?)
    }

    /// A number between the ends of the signed kind.
    fn is_between_ends(alloc: Global, e: &CExpr) -> Result<CExpr, Memory>
        requires { IsKindWidth BITS }
        ensures { IfOk result (λ r. expr_of r ≡ forms.is_between_ends BITS (expr_of e.now)) }
    {
        let from_least = binary(alloc, CBinary::Ge, e.copy(alloc)?, Self::least(alloc)?)?;
        let greatest = Row::<BITS, true>::greatest();
        let to_greatest = binary(alloc, CBinary::Le, e.copy(alloc)?, greatest)?;
        binary(alloc, CBinary::AndAlso, from_least, to_greatest)
    }

    /// A sum in `int`, which has it.
    pub fn narrow_sum_fits(alloc: Global, a: &CExpr, b: &CExpr) -> Result<CExpr, Memory>
        requires { IsKindWidth BITS }
        ensures { IfOk result (λ e. expr_of e ≡ forms.narrow_sum_fits BITS (expr_of a.now) (expr_of b.now)) }
    {
        let sum = binary(alloc, CBinary::Add, a.copy(alloc)?, b.copy(alloc)?)?;
        Self::is_between_ends(alloc, &sum)
    }

    /// A difference in `int`, which has it.
    pub fn narrow_difference_fits(alloc: Global, a: &CExpr, b: &CExpr) -> Result<CExpr, Memory>
        requires { IsKindWidth BITS }
        ensures { IfOk result (λ e. expr_of e ≡ forms.narrow_difference_fits BITS (expr_of a.now) (expr_of b.now)) }
    {
        let difference = binary(alloc, CBinary::Sub, a.copy(alloc)?, b.copy(alloc)?)?;
        Self::is_between_ends(alloc, &difference)
    }

    /// The highest bit is not set in both.
    fn top_is_clear(alloc: Global, e: CExpr, f: CExpr) -> Result<CExpr, Memory>
        requires { IsKindWidth BITS }
        ensures { IfOk result (λ r. expr_of r ≡ forms.top_is_clear BITS (expr_of e) (expr_of f)) }
    {
        let both = binary(alloc, CBinary::And, e, f)?;
        binary(alloc, CBinary::Lt, both, unsigned(Self::top()))
    }

    fn xor(alloc: Global, e: &CExpr, f: &CExpr) -> Result<CExpr, Memory>
        ensures { IfOk result (λ r. expr_of r ≡ forms.differing (expr_of e.now) (expr_of f.now)) }
    {
        binary(alloc, CBinary::Xor, e.copy(alloc)?, f.copy(alloc)?)
    }

    /// A sum of a kind that is no narrower than `int`.
    pub fn wide_sum_fits(alloc: Global, a: &CExpr, b: &CExpr) -> Result<CExpr, Memory>
        requires { IsKindWidth BITS }
        ensures { IfOk result (λ e. expr_of e ≡ forms.wide_sum_fits BITS (expr_of a.now) (expr_of b.now)) }
    {
        let x = Self::unsigned_of(alloc, a)?;
        let y = Self::unsigned_of(alloc, b)?;
        let sum = binary(alloc, CBinary::Add, x.copy(alloc)?, y.copy(alloc)?)?;
        let left = Self::xor(alloc, &x, &sum)?;
        let right = Self::xor(alloc, &y, &sum)?;
        Self::top_is_clear(alloc, left, right)
    }

    /// A difference of a kind that is no narrower than `int`.
    pub fn wide_difference_fits(alloc: Global, a: &CExpr, b: &CExpr) -> Result<CExpr, Memory>
        requires { IsKindWidth BITS }
        ensures { IfOk result (λ e. expr_of e ≡ forms.wide_difference_fits BITS (expr_of a.now) (expr_of b.now)) }
    {
        let x = Self::unsigned_of(alloc, a)?;
        let y = Self::unsigned_of(alloc, b)?;
        let difference = binary(alloc, CBinary::Sub, x.copy(alloc)?, y.copy(alloc)?)?;
        let left = Self::xor(alloc, &x, &y)?;
        let right = Self::xor(alloc, &x, &difference)?;
        Self::top_is_clear(alloc, left, right)
    }

    /// A product that the kind of twice as many bits has.
    pub fn narrow_signed_product_fits(alloc: Global, a: &CExpr, b: &CExpr) -> Result<CExpr, Memory>
        requires { IsKindWidth BITS }
        ensures { IfOk result (λ e. expr_of e ≡ forms.narrow_signed_product_fits BITS (expr_of a.now) (expr_of b.now)) }
    {
        let product = Row::<BITS, true>::double_product(alloc, a.copy(alloc)?, b.copy(alloc)?)?;
        Self::is_between_ends(alloc, &product)
    }

    /// The opposite of the operand, as a number of the unsigned kind.
    fn opposite(alloc: Global, e: &CExpr) -> Result<CExpr, Memory>
        ensures { IfOk result (λ r. expr_of r ≡ forms.opposite BITS (expr_of e.now)) }
    {
        binary(alloc, CBinary::Sub, plain(0), Self::unsigned_of(alloc, e)?)
    }

    /// How far the operand is from 0.
    fn magnitude(alloc: Global, e: &CExpr) -> Result<CExpr, Memory>
        ensures { IfOk result (λ r. expr_of r ≡ forms.magnitude BITS (expr_of e.now)) }
    {
        let test = is_negative(alloc, e)?;
        let opposite = Self::opposite(alloc, e)?;
        choice(alloc, test, opposite, Self::unsigned_of(alloc, e)?)
    }

    /// The bits in which the operands differ.
    fn unsigned_differing(alloc: Global, a: &CExpr, b: &CExpr) -> Result<CExpr, Memory>
        ensures { IfOk result (λ e. expr_of e ≡ forms.unsigned_differing BITS (expr_of a.now) (expr_of b.now)) }
    {
        let x = Self::unsigned_of(alloc, a)?;
        binary(alloc, CBinary::Xor, x, Self::unsigned_of(alloc, b)?)
    }

    /// 1 where the signs differ.
    fn one_if_differing(alloc: Global, a: &CExpr, b: &CExpr) -> Result<CExpr, Memory>
        requires { IsKindWidth BITS }
        ensures { IfOk result (λ e. expr_of e ≡ forms.one_if_differing BITS (expr_of a.now) (expr_of b.now)) }
    {
        let differing = Self::unsigned_differing(alloc, a, b)?;
        binary(alloc, CBinary::Shr, differing, plain(u64::from(BITS - 1)))
    }

    /// One less than the top.
    fn below_top() -> CExpr
        requires { IsKindWidth BITS }
        ensures { expr_of result ≡ parts.unsigned (2 ^ (BITS - 1) - 1) }
    {
        unsigned(Self::top() - 1)
    }

    /// The greatest magnitude of a product.
    fn product_limit(alloc: Global, a: &CExpr, b: &CExpr) -> Result<CExpr, Memory>
        requires { IsKindWidth BITS }
        ensures { IfOk result (λ e. expr_of e ≡ forms.product_limit BITS (expr_of a.now) (expr_of b.now)) }
    {
        let one_more = Self::one_if_differing(alloc, a, b)?;
        binary(alloc, CBinary::Add, Self::below_top(), one_more)
    }

    /// The product of two magnitudes that is at most the limit.
    fn magnitudes_fit(alloc: Global, m: &CExpr, n: &CExpr, limit: CExpr) -> Result<CExpr, Memory>
        requires { IsKindWidth BITS }
        ensures { IfOk result (λ e. expr_of e ≡ forms.magnitudes_fit BITS (expr_of m.now) (expr_of n.now) (expr_of limit)) }
    {
        let product = binary(alloc, CBinary::Mul, m.copy(alloc)?, n.copy(alloc)?)?;
        let is_within = binary(alloc, CBinary::Le, product, limit)?;
        binary(
            alloc,
            CBinary::AndAlso,
            Self::does_not_wrap(alloc, m, n)?,
            is_within,
        )
    }

    fn nonzero_product_fits(alloc: Global, a: &CExpr, b: &CExpr) -> Result<CExpr, Memory>
        requires { IsKindWidth BITS }
        ensures { IfOk result (λ e. expr_of e ≡ forms.nonzero_product_fits BITS (expr_of a.now) (expr_of b.now)) }
    {
        let m = Self::magnitude(alloc, a)?;
        let n = Self::magnitude(alloc, b)?;
        Self::magnitudes_fit(alloc, &m, &n, Self::product_limit(alloc, a, b)?)
    }

    /// A product for which no kind has twice as many bits.
    pub fn wide_signed_product_fits(alloc: Global, a: &CExpr, b: &CExpr) -> Result<CExpr, Memory>
        requires { IsKindWidth BITS }
        ensures { IfOk result (λ e. expr_of e ≡ forms.wide_signed_product_fits BITS (expr_of a.now) (expr_of b.now)) }
    {
        let is_zero = binary(alloc, CBinary::Eq, b.copy(alloc)?, plain(0))?;
        binary(
            alloc,
            CBinary::OrElse,
            is_zero,
            Self::nonzero_product_fits(alloc, a, b)?,
        )
    }

    /// An operand other than the least number.
    pub fn opposite_fits(alloc: Global, a: &CExpr) -> Result<CExpr, Memory>
        requires { IsKindWidth BITS }
        ensures { IfOk result (λ e. expr_of e ≡ forms.opposite_fits BITS (expr_of a.now)) }
    {
        let second_least = unary(alloc, CUnary::Neg, Row::<BITS, true>::greatest())?;
        binary(alloc, CBinary::Ge, a.copy(alloc)?, second_least)
    }

    /// A quotient other than that of the least number by -1.
    pub fn quotient_fits(alloc: Global, a: &CExpr, b: &CExpr) -> Result<CExpr, Memory>
        requires { IsKindWidth BITS }
        ensures { IfOk result (λ e. expr_of e ≡ forms.quotient_fits BITS (expr_of a.now) (expr_of b.now)) }
    {
        let is_other = is_not_minus_one(alloc, b)?;
        binary(
            alloc,
            CBinary::OrElse,
            is_other,
            Self::opposite_fits(alloc, a)?,
        )
    }
}
