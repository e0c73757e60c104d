//! The guards of the unsigned kinds, and those that the signed kinds share.

ghost use Rattle.std.specs.Prelude.{◌≡◌, IfOk};
ghost use Rattle.c_ast.specs.View.{expr_of};
ghost use Rattle.int_ops.specs.Operators.{IsKindWidth};
ghost use Rattle.overflow_checks.specs.UnsignedForms as forms;

use crate::build::{binary, cast, plain};
use crate::row::Row;
use c_ast::{CBinary, CExpr};
use iv_words::Memory;
use std::alloc::Global;

/// A difference from 0.
pub fn difference_fits(alloc: Global, a: &CExpr, b: &CExpr) -> Result<CExpr, Memory>
    ensures { IfOk result (λ e. expr_of e ≡ forms.difference_fits (expr_of a.now) (expr_of b.now)) }
{
    binary(alloc, CBinary::Le, b.copy(alloc)?, a.copy(alloc)?)
}

/// A divisor other than 0.
pub fn divisor_is_some(alloc: Global, b: &CExpr) -> Result<CExpr, Memory>
    ensures { IfOk result (λ e. expr_of e ≡ forms.divisor_is_some (expr_of b.now)) }
{
    binary(alloc, CBinary::Ne, b.copy(alloc)?, plain(0))
}

impl<const BITS: u32, const SIGNED: bool> Row<BITS, SIGNED> {
    fn wrapped_sum(alloc: Global, a: &CExpr, b: &CExpr) -> Result<CExpr, Memory>
        ensures { IfOk result (λ e. expr_of e ≡ forms.wrapped_sum BITS (expr_of a.now) (expr_of b.now)) }
    {
        let sum = binary(alloc, CBinary::Add, a.copy(alloc)?, b.copy(alloc)?)?;
        cast(alloc, Row::<BITS, false>::kind(), sum)
    }

    /// A sum that has not wrapped.
    pub fn sum_fits(alloc: Global, a: &CExpr, b: &CExpr) -> Result<CExpr, Memory>
        ensures { IfOk result (λ e. expr_of e ≡ forms.sum_fits BITS (expr_of a.now) (expr_of b.now)) }
    {
        let sum = Self::wrapped_sum(alloc, a, b)?;
        binary(alloc, CBinary::Ge, sum, a.copy(alloc)?)
    }

    /// A product that the kind of twice as many bits has.
    pub fn narrow_product_fits(alloc: Global, a: &CExpr, b: &CExpr) -> Result<CExpr, Memory>
        requires { IsKindWidth BITS }
        ensures { IfOk result (λ e. expr_of e ≡ forms.narrow_product_fits BITS (expr_of a.now) (expr_of b.now)) }
    {
        let product = Row::<BITS, false>::double_product(alloc, a.copy(alloc)?, b.copy(alloc)?)?;
        binary(alloc, CBinary::Le, product, Row::<BITS, false>::greatest())
    }

    /// The greatest number whose product with another number than 0 does not wrap.
    fn greatest_factor(alloc: Global, b: &CExpr) -> Result<CExpr, Memory>
        requires { IsKindWidth BITS }
        ensures { IfOk result (λ e. expr_of e ≡ forms.greatest_factor BITS (expr_of b.now)) }
    {
        let greatest = Row::<BITS, false>::greatest();
        binary(alloc, CBinary::Div, greatest, b.copy(alloc)?)
    }

    /// A product with another number than 0 that does not wrap.
    pub fn does_not_wrap(alloc: Global, a: &CExpr, b: &CExpr) -> Result<CExpr, Memory>
        requires { IsKindWidth BITS }
        ensures { IfOk result (λ e. expr_of e ≡ forms.does_not_wrap BITS (expr_of a.now) (expr_of b.now)) }
    {
        let most = Self::greatest_factor(alloc, b)?;
        binary(alloc, CBinary::Le, a.copy(alloc)?, most)
    }

    /// A product for which no kind has twice as many bits.
    pub fn wide_product_fits(alloc: Global, a: &CExpr, b: &CExpr) -> Result<CExpr, Memory>
        requires { IsKindWidth BITS }
        ensures { IfOk result (λ e. expr_of e ≡ forms.wide_product_fits BITS (expr_of a.now) (expr_of b.now)) }
    {
        let is_zero = binary(alloc, CBinary::Eq, b.copy(alloc)?, plain(0))?;
        binary(
            alloc,
            CBinary::OrElse,
            is_zero,
            Self::does_not_wrap(alloc, a, b)?,
        )
    }

    /// A shift by less than the width.
    pub fn shift_fits(alloc: Global, b: &CExpr) -> Result<CExpr, Memory>
        ensures { IfOk result (λ e. expr_of e ≡ forms.shift_fits BITS (expr_of b.now)) }
    {
        binary(alloc, CBinary::Lt, b.copy(alloc)?, plain(u64::from(BITS)))
    }
}
