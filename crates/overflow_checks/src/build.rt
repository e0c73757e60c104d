//! Expressions put together from parts.

ghost use Rattle.std.specs.Prelude.{◌≡◌, IfOk};
ghost use Rattle.c_ast.specs.Syntax as syntax;
ghost use Rattle.c_ast.specs.View.{expr_of};
ghost use Rattle.overflow_checks.specs.Parts as parts;

use c_ast::{CBinary, CExpr, CScalar, CType, CUnary, Suffix};
use iv_words::{Box, IntKind, Memory};
use std::alloc::Global;

#[tactic(auto, using(c_ast::proofs::View::number_is))]
pub fn plain(n: u64) -> CExpr
    ensures { expr_of result ≡ parts.plain n }
{
    CExpr::Number(n, Suffix::Plain)
}

#[tactic(auto, using(c_ast::proofs::View::number_is))]
pub fn unsigned(n: u64) -> CExpr
    ensures { expr_of result ≡ parts.unsigned n }
{
    CExpr::Number(n, Suffix::U)
}

#[tactic(auto, using(c_ast::proofs::View::unary_is))]
pub fn unary(alloc: Global, op: CUnary, e: CExpr) -> Result<CExpr, Memory>
    ensures { IfOk result (λ r. expr_of r ≡ syntax.Unary op (expr_of e)) }
{
    Ok(CExpr::Unary(op, Box::new(alloc, e)?))
}

#[tactic(auto, using(c_ast::proofs::View::binary_is))]
pub fn binary(alloc: Global, op: CBinary, left: CExpr, right: CExpr) -> Result<CExpr, Memory>
    ensures { IfOk result (λ r. expr_of r ≡ syntax.Binary op (expr_of left) (expr_of right)) }
{
    Ok(CExpr::Binary(op, Box::new(alloc, left)?, Box::new(alloc, right)?))
}

#[tactic(auto, using(c_ast::proofs::View::cast_is))]
pub fn cast(alloc: Global, kind: IntKind, e: CExpr) -> Result<CExpr, Memory>
    ensures { IfOk result (λ r. expr_of r ≡ parts.cast_to kind (expr_of e)) }
{
    Ok(CExpr::Cast(CType::Value(CScalar::Int(kind)), Box::new(alloc, e)?))
}

#[tactic(auto, using(c_ast::proofs::View::cond_is))]
pub fn choice(alloc: Global, test: CExpr, first: CExpr, second: CExpr) -> Result<CExpr, Memory>
    ensures { IfOk result (λ r. expr_of r ≡ syntax.Cond (expr_of test) (expr_of first) (expr_of second)) }
{
    Ok(CExpr::Cond(
        Box::new(alloc, test)?,
        Box::new(alloc, first)?,
        Box::new(alloc, second)?,
    ))
}
