//! New checks: each takes the next number. Where there is no number for it, that is want of memory too.

ghost use Rattle.std.specs.Prelude.{◌≡◌, ◌+◌, [], ◌∷◌, IfOk, OnOk};
ghost use Rattle.check_numbers.specs.Numbered.{kinds_from, kinds_after};

use core_tree::{Check, SiteKind};
use iv_words::{Memory, Seq, Span};
use std::alloc::Global;

/// A check with the next number.
pub fn check(kind: SiteKind, at: Span, next: &mut u32) -> Result<Check, Memory>
    ensures check { IfOk result (λ c. c ≡ record { site = next.old; kind = kind; span = at }) }
    ensures after { OnOk result (next.new ≡ next.old + 1) }
{
    let site = *next;
    if site == u32::MAX {
        return Err(Memory);
    }
    *next = site + 1;
    Ok(Check {
        site,
        kind,
        span: at,
    })
}

pub(crate) fn one_check(
    alloc: Global,
    kind: SiteKind,
    at: Span,
    next: &mut u32,
) -> Result<Seq<Check>, Memory>
    ensures checks { IfOk result (λ cs. cs ≡ kinds_from next.old (kind ∷ []) at) }
    ensures after { OnOk result (next.new ≡ kinds_after next.old (kind ∷ []) at) }
{
    let mut checks = Seq::new(alloc);
    checks.push(check(kind, at, next)?)?;
    Ok(checks)
}

pub(crate) fn two_checks(
    alloc: Global,
    first: SiteKind,
    second: SiteKind,
    at: Span,
    next: &mut u32,
) -> Result<Seq<Check>, Memory>
    ensures checks { IfOk result (λ cs. cs ≡ kinds_from next.old (first ∷ second ∷ []) at) }
    ensures after { OnOk result (next.new ≡ kinds_after next.old (first ∷ second ∷ []) at) }
{
    let mut checks = Seq::new(alloc);
    checks.push(check(first, at, next)?)?;
    checks.push(check(second, at, next)?)?;
    Ok(checks)
}
