//! The cores of contracts. `result` may be named in an `ensures`.

ghost use Rattle.std.specs.Prelude.{◌≡◌, IfOk, OnOk, map};
ghost use Rattle.area_types.specs.Syntax.{Truth};
ghost use Rattle.core_tree.specs.View as tree;
ghost use Rattle.ivory_tree.specs.View as text;
ghost use Rattle.check_numbers.specs.Numbered.{expr_from, expr_after};
ghost use Rattle.check_numbers.specs.NumberedParts as numbers;
ghost use Rattle.typing_rules.specs.ExpressionCores.{core_of};
ghost use Rattle.typing_rules.specs.ItemCores as cores;
ghost use Rattle.typing_rules.specs.Items as items;
ghost use Rattle.core_maker.specs.Places.{env_of, Agrees};
ghost use Rattle.item_maker.specs.Conditions as there;

use core_maker::{Place, check, expression, first_token};
use core_tree::{CoreContract, CoreExpr, SiteKind};
use iv_words::{Memory, Seq};
use ivory_tree::{Contract, Expr};
use rule_checker::TypeRef;
use std::alloc::Global;

fn kind_of(before: bool) -> SiteKind
    ensures { result ≡ items.contract_site before }
{
    if before {
        SiteKind::Pre
    } else {
        SiteKind::Post
    }
}

/// The bytes of `requires` and of `ensures`.
fn keyword_bytes(before: bool) -> u32
    ensures { result ≡ items.contract_bytes before }
{
    if before { 8 } else { 7 }
}

fn condition(alloc: Global, place: &Place, e: &Expr, next: &mut u32) -> Result<CoreExpr, Memory>
    requires { Agrees place.now }
    ensures core { IfOk result (λ c. tree.expr_of c ≡ expr_from next.old (core_of (env_of place.now) Truth (text.expr_of e.now))) }
    ensures after { OnOk result (next.new ≡ expr_after next.old (core_of (env_of place.now) Truth (text.expr_of e.now))) }
{
    expression(alloc, place, TypeRef::Bool, e, next)
}

/// The core of a contract, at a place where `result` may be named in an `ensures`.
fn contract_there(
    alloc: Global,
    place: &Place,
    contract: &Contract,
    next: &mut u32,
) -> Result<CoreContract, Memory>
    requires { Agrees place.now }
    ensures core { IfOk result (λ c. tree.contract_of c ≡ numbers.contract_from next.old (there.contract_there (env_of place.now) (text.contract_of contract.now))) }
    ensures after { OnOk result (next.new ≡ numbers.contract_after next.old (there.contract_there (env_of place.now) (text.contract_of contract.now))) }
{
    let at = first_token(contract.span, keyword_bytes(contract.before));
    let check = check(kind_of(contract.before), at, next)?;
    let cond = condition(alloc, place, &contract.cond, next)?;
    Ok(CoreContract {
        before: contract.before,
        cond,
        check,
    })
}

/// The core of a contract behind the header. The place is then as it was.
#[tactic(auto, using(crate::proofs::Entered::agrees_in_contract))]
fn contract(
    alloc: Global,
    place: &mut Place,
    contract: &Contract,
    next: &mut u32,
) -> Result<CoreContract, Memory>
    requires { Agrees place.old }
    ensures core { IfOk result (λ c. tree.contract_of c ≡ numbers.contract_from next.old (cores.contract_core (env_of place.old) (text.contract_of contract.now))) }
    ensures after { OnOk result (next.new ≡ numbers.contract_after next.old (cores.contract_core (env_of place.old) (text.contract_of contract.now))) }
    ensures same { OnOk result (place.new ≡ place.old) }
{
    let outside = place.context.in_ensures;
    place.context.in_ensures = !contract.before;
    let made = contract_there(alloc, &*place, contract, next)?;
    place.context.in_ensures = outside;
    Ok(made)
}

/// The cores of contracts one after another, with their checks numbered from `next` on.
pub(crate) fn contracts(
    alloc: Global,
    place: &mut Place,
    contracts: &[Contract],
    next: &mut u32,
) -> Result<Seq<CoreContract>, Memory>
    requires { Agrees place.old }
    ensures core { IfOk result (λ cs. map tree.contract_of cs ≡ numbers.contracts_from next.old (map (cores.contract_core (env_of place.old)) (map text.contract_of contracts.now))) }
    ensures after { OnOk result (next.new ≡ numbers.contracts_after next.old (map (cores.contract_core (env_of place.old)) (map text.contract_of contracts.now))) }
    ensures same { OnOk result (place.new ≡ place.old) }
{
    let mut made = Seq::with_capacity(alloc, contracts.len())?;
    for text in contracts {
        made.push(contract(alloc, place, text, next)?)?;
    }
    Ok(made)
}
