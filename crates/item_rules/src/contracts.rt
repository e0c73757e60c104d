//! The first fault of the contracts of a procedure. `result` may be named in an `ensures`.

ghost use Rattle.std.specs.Prelude.{◌≡◌, map};
ghost use Rattle.area_types.specs.Syntax.{Truth};
ghost use Rattle.ivory_tree.specs.View.{expr_of, contract_of};
ghost use Rattle.rule_checker.specs.Contexts.{context_of};
ghost use Rattle.rule_checker.specs.Faults.{found};
ghost use Rattle.rule_faults.specs.ExpressionRows.{expr_row};
ghost use Rattle.rule_faults.specs.FirstFault.{first_of};
ghost use Rattle.rule_faults.specs.Wants.{Wants};
ghost use Rattle.rule_faults.specs.ItemRows as nodes;
ghost use Rattle.item_rules.specs.Conditions as parts;

use ivory_tree::{Contract, Expr};
use rule_checker::{Context, RuleFault, TypeRef, Want, expression_fault};

/// The first fault of a condition.
fn condition_fault(context: &Context, cond: &Expr) -> Option<RuleFault>
    ensures { found result ≡ first_of (expr_row (context_of context.now) (Wants Truth) (expr_of cond.now)) }
{
    expression_fault(context, Want::Wants(TypeRef::Bool), cond)
}

fn contract_fault(context: &mut Context, contract: &Contract) -> Option<RuleFault>
    ensures fault { found result ≡ first_of (parts.condition_row (context_of context.old) (contract_of contract.now)) }
    ensures same { context.new ≡ context.old }
{
    let before = context.in_ensures;
    context.in_ensures = !contract.before;
    let fault = condition_fault(&*context, &contract.cond);
    context.in_ensures = before;
    fault
}

/// The first fault of contracts, one after another.
pub(crate) fn contracts_fault(context: &mut Context, contracts: &[Contract]) -> Option<RuleFault>
    ensures fault { found result ≡ first_of (nodes.contracts_row (context_of context.old) (map contract_of contracts.now)) }
    ensures same { context.new ≡ context.old }
{
    for contract in contracts {
        if let Some(fault) = contract_fault(context, contract) {
            return Some(fault);
        }
    }
    None
}
