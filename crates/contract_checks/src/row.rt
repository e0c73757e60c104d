//! From checks in any order to the row of sites that they are.

ghost use Rattle.std.specs.Prelude.{◌≡◌, List, length, map, IfOk};
ghost use Rattle.core_tree.specs.declared.check.Check.{Check as CheckValue};
ghost use Rattle.core_tree.specs.Sites.{AreSitesOf};
ghost use Rattle.contract_checks.specs.Sites.{site_of};

use crate::site::Site;
use core_tree::Check;
use iv_words::{Memory, Seq};
use std::alloc::Global;

/// Puts each check at the place of its number.
fn place(checks: &[Check], row: &mut [Check])
    requires numbered { (sites : List CheckValue) × AreSitesOf checks.now sites }
    requires room { length row.old ≡ length checks.now }
    ensures { (sites : List CheckValue) → AreSitesOf checks.now sites → row.new ≡ sites }
{
    for check in checks {
        row[check.site as usize] = *check;
    }
}

fn sites_of(alloc: Global, checks: &[Check]) -> Result<Seq<Site>, Memory>
    ensures { IfOk result (λ sites. sites ≡ map site_of checks.now) }
{
    let mut sites = Seq::with_capacity(alloc, checks.len())?;
    for check in checks {
        sites.push(Site {
            id: check.site,
            kind: check.kind,
            span: check.span,
        })?;
    }
    Ok(sites)
}

/// The sites of these checks, in the order of their numbers.
pub(crate) fn row_of(alloc: Global, checks: &Seq<Check>) -> Result<Seq<Site>, Memory>
    requires { (sites : List CheckValue) × AreSitesOf checks.now sites }
    ensures { (sites : List CheckValue) → AreSitesOf checks.now sites → IfOk result (λ row. row ≡ map site_of sites) }
{
    let mut row = checks.copy(alloc)?.into_vec();
    place(checks.as_slice(), row.as_mut_slice());
    sites_of(alloc, row.as_slice())
}
