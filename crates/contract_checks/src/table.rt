ghost use Rattle.std.specs.Prelude.{map, IfOk};
ghost use Rattle.core_tree.specs.Cores.{core_of};
ghost use Rattle.core_tree.specs.Sites.{AreSites};
ghost use Rattle.contract_checks.specs.Sites.{check_of};

use crate::procs::add_procs;
use crate::row::row_of;
use crate::site::Site;
use core_tree::Core;
use iv_words::{Memory, Seq};
use std::alloc::Global;

/// The sites of a module: its checks, each once, in the order of the tokens that carry them, numbered from 0.
pub fn site_table(alloc: Global, c: &Core) -> Result<Seq<Site>, Memory>
    ensures { IfOk result (λ sites. AreSites (core_of c.now) (map check_of sites)) }
{
    let mut checks = Seq::new(alloc);
    add_procs(&c.procs, &mut checks)?;
    row_of(alloc, &checks)
}
