//! How many nodes an area has: a copy takes a step for each.

ghost use Rattle.std.specs.Prelude.{◌≡◌, ◌+◌, ◌*◌, map, IfOk};
ghost use Rattle.type_trees.specs.Trees.{nodes, nodes_row};
ghost use Rattle.core_state.specs.Types.{written_of, fields_from};

use core_state::Written;
use iv_words::{Memory, Seq};

fn sum(a: u64, b: u64) -> Result<u64, Memory>
    ensures { IfOk result (λ n. n ≡ a + b) }
{
    match a.checked_add(b) {
        Some(n) => Ok(n),
        None => Err(Memory),
    }
}

fn product(a: u64, b: u64) -> Result<u64, Memory>
    ensures { IfOk result (λ n. n ≡ a * b) }
{
    match a.checked_mul(b) {
        Some(n) => Ok(n),
        None => Err(Memory),
    }
}

/// The number of nodes. There is no memory for an area with more of them than a word of 64 bits can count.
#[cycle(nodes)]
pub fn nodes(ty: &Written) -> Result<u64, Memory>
    ensures { IfOk result (λ n. n ≡ nodes (written_of ty.now)) }
{
    match ty {
        Written::Leaf(_) => Ok(1),
        Written::Many(length, element) => {
            let each = nodes(element.get())?;
            let all = product(u64::from(*length), each)?;
            sum(1, all)
        }
        Written::Struct(_, fields) => {
            let all = nodes_of_all(fields)?;
            sum(1, all)
        }
    }
}

#[cycle(nodes)]
fn nodes_of_all(fields: &Seq<Written>) -> Result<u64, Memory>
    ensures { IfOk result (λ n. n ≡ nodes_row (fields_from 0 (map written_of fields.now))) }
{
    let mut all = 0;
    for field in fields.iter() {
        let more = nodes(field)?;
        all = sum(all, more)?;
    }
    Ok(all)
}
