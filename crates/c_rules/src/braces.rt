ghost use Rattle.std.specs.Prelude.{[]};
ghost use Rattle.c_text.specs.StatementText.{indent};
ghost use Rattle.c_rules.specs.Depths.{depth};
ghost use Rattle.c_scopes.specs.Walks.{Walks};

use c_scopes::Walk;

/// In how many braces a line stands. It is counted by a row of these, since no number of a fixed width counts them all.
#[derive(Drop)]
pub enum Braces<'a> {
    None,
    In(&'a Braces<'a>),
}

/// Two spaces for each brace that is open.
pub fn pass_indent(braces: &Braces, walk: &mut Walk)
    ensures { Walks walk.old walk.new (indent (depth braces.now)) [] }
{
    match braces {
        Braces::None => {}
        Braces::In(outer) => {
            pass_indent(outer, walk);
            walk.pass(b"  ");
        }
    }
}
