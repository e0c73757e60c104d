ghost use Rattle.c_writer.specs.Depths.{depth};
ghost use Rattle.c_text.specs.StatementText.{indent};
ghost use Rattle.c_writer.specs.Stages.{Puts};

use crate::pieces::Pieces;

/// In how many braces a line stands. It is counted by a row of these, since no number of a fixed width counts them all.
#[derive(Drop)]
pub enum Braces<'a> {
    None,
    In(&'a Braces<'a>),
}

/// Two blanks for each brace that is open.
pub fn put_indent<P: Pieces>(braces: &Braces, out: &mut P)
    ensures { Puts (P.stage out.old) (P.stage out.new) (indent (depth braces.now)) }
{
    match braces {
        Braces::None => {}
        Braces::In(outer) => {
            put_indent(outer, out);
            out.put(b"  ");
        }
    }
}
