//! Initializers.

ghost use Rattle.std.specs.Prelude.{◌++◌, codes, map};
ghost use Rattle.c_ast.specs.View.{init_of, inits_of};
ghost use Rattle.c_text.specs.TypeText.{listed};
ghost use Rattle.c_text.specs.ExpressionText.{init_text, init_texts};
ghost use Rattle.c_writer.specs.Separated.{comma};
ghost use Rattle.c_writer.specs.Stages.{Puts};

use crate::expr::put_expr;
use crate::pieces::Pieces;
use c_ast::CInit;

#[cycle(inits)]
pub fn put_init<P: Pieces>(init: &CInit, out: &mut P)
    ensures { Puts (P.stage out.old) (P.stage out.new) (init_text (init_of init.now)) }
{
    match init {
        CInit::One(e) => put_expr(e, out),
        CInit::Zero => out.put(b"{0}"),
        CInit::Many(inits) => {
            out.put(b"{");
            put_inits(inits.as_slice(), out);
            out.put(b"}");
        }
    }
}

/// A comma and a blank behind others.
fn put_comma<P: Pieces>(more: bool, out: &mut P)
    ensures { Puts (P.stage out.old) (P.stage out.new) (comma more) }
{
    let text: &[u8] = if more { b", " } else { b"" };
    out.put(text);
}

/// Initializers with a comma between two of them.
#[cycle(inits)]
fn put_inits<P: Pieces>(inits: &[CInit], out: &mut P)
    ensures { Puts (P.stage out.old) (P.stage out.new) (listed (init_texts (inits_of inits.now))) }
{
    let mut more = false;
    for init in inits {
        put_comma(more, out);
        put_init(init, out);
        more = true;
    }
}
