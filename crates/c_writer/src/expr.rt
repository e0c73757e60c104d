//! Expressions, places and calls.

ghost use Rattle.std.specs.Prelude.{◌≡◌, ◌++◌, codes, decimal, map};
ghost use Rattle.c_ast.specs.View.{expr_of, place_of, call_of};
ghost use Rattle.c_text.specs.TypeText.{type_text, listed, texts};
ghost use Rattle.c_text.specs.ExpressionText.{suffix_text, unary_text, binary_text, expr_text, place_text, call_text};
ghost use Rattle.c_writer.specs.Stages.{Puts};

use crate::pieces::Pieces;
use crate::types::put_type;
use c_ast::{CBinary, CCall, CExpr, CPlace, CType, CUnary, Suffix};
use itoa::Buffer;

/// A decimal constant and its suffix.
pub fn put_number<P: Pieces>(value: u64, suffix: Suffix, out: &mut P)
    ensures { Puts (P.stage out.old) (P.stage out.new) (decimal value ++ suffix_text suffix) }
{
    let mut digits = Buffer::new();
    out.put(digits.format(value).as_bytes());
    out.put(suffix_name(suffix));
}

/// The letters after a constant that name its type.
fn suffix_name(suffix: Suffix) -> &'static [u8]
    ensures { result.now ≡ suffix_text suffix }
{
    match suffix {
        Suffix::Plain => b"",
        Suffix::U => b"u",
        Suffix::Ll => b"ll",
        Suffix::Ull => b"ull",
    }
}

fn unary_name(op: CUnary) -> &'static [u8]
    ensures { result.now ≡ unary_text op }
{
    match op {
        CUnary::Neg => b"-",
        CUnary::Flip => b"~",
        CUnary::Not => b"!",
    }
}

fn binary_name(op: CBinary) -> &'static [u8]
    ensures { result.now ≡ binary_text op }
{
    match op {
        CBinary::Add => b"+",
        CBinary::Sub => b"-",
        CBinary::Mul => b"*",
        CBinary::Div => b"/",
        CBinary::Rem => b"%",
        CBinary::And => b"&",
        CBinary::Or => b"|",
        CBinary::Xor => b"^",
        CBinary::Shl => b"<<",
        CBinary::Shr => b">>",
        CBinary::Eq => b"==",
        CBinary::Ne => b"!=",
        CBinary::Lt => b"<",
        CBinary::Le => b"<=",
        CBinary::Gt => b">",
        CBinary::Ge => b">=",
        CBinary::AndAlso => b"&&",
        CBinary::OrElse => b"||",
    }
}

/// A cast up to what is cast.
fn put_cast<P: Pieces>(ty: &CType, out: &mut P)
    ensures { Puts (P.stage out.old) (P.stage out.new) (codes "((" ++ type_text ty.now ++ codes ")") }
{
    out.put(b"((");
    put_type(ty, out);
    out.put(b")");
}

/// An operator between its operands, with a blank on both sides.
fn put_operator<P: Pieces>(op: CBinary, out: &mut P)
    ensures { Puts (P.stage out.old) (P.stage out.new) (codes " " ++ binary_text op ++ codes " ") }
{
    out.put(b" ");
    out.put(binary_name(op));
    out.put(b" ");
}

#[cycle(puts)]
pub fn put_expr<P: Pieces>(e: &CExpr, out: &mut P)
    ensures { Puts (P.stage out.old) (P.stage out.new) (expr_text (expr_of e.now)) }
{
    match e {
        CExpr::Number(value, suffix) => put_number(*value, *suffix, out),
        CExpr::Read(place) => put_place(place, out),
        CExpr::Address(place) => {
            out.put(b"(&");
            put_place(place, out);
            out.put(b")");
        }
        CExpr::Unary(op, e) => {
            out.put(b"(");
            out.put(unary_name(*op));
            put_expr(e.get(), out);
            out.put(b")");
        }
        CExpr::Binary(op, left, right) => {
            out.put(b"(");
            put_expr(left.get(), out);
            put_operator(*op, out);
            put_expr(right.get(), out);
            out.put(b")");
        }
        CExpr::Cast(ty, e) => {
            put_cast(ty, out);
            put_expr(e.get(), out);
            out.put(b")");
        }
        CExpr::Cond(test, first, second) => {
            out.put(b"(");
            put_expr(test.get(), out);
            out.put(b" ? ");
            put_expr(first.get(), out);
            out.put(b" : ");
            put_expr(second.get(), out);
            out.put(b")");
        }
    }
}

#[cycle(puts)]
pub fn put_place<P: Pieces>(place: &CPlace, out: &mut P)
    ensures { Puts (P.stage out.old) (P.stage out.new) (place_text (place_of place.now)) }
{
    match place {
        CPlace::Var(name) => out.put(name.as_slice()),
        CPlace::At(pointer) => {
            out.put(b"(*");
            put_expr(pointer.get(), out);
            out.put(b")");
        }
        CPlace::Member(place, member) => {
            put_place(place.get(), out);
            out.put(b".");
            out.put(member.as_slice());
        }
        CPlace::Element(place, index) => {
            put_place(place.get(), out);
            out.put(b"[");
            put_expr(index.get(), out);
            out.put(b"]");
        }
    }
}

/// A comma, and an argument after the first.
fn put_further<P: Pieces>(e: &CExpr, out: &mut P)
    ensures { Puts (P.stage out.old) (P.stage out.new) (codes ", " ++ expr_text (expr_of e.now)) }
{
    out.put(b", ");
    put_expr(e, out);
}

fn put_all_further<P: Pieces>(es: &[CExpr], out: &mut P)
    ensures { Puts (P.stage out.old) (P.stage out.new) (texts (map (λ e. codes ", " ++ expr_text (expr_of e)) es.now)) }
{
    for e in es {
        put_further(e, out);
    }
}

/// The arguments of a call, with a comma between two of them.
fn put_args<P: Pieces>(args: &[CExpr], out: &mut P)
    ensures { Puts (P.stage out.old) (P.stage out.new) (listed (map expr_text (map expr_of args.now))) }
{
    match args.split_first() {
        None => {}
        Some((first, rest)) => {
            put_expr(first, out);
            put_all_further(rest, out);
        }
    }
}

pub fn put_call<P: Pieces>(call: &CCall, out: &mut P)
    ensures { Puts (P.stage out.old) (P.stage out.new) (call_text (call_of call.now)) }
{
    out.put(call.name.as_slice());
    out.put(b"(");
    put_args(call.args.as_slice(), out);
    out.put(b")");
}
