//! Structs, externs, objects and functions.

ghost use Rattle.std.specs.Prelude.{◌++◌, codes, map};
ghost use Rattle.c_ast.specs.View.{object_of, function_of};
ghost use Rattle.c_text.specs.TypeText.{listed, texts, type_text, typed_text};
ghost use Rattle.c_text.specs.Spelling.{length_text, member_text, struct_text, params_text, extern_text, file_object_text, storage_text, param_text, function_text};
ghost use Rattle.c_writer.specs.Stages.{Puts};

use crate::braces::Braces;
use crate::init::put_init;
use crate::pieces::Pieces;
use crate::stmt::put_block_line;
use crate::types::{
    const_name, put_base, put_const, put_object, put_type, put_typed, storage_name,
};
use c_ast::{CExtern, CFunction, CMember, CObject, CParam, CStruct, CType};
use itoa::Buffer;

// ---- structs

/// The length of a member that is an array.
fn put_length<P: Pieces>(length: Option<u32>, out: &mut P)
    ensures { Puts (P.stage out.old) (P.stage out.new) (length_text length) }
{
    match length {
        None => {}
        Some(n) => {
            let mut digits = Buffer::new();
            out.put(b"[");
            out.put(digits.format(n).as_bytes());
            out.put(b"]");
        }
    }
}

fn put_member<P: Pieces>(m: &CMember, out: &mut P)
    ensures { Puts (P.stage out.old) (P.stage out.new) (member_text m.now) }
{
    out.put(b"  ");
    put_object(&m.base, &m.name, out);
    put_length(m.length, out);
    out.put(b";");
    out.put(b"\n");
}

fn put_members<P: Pieces>(members: &[CMember], out: &mut P)
    ensures { Puts (P.stage out.old) (P.stage out.new) (texts (map member_text members.now)) }
{
    for m in members {
        put_member(m, out);
    }
}

pub fn put_struct<P: Pieces>(s: &CStruct, out: &mut P)
    ensures { Puts (P.stage out.old) (P.stage out.new) (struct_text s.now) }
{
    out.put(b"struct ");
    out.put(s.name.as_slice());
    out.put(b" {");
    out.put(b"\n");
    put_members(s.members.as_slice(), out);
    out.put(b"};\n");
}

// ---- externs

/// A comma, and the type of a parameter after the first.
fn put_further_type<P: Pieces>(ty: &CType, out: &mut P)
    ensures { Puts (P.stage out.old) (P.stage out.new) (codes ", " ++ type_text ty.now) }
{
    out.put(b", ");
    put_type(ty, out);
}

fn put_further_types<P: Pieces>(types: &[CType], out: &mut P)
    ensures { Puts (P.stage out.old) (P.stage out.new) (texts (map (λ t. codes ", " ++ type_text t) types.now)) }
{
    for ty in types {
        put_further_type(ty, out);
    }
}

/// The types of parameters in parentheses, or `(void)` where there is none.
fn put_types<P: Pieces>(types: &[CType], out: &mut P)
    ensures { Puts (P.stage out.old) (P.stage out.new) (params_text (map type_text types.now)) }
{
    match types.split_first() {
        None => out.put(b"(void)"),
        Some((first, rest)) => {
            out.put(b"(");
            put_type(first, out);
            put_further_types(rest, out);
            out.put(b")");
        }
    }
}

pub fn put_extern<P: Pieces>(x: &CExtern, out: &mut P)
    ensures { Puts (P.stage out.old) (P.stage out.new) (extern_text x.now) }
{
    out.put(b"extern ");
    put_typed(&x.result, &x.name, out);
    put_types(x.params.as_slice(), out);
    out.put(b";");
    out.put(b"\n");
}

// ---- objects

pub fn put_file_object<P: Pieces>(o: &CObject, out: &mut P)
    ensures { Puts (P.stage out.old) (P.stage out.new) (file_object_text (object_of o.now)) }
{
    out.put(b"static ");
    put_base(&o.base, out);
    out.put(b" ");
    out.put(const_name(o.constant));
    out.put(o.name.as_slice());
    out.put(b" = ");
    put_init(&o.init, out);
    out.put(b";");
    out.put(b"\n");
}

// ---- functions

/// A comma, and a parameter after the first.
fn put_further_param<P: Pieces>(param: &CParam, out: &mut P)
    ensures { Puts (P.stage out.old) (P.stage out.new) (codes ", " ++ param_text param.now) }
{
    out.put(b", ");
    put_const(&param.ty, &param.name, out);
}

fn put_further_params<P: Pieces>(params: &[CParam], out: &mut P)
    ensures { Puts (P.stage out.old) (P.stage out.new) (texts (map (λ p. codes ", " ++ param_text p) params.now)) }
{
    for param in params {
        put_further_param(param, out);
    }
}

/// The parameters in parentheses, or `(void)` where there is none.
fn put_params<P: Pieces>(params: &[CParam], out: &mut P)
    ensures { Puts (P.stage out.old) (P.stage out.new) (params_text (map param_text params.now)) }
{
    match params.split_first() {
        None => out.put(b"(void)"),
        Some((first, rest)) => {
            out.put(b"(");
            put_const(&first.ty, &first.name, out);
            put_further_params(rest, out);
            out.put(b")");
        }
    }
}

pub fn put_function<P: Pieces>(f: &CFunction, out: &mut P)
    ensures { Puts (P.stage out.old) (P.stage out.new) (function_text (function_of f.now)) }
{
    out.put(storage_name(f.hidden));
    put_typed(&f.result, &f.name, out);
    put_params(f.params.as_slice(), out);
    out.put(b" ");
    put_block_line(f.body.as_slice(), &Braces::None, out);
}
