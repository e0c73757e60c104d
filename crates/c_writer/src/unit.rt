//! Whole units, and their parts one by one.

ghost use Rattle.std.specs.Prelude.{◌≡◌, ◌+◌, ◌++◌, [], length, map, OnOk, OnErr};
ghost use Rattle.iv_base.specs.Counts.{capped};
ghost use Rattle.iv_base.specs.Sinks.{grown, GrewByPrefix, HasCause};
ghost use Rattle.c_ast.specs.View.{object_of, function_of, unit_of};
ghost use Rattle.c_text.specs.TypeText.{texts};
ghost use Rattle.c_text.specs.Spelling.{struct_text, extern_text, file_object_text, function_text, head_text, unit_text};
ghost use Rattle.c_text.specs.Subset.{FunctionInSubset, InSubset};
ghost use Rattle.c_writer.specs.Stages.{Puts};

use crate::decl::{put_extern, put_file_object, put_function, put_struct};
use crate::gathered::Gathered;
use crate::pieces::Pieces;
use c_ast::{CExtern, CFunction, CObject, CStruct, CUnit};
use iv_base::{Sink, SinkFault};

/// The lines with which each text begins.
const FIXED: &[u8] =
    b"#include <stdint.h>\n#include <stdbool.h>\nextern void ivory_stop(uint32_t);\n";

fn put_structs<P: Pieces>(structs: &[CStruct], out: &mut P)
    ensures { Puts (P.stage out.old) (P.stage out.new) (texts (map struct_text structs.now)) }
{
    for s in structs {
        put_struct(s, out);
    }
}

fn put_externs<P: Pieces>(externs: &[CExtern], out: &mut P)
    ensures { Puts (P.stage out.old) (P.stage out.new) (texts (map extern_text externs.now)) }
{
    for x in externs {
        put_extern(x, out);
    }
}

fn put_objects<P: Pieces>(objects: &[CObject], out: &mut P)
    ensures { Puts (P.stage out.old) (P.stage out.new) (texts (map file_object_text (map object_of objects.now))) }
{
    for o in objects {
        put_file_object(o, out);
    }
}

fn put_functions<P: Pieces>(functions: &[CFunction], out: &mut P)
    ensures { Puts (P.stage out.old) (P.stage out.new) (texts (map function_text (map function_of functions.now))) }
{
    for f in functions {
        put_function(f, out);
    }
}

/// All that stands before the functions.
fn put_head<P: Pieces>(u: &CUnit, out: &mut P)
    ensures { Puts (P.stage out.old) (P.stage out.new) (head_text (unit_of u.now)) }
{
    out.put(FIXED);
    put_structs(u.structs.as_slice(), out);
    put_externs(u.externs.as_slice(), out);
    put_objects(u.objects.as_slice(), out);
}

pub fn put_unit<P: Pieces>(u: &CUnit, out: &mut P)
    ensures { Puts (P.stage out.old) (P.stage out.new) (unit_text (unit_of u.now)) }
{
    put_head(u, out);
    put_functions(u.functions.as_slice(), out);
}

/// Writes the one text that spells the unit.
///
/// It takes no memory. A `SinkFault` comes only where the sink's count of faults rose, and the sink then holds some front
/// of the text.
pub fn write_unit<K: Sink>(u: &CUnit, out: &mut K) -> Result<(), SinkFault>
    requires { InSubset (unit_of u.now) }
    ensures held { OnOk result (K.held out.new ≡ grown (K.held out.old) (unit_text (unit_of u.now))) }
    ensures taken { OnOk result (K.taken out.new ≡ capped (K.taken out.old + length (unit_text (unit_of u.now)))) }
    ensures part { OnErr result (GrewByPrefix (K.held out.old) (K.held out.new) (unit_text (unit_of u.now))) }
    ensures cause { HasCause (K.faults out.old) (K.faults out.new) result }
{
    let mut gathered = Gathered::over(out);
    put_unit(u, &mut gathered);
    gathered.finish()
}

/// Writes a unit that has no functions yet: what the text of each unit that has these declarations begins with.
///
/// It takes no memory, and refuses as `write_unit` does.
pub fn write_head<K: Sink>(u: &CUnit, out: &mut K) -> Result<(), SinkFault>
    requires spelled { InSubset (unit_of u.now) }
    requires none { u.now.functions ≡ [] }
    ensures held { OnOk result (K.held out.new ≡ grown (K.held out.old) (head_text (unit_of u.now))) }
    ensures taken { OnOk result (K.taken out.new ≡ capped (K.taken out.old + length (head_text (unit_of u.now)))) }
    ensures part { OnErr result (GrewByPrefix (K.held out.old) (K.held out.new) (head_text (unit_of u.now))) }
    ensures cause { HasCause (K.faults out.old) (K.faults out.new) result }
{
    let mut gathered = Gathered::over(out);
    put_head(u, &mut gathered);
    gathered.finish()
}

/// Writes one function, as it stands in the text of its unit.
///
/// It takes no memory, and refuses as `write_unit` does.
pub fn write_function<K: Sink>(f: &CFunction, out: &mut K) -> Result<(), SinkFault>
    requires { FunctionInSubset (function_of f.now) }
    ensures held { OnOk result (K.held out.new ≡ grown (K.held out.old) (function_text (function_of f.now))) }
    ensures taken { OnOk result (K.taken out.new ≡ capped (K.taken out.old + length (function_text (function_of f.now)))) }
    ensures part { OnErr result (GrewByPrefix (K.held out.old) (K.held out.new) (function_text (function_of f.now))) }
    ensures cause { HasCause (K.faults out.old) (K.faults out.new) result }
{
    let mut gathered = Gathered::over(out);
    put_function(f, &mut gathered);
    gathered.finish()
}
