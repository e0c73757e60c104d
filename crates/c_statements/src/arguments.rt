//! The values of arguments, converted to the types of the parameters.

ghost use Rattle.std.specs.Prelude.{◌≡◌, length, map, slice_get};
ghost use Rattle.std.specs.Option.{option_copied};
ghost use Rattle.c_meaning.specs.Values as meaning;
ghost use Rattle.c_operators.specs.Values.{value_of, Gives};
ghost use Rattle.c_expressions.specs.Places.{Excused};
ghost use Rattle.c_statements.specs.Arguments.{types_of};

use crate::trouble::room;
use c_ast::{CParam, CType, Target};
use c_operators::{Trouble, Value, as_assigned};
use iv_words::Seq;
use std::alloc::Global;

/// The parameters of an extern, which have types alone, or those of a function.
#[derive(Clone, Copy, Drop)]
pub enum Params<'a> {
    Extern(&'a [CType]),
    Function(&'a [CParam]),
}

impl<'a> Params<'a> {
    fn len(self) -> usize
        ensures { result ≡ length (types_of self.entry) }
    {
        match self {
            Params::Extern(types) => types.len(),
            Params::Function(params) => params.len(),
        }
    }

    /// The type of the parameter at a place.
    fn get(self, at: usize) -> Option<&'a CType>
        ensures { option_copied result ≡ slice_get (types_of self.entry) at }
    {
        match self {
            Params::Extern(types) => types.get(at),
            Params::Function(params) => match params.get(at) {
                Some(param) => Some(&param.ty),
                None => None,
            },
        }
    }
}

/// The values converted to the types of the parameters, as many as there are.
pub fn as_arguments<'a>(
    alloc: Global,
    t: Target,
    params: Params<'a>,
    values: &[Value<'a>],
) -> Result<Seq<Value<'a>>, Trouble>
    ensures { Gives Excused (map value_of) (meaning.as_arguments t (types_of params.entry) (map value_of values.now)) result }
{
    let mut converted = Seq::new(alloc);
    for i in 0..values.len() {
        let Some(ty) = params.get(i) else {
            return Err(Trouble::Stuck);
        };
        let v = as_assigned(t, ty, values[i])?;
        room(converted.push(v))?;
    }
    if params.len() > values.len() {
        return Err(Trouble::Stuck);
    }
    Ok(converted)
}
