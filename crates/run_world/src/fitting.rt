//! When the values of a reply fit the types that are wanted.

ghost use Rattle.std.specs.Prelude.{◌≡◌};
ghost use Rattle.run_records.specs.Scripts.{plain_fits, values_fit};

use run_records::Plain;

fn plain_fits(ty: Plain, v: i128) -> bool
    ensures { result ≡ plain_fits ty v }
{
    match ty {
        Plain::Truth => 0 <= v && v <= 1,
        Plain::Int(kind) => int_ops::fits(kind, v),
    }
}

/// Whether there are as many values as types, each in its type.
pub fn values_fit(shape: &[Plain], values: &[i128]) -> bool
    ensures { result ≡ values_fit shape.now values.now }
{
    let mut rest = values;
    for ty in shape {
        let Some((v, more)) = rest.split_first() else {
            return false;
        };
        if !plain_fits(*ty, *v) {
            return false;
        }
        rest = more;
    }
    rest.is_empty()
}
