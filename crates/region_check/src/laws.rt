//! Small calls, and types that escape.

ghost use Rattle.region_check.specs.Examples as example;

/// Which arguments fit.
pub fn fitting_examples()
    ensures clash { example.TwoRegionsClash }
    ensures mutable { example.ConstIsNotMutable }
    ensures constant { example.MutableIsConst }
{}

/// How region parameters are numbered, and which references escape.
pub fn region_examples()
    ensures numbers { example.NumbersBeginAtZero }
    ensures own { example.OwnEscapes }
{}
