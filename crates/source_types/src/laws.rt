//! Small cases of the tables of types and operators.

ghost use Rattle.source_types.specs.Examples as example;

/// Which expressions are settled.
pub fn settled_examples()
    ensures literals { example.LiteralsAreUnsettled }
    ensures one { example.OneSettlesBoth }
    ensures truths { example.TruthsAreSettled }
{}

/// Which literals a type holds, which type a bit field has, and which types an operator is for.
pub fn value_examples()
    ensures literals { example.TypesHoldLiterals }
    ensures fields { example.FieldsHaveTheLeastType }
    ensures operators { example.OperatorsHaveTypes }
    ensures flags { example.FlagsDiffer }
{}

/// How regions are numbered, and what parts have.
pub fn region_examples()
    ensures numbers { example.RegionsAreNumbered }
    ensures parameters { example.RegionsAreOfParameters }
    ensures parts { example.PartsKeepTheFlag }
{}
