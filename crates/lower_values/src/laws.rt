ghost use Rattle.lower_values.specs.Examples as example;

/// Each form of expression, and exactly its C.
pub fn expression_examples()
    ensures sums { example.SumStands }
    ensures skipped { example.SkippedStands }
    ensures nested { example.NestedStands }
    ensures reads { example.ReadStands }
    ensures settled { example.SettledStands }
    ensures negative { example.NegativeStands }
    ensures not_stands { example.NotStands }
    ensures chain { example.ChainStands }
    ensures arms { example.ArmsStand }
    ensures element { example.ElementStands }
    ensures cast { example.CastStands }
    ensures wrap { example.WrapStands }
    ensures field { example.FieldStands }
    ensures set { example.SetStands }
    ensures set_constant { example.SetConstantStands }
{}
