ghost use Rattle.lower_statements.specs.Examples as example;

/// Small procedures, and exactly their C.
pub fn procedure_examples()
    ensures sums { example.SumStands }
    ensures lows { example.LowStands }
    ensures empty { example.EmptyStands }
    ensures fills { example.FillStands }
    ensures downs { example.DownStands }
    ensures picks { example.PickStands }
    ensures keeps { example.KeepStands }
{}
