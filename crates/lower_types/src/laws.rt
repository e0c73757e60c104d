ghost use Rattle.lower_types.specs.Examples as example;
ghost use Rattle.lower_types.specs.Names.{LocalsDiffer, ArraysDiffer, ItemsDiffer, ItemsStandApart};

/// No two things of one function are named alike.
pub fn names_differ()
    ensures locals { LocalsDiffer }
    ensures arrays { ArraysDiffer }
    ensures items { ItemsDiffer }
    ensures apart { ItemsStandApart }
{}

/// Small declarations, and exactly their C.
pub fn declaration_examples()
    ensures names { example.NamesStand }
    ensures met { example.RingsAreMet }
    ensures structs { example.StructsStand }
    ensures rings { example.RingsStand }
    ensures table { example.TableStands }
    ensures level { example.LevelStands }
    ensures idle { example.IdleStands }
    ensures send { example.SendStands }
    ensures least { example.LeastStands }
    ensures greatest { example.GreatestSignedStands }
    ensures unsigned { example.UnsignedStands }
{}
