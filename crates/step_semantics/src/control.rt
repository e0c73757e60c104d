ghost use Rattle.step_semantics.specs.Examples.{FramesArePopped, OwnAreasEnd, TurnsAreCounted};

/// A loop that counts has a turn for each of its values, and each turn takes a step; a break and a return end it.
pub fn turns_are_counted()
    ensures { TurnsAreCounted }
{}

/// A call's frame is popped however control leaves it.
pub fn frames_are_popped()
    ensures { FramesArePopped }
{}

/// What returns a reference to an area of a block is not alike behind the block, where the area is no more.
pub fn own_areas_end()
    ensures { OwnAreasEnd }
{}
