ghost use Rattle.area_objects.specs.Copies.{CopiesBegin, CopiesGoOn, CopiesEnd};
ghost use Rattle.area_objects.specs.Examples.{ShapeExamples, PlaceExamples, HeldExamples, PartlyCopied};
ghost use Rattle.area_objects.specs.FirstStates.{FirstStatesAlike, NumbersStandThere};
ghost use Rattle.area_objects.specs.Laws.{ObjectsHoldAreas};
ghost use Rattle.area_objects.specs.Passed.{ArgumentsSeen, ArgumentsWritten};
ghost use Rattle.area_objects.specs.PlaceLaws.{FieldsInOrder, FieldsLocated, ElementsLocated, PartsPointedTo, PlacesRead, PlacesAssigned, ObjectsInitialized, PointersShow, AreasSeen};
ghost use Rattle.area_objects.specs.Scalars.{NumbersCanBeHeld, ValuesCanBeHeld};

/// What reads, stores, copies, replies, new areas and the ends of blocks and calls do on both sides.
pub fn objects_hold_areas()
    ensures { ObjectsHoldAreas }
{}

/// What longer paths, addresses and pointers lead to, where no two fields of a struct have one name.
pub fn places_lead_to_parts()
    ensures order { FieldsInOrder }
    ensures fields { FieldsLocated }
    ensures elements { ElementsLocated }
    ensures pointers { PartsPointedTo }
{}

/// What places read and are assigned, and what declarations make.
pub fn places_hold_cells()
    ensures read { PlacesRead }
    ensures assigned { PlacesAssigned }
    ensures initialized { ObjectsInitialized }
{}

/// What the outside sees.
pub fn outside_sees_areas()
    ensures pointers { PointersShow }
    ensures areas { AreasSeen }
{}

/// A copy part by part puts at once what the other part held.
pub fn copies_go_part_by_part()
    ensures begin { CopiesBegin }
    ensures on { CopiesGoOn }
    ensures end { CopiesEnd }
{}

/// Each number of a stored type is one of its scalar's.
pub fn scalars_hold_values()
    ensures numbers { NumbersCanBeHeld }
    ensures values { ValuesCanBeHeld }
{}

/// What the outside sees of the arguments of an import, and what its reply writes.
pub fn arguments_pass_alike()
    ensures seen { ArgumentsSeen }
    ensures written { ArgumentsWritten }
{}

/// The first states of both sides are alike, where each object of file scope is declared as an area and initialized with its first cells.
pub fn first_states_are_alike()
    ensures states { FirstStatesAlike }
    ensures numbers { NumbersStandThere }
{}

/// The C type of a small area, its places, an object with its cells, and a copy that is not done yet.
#[tactic(auto, unfolding(c_memory::specs::Codecs::stored, c_memory::specs::Codecs::signed_value, type_trees::specs::Multiples::up))]
pub fn small_area_examples()
    ensures shapes { ShapeExamples }
    ensures places { PlaceExamples }
    ensures held { HeldExamples }
    ensures copied { PartlyCopied }
{}
