ghost use Rattle.c_ast.specs.ConversionLaws.{HeldNumbersStay, ConvertedNumbersAreHeld, ConversionExamples, ConstantExamples};
ghost use Rattle.c_ast.specs.TargetLaws.{TargetsAreSound, PromotionKeepsValues, SignedCommonKeepsValues};
ghost use Rattle.c_ast.specs.TargetExamples.{PromotionExamples, CommonExamples, NarrowConstantExamples, NarrowIsSound, LowestByteFirst};
ghost use Rattle.c_ast.specs.Examples.{Exported};
ghost use Rattle.c_ast.specs.LayoutLaws.{ScalarsInOrder, TypesHaveAlignments};
ghost use Rattle.c_ast.specs.LayoutExamples.{PaddedExamples, NestedExamples, AlignedExamples, NamedExamples};
ghost use Rattle.c_ast.specs.StaticTypesExamples.{NumberTypes, NoTypes, PlaceTypes, NoPlaces, GivenValues, AssignedPlaces};

/// A conversion keeps a number that the type holds, and gives numbers that it holds.
pub fn conversion_laws()
    ensures stay { HeldNumbersStay }
    ensures held { ConvertedNumbersAreHeld }
    ensures examples { ConversionExamples }
{}

/// Which types constants have.
pub fn constant_examples()
    ensures { ConstantExamples }
{}

/// What holds of each target, and that promotions and signed common types keep values.
pub fn target_laws()
    ensures sound { TargetsAreSound }
    ensures promotion { PromotionKeepsValues }
    ensures common { SignedCommonKeepsValues }
    ensures narrow { NarrowIsSound }
{}

/// To which types the integer promotions and the usual arithmetic conversions go, and which byte is first.
pub fn type_examples()
    ensures promotion { PromotionExamples }
    ensures common { CommonExamples }
    ensures constants { NarrowConstantExamples }
    ensures byte_order { LowestByteFirst }
{}

/// What a unit lets the outside call.
pub fn export_examples()
    ensures { Exported }
{}

/// The scalars of a type stand in order of declaration, apart from one another and within the size; each type has an
/// alignment, on every target whose table is sound.
pub fn layout_laws()
    ensures order { ScalarsInOrder }
    ensures aligned { TypesHaveAlignments }
{}

/// Sizes, alignments and offsets of small structs.
#[tactic(auto, unfolding(type_trees::specs::Multiples::up))]
pub fn layout_examples()
    ensures padded { PaddedExamples }
    ensures nested { NestedExamples }
    ensures aligned { AlignedExamples }
    ensures named { NamedExamples }
{}

/// Which types expressions and places have, which have none, what may be given, and what may be assigned to.
pub fn static_type_examples()
    ensures numbers { NumberTypes }
    ensures none { NoTypes }
    ensures places { PlaceTypes }
    ensures no_places { NoPlaces }
    ensures given { GivenValues }
    ensures assigned { AssignedPlaces }
{}
