ghost use Rattle.c_memory.specs.Laws.{NumbersAreFaithful, KindsAreSound, PartsStand, ScalarsApart, MemoryIsLawful, ValuesAreHeld, InitializersFit, ZerosFit, ElementsGiveTheValue};
ghost use Rattle.c_memory.specs.Examples.{NumberExamples, PaddingExamples, OtherTargetExamples, AccessExamples, CastExamples, InitializerExamples};

/// A number that a scalar holds is read from the bytes that it was written to, in both byte orders, and bytes to which nothing
/// was written have none.
pub fn numbers_are_faithful<S, P>()
    ensures { NumbersAreFaithful S P }
{}

/// The exact-width kinds of whole numbers are such scalars.
pub fn kinds_are_sound()
    ensures { KindsAreSound }
{}

/// A wanted part of a type begins at an offset exactly where a path leads to one there, and no two scalars overlap.
pub fn parts_stand<S, N>()
    ensures exactly { PartsStand S N }
    ensures apart { ScalarsApart S N }
{}

/// The memory of objects and bytes keeps the laws by which the crates above know it.
pub fn memory_is_lawful<S, N, P>()
    ensures { MemoryIsLawful S N P }
{}

/// What reads, stores, copies, replies, declarations and the ends of blocks do to objects that hold values.
pub fn values_are_held<S, N, P, W>()
    ensures { ValuesAreHeld S N P W }
{}

/// An initializer of a type gives a value of the type, and one that has every element gives that value.
pub fn initializer_laws<S, N>()
    ensures zeros { ZerosFit S N }
    ensures fit { InitializersFit S N }
    ensures every { ElementsGiveTheValue S N }
{}

/// The bytes of some numbers.
#[tactic(auto, unfolding(crate::specs::Codecs::stored, crate::specs::Codecs::signed_value))]
pub fn number_examples()
    ensures { NumberExamples }
{}

/// What lies between the members of a struct.
#[tactic(auto, unfolding(crate::specs::Codecs::stored, crate::specs::Codecs::signed_value, type_trees::specs::Multiples::up))]
pub fn padding_examples()
    ensures padding { PaddingExamples }
    ensures other_target { OtherTargetExamples }
{}

/// Which accesses are undefined, and why.
#[tactic(auto, unfolding(crate::specs::Codecs::stored, crate::specs::Codecs::signed_value, type_trees::specs::Multiples::up))]
pub fn access_examples()
    ensures accesses { AccessExamples }
    ensures casts { CastExamples }
{}

/// What initializers give.
pub fn initializer_examples()
    ensures { InitializerExamples }
{}
