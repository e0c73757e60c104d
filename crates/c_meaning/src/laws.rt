ghost use Rattle.c_meaning.specs.Laws.{RunLaws, MemoryIsLawful, ObjectsHoldValues, NamesAreAsDeclared, WatchedRunsAreRuns};
ghost use Rattle.c_meaning.specs.ExpressionLaws.{ValuesHaveTheirTypes, PlacesHaveTheirTypes, TypedExpressionsAreNotStuck};
ghost use Rattle.c_meaning.specs.NumberExamples.{SumExamples, ProductExamples, QuotientExamples, BitExamples, LeftShiftExamples, RightShiftExamples, ComparisonExamples, UnaryExamples, PointerExamples};
ghost use Rattle.c_meaning.specs.ValueExamples.{NameExamples, OrderExamples, CastExamples, ConditionExamples};
ghost use Rattle.c_meaning.specs.PlaceExamples.{ReadExamples, ElementExamples, PointerCastExamples};
ghost use Rattle.c_meaning.specs.MemoryExamples.{ObjectExamples, MissingExamples, AssignmentExamples, ReturnedPointerExamples, PassedPointer, OutsideExamples, FileScopeExamples};
ghost use Rattle.c_meaning.specs.Examples.{EmptyMain, EmptyMainNeedsAStep, NoCalls, HiddenMain, LedOnce, LedNeedsAStep, LedTwice, LedWraps, LedTruth, LedSigned, LedTooGreat, LedTooGreatLater, Replied, NotReplied, BadlyReplied, Stops, CallsEarlier, CallsEarlierInSteps, CallsItself, EndlessLoop, EndlessLed, LoopLeft, LoopLeftInSteps, Returns, Blocks, EntryValueExamples, CallValueExamples, NameAndConditionExamples, StuckExamples};

/// The outcomes of a run of C: one for each number of steps, whose events only grow, and whose end stays.
pub fn run_laws()
    ensures { RunLaws }
{}

/// The memory that C runs on: what its operations do, and what they do to objects that hold values.
pub fn memory_laws<W>()
    ensures lawful { MemoryIsLawful }
    ensures values { ObjectsHoldValues W }
{}

/// A run that is watched, so that being stuck is seen, is a run of the unit wherever it is not stuck.
pub fn watched_laws()
    ensures { WatchedRunsAreRuns }
{}

/// Which runs are stuck.
pub fn stuck_examples()
    ensures { StuckExamples }
{}

/// The value of an expression is one of the type of the expression, and so is a place; a typed expression is not stuck where what is read is held;
/// names are as declared.
pub fn type_laws()
    ensures types { ValuesHaveTheirTypes }
    ensures places { PlacesHaveTheirTypes }
    ensures not_stuck { TypedExpressionsAreNotStuck }
    ensures declared { NamesAreAsDeclared }
{}

/// What an entry call comes to, and for how many steps.
pub fn entry_examples()
    ensures done { EmptyMain }
    ensures going { EmptyMainNeedsAStep }
    ensures none { NoCalls }
    ensures hidden { HiddenMain }
{}

/// What the outside sees of the call of an `extern`, and how its arguments are converted.
pub fn extern_examples()
    ensures once { LedOnce }
    ensures step { LedNeedsAStep }
    ensures twice { LedTwice }
    ensures unsigned { LedWraps }
    ensures truth { LedTruth }
    ensures signed { LedSigned }
    ensures too_great { LedTooGreat }
    ensures later { LedTooGreatLater }
{}

/// What an `extern` with a result does with the replies.
pub fn reply_examples()
    ensures fits { Replied }
    ensures none { NotReplied }
    ensures bad { BadlyReplied }
{}

/// What other calls come to.
pub fn call_examples()
    ensures stops { Stops }
    ensures earlier { CallsEarlier }
    ensures steps { CallsEarlierInSteps }
    ensures itself { CallsItself }
{}

/// How control goes through loops, `break`, `return` and blocks, and for how many steps.
pub fn control_examples()
    ensures endless { EndlessLoop }
    ensures endless_calls { EndlessLed }
    ensures left { LoopLeft }
    ensures left_in_steps { LoopLeftInSteps }
    ensures returns { Returns }
    ensures blocks { Blocks }
{}

/// What names, parameters, results and conditions come to, and for how many steps.
pub fn value_examples()
    ensures entries { EntryValueExamples }
    ensures calls { CallValueExamples }
    ensures names { NameAndConditionExamples }
{}

/// What `+`, `-`, `*`, `/` and `%` give.
pub fn arithmetic_examples()
    ensures sums { SumExamples }
    ensures products { ProductExamples }
    ensures quotients { QuotientExamples }
{}

/// What `&`, `|`, `^`, `<<` and `>>` give.
pub fn bit_examples()
    ensures bits { BitExamples }
    ensures left { LeftShiftExamples }
    ensures right { RightShiftExamples }
{}

/// What comparisons and the operators on one value give.
pub fn comparison_examples()
    ensures comparisons { ComparisonExamples }
    ensures unary { UnaryExamples }
    ensures pointers { PointerExamples }
{}

/// What is evaluated, and in which order.
pub fn order_examples()
    ensures names { NameExamples }
    ensures order { OrderExamples }
{}

/// What casts and `?:` give.
pub fn type_examples()
    ensures casts { CastExamples }
    ensures conditions { ConditionExamples }
{}

/// What places, addresses and casts of pointers come to, and which have no meaning.
#[tactic(auto, unfolding(c_memory::specs::Codecs::stored, c_memory::specs::Codecs::signed_value, type_trees::specs::Multiples::up))]
pub fn place_examples()
    ensures reads { ReadExamples }
    ensures elements { ElementExamples }
    ensures pointers { PointerCastExamples }
{}

/// What declarations of objects and assignments do, and in which order.
#[tactic(auto, unfolding(c_memory::specs::Codecs::stored, c_memory::specs::Codecs::signed_value, type_trees::specs::Multiples::up))]
pub fn object_examples()
    ensures objects { ObjectExamples }
    ensures missing { MissingExamples }
    ensures assignments { AssignmentExamples }
    ensures returned { ReturnedPointerExamples }
    ensures passed { PassedPointer }
{}

/// What the outside sees and writes behind pointers, and objects of file scope.
#[tactic(auto, unfolding(c_memory::specs::Codecs::stored, c_memory::specs::Codecs::signed_value, type_trees::specs::Multiples::up))]
pub fn outside_examples()
    ensures outside { OutsideExamples }
    ensures file_scope { FileScopeExamples }
{}
