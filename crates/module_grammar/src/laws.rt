ghost use Rattle.module_grammar.specs.Examples as example;
ghost use Rattle.module_grammar.specs.Parse.{OneTree, ReadExactly};

/// What the reader of modules answers is exact at each limit: a tree just where the text is spelled within the limit, the
/// first token with which no module goes on, and the first token that nests deeper, whichever comes first.
#[tactic(auto, using(crate::proofs::Exactly::parse_exact))]
pub fn modules_are_read_exactly()
    ensures { ReadExactly }
{}

/// No text is two modules, however deep it nests.
pub fn a_module_has_one_tree()
    ensures { OneTree }
{}

/// The trees of types, areas and initializers, and their places. The `[` of an area is open as far as the area's end.
pub fn types_are_read_so()
    ensures references { example.References }
    ensures stored { example.StoredTypes }
    ensures arrays { example.ArraysOfArrays }
    ensures elements { example.ElementsNest }
    ensures inits { example.InitsInBraces }
{}

/// The trees of statements without blocks, and their places. The `*` of a store nests nothing, and a `(` behind a name makes
/// a call of what is let.
pub fn statements_are_read_so()
    ensures lets { example.Lets }
    ensures alloc { example.Alloc }
    ensures store { example.StoreIsFlat }
    ensures copy_and_call { example.CopyAndCall }
    ensures simple { example.Simple }
{}

/// The trees of statements with blocks. An `else if` is a block of that one statement, with its place, and nests as far as
/// its end.
pub fn blocks_are_read_so()
    ensures narrowed { example.Narrowed }
    ensures maps { example.Maps }
    ensures loops { example.Loops }
    ensures else_if { example.ElseIfIsBlock }
    ensures nests { example.ElseIfNests }
    ensures two { example.BlockOfTwo }
{}

/// The trees of items, and their places. A struct has a field at least, and the header of an import the place of the item.
pub fn items_are_read_so()
    ensures bits { example.BitData }
    ensures structs { example.Struct }
    ensures fields { example.StructsHaveFields }
    ensures areas { example.Areas }
    ensures imports { example.ImportPlace }
    ensures procedure { example.Procedure }
{}

/// The tree of a small module; what is no item, and a text that ends early, is told at its place.
pub fn modules_are_read_so()
    ensures items { example.Items }
    ensures faults { example.Faults }
{}
