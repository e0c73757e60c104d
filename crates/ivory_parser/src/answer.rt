ghost use Rattle.std.specs.Prelude.{◌≡◌, ◌<◌, ◌^◌, length};
ghost use Rattle.reading.specs.Reader.{ended};
ghost use Rattle.module_grammar.specs.ItemReader.{module_};
ghost use Rattle.module_grammar.specs.Parse.{Found, Only, Unexpected, OnlyUnexpected, Deep, OnlyDeep, Answers, levels, parse};
ghost use Rattle.ivory_parser.specs.Answers.{answer_of, Ends};
ghost use Rattle.ivory_parser.specs.Laws.{OfOrderedTokens};

use crate::module::whole_module;
use expression_parser::Fault;
use iv_words::Seq;
use ivory_lexer::Token;
use ivory_tree::Module;
use std::alloc::Global;

/// Why tokens are no module. A place is the number of tokens before it.
#[derive(Clone, Copy, Debug, Drop, PartialEq, Eq)]
pub enum SyntaxFault {
    /// The tokens before this one begin a module, and with it they begin none. Where it is the number of tokens, they begin a
    /// module and are none.
    Unexpected(u32),
    /// The tokens up to this one begin a module, and at it 33 levels are open; it is the first such token.
    TooDeep(u32),
    /// Want of memory, which says nothing of the tokens.
    Memory,
}

/// At most so many levels are open at a token.
const NESTING_LIMIT: usize = 32;

/// The tree that the tokens of a module spell.
///
/// Tokens spell at most one tree. Of two faults the one at the earlier place is answered, and at one place `Unexpected`. Where
/// the tokens stand in the order of a text, the tree's places are in order, its names are names of the language, and it has
/// at most eight nodes for each token.
///
/// # Errors
///
/// The first token with which no module goes on, or the first that nests deeper than 32 levels; or want of memory.
#[tactic(auto, using(crate::proofs::Parsed::of_ordered))]
pub fn parse(alloc: Global, tokens: &Seq<Token>) -> Result<Module, SyntaxFault>
    requires few { length tokens.now < 2 ^ 32 }
    ensures found { Found tokens.now (answer_of result) }
    ensures only { Only tokens.now (answer_of result) }
    ensures unexpected { Unexpected tokens.now (answer_of result) }
    ensures only_unexpected { OnlyUnexpected tokens.now (answer_of result) }
    ensures deep { Deep tokens.now (answer_of result) }
    ensures only_deep { OnlyDeep tokens.now (answer_of result) }
    ensures of_tokens { OfOrderedTokens tokens.now result }
{
    answered(alloc, tokens.as_slice())
}

#[tactic(auto, using(crate::proofs::Parsed::answers_end))]
fn answered(alloc: Global, tokens: &[Token]) -> Result<Module, SyntaxFault>
    requires few { length tokens.now < 2 ^ 32 }
    ensures { Answers (answer_of result) (parse levels tokens.now) }
{
    read(alloc, tokens)
}

fn read(alloc: Global, tokens: &[Token]) -> Result<Module, SyntaxFault>
    requires few { length tokens.now < 2 ^ 32 }
    ensures { Ends result tokens.now (ended (module_ levels tokens.now)) }
{
    match whole_module(alloc, NESTING_LIMIT, tokens) {
        Ok((tree, _)) => Ok(tree),
        Err(Fault::Memory) => Err(SyntaxFault::Memory),
        Err(Fault::Unexpected(rest)) => {
            Err(SyntaxFault::Unexpected((tokens.len() - rest.len()) as u32))
        }
        Err(Fault::TooDeep(rest)) => {
            Err(SyntaxFault::TooDeep((tokens.len() - rest.len()) as u32))
        }
    }
}
