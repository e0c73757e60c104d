//! Reads the text of a module as a tree.

ghost use Rattle.std.specs.Prelude.{◌≡◌, ◌≤◌, length, IfOk};
ghost use Rattle.ivory_lexer.specs.Limits.{source_limit};
ghost use Rattle.ivory_lexer.specs.Texts.{TokensOf, LexFaultOf};
ghost use Rattle.ivory_lexer.specs.Tokens.{InOrder};
ghost use Rattle.module_text.specs.Answers.{Read, Cut};
ghost use Rattle.module_text.specs.Lines.{fault_at};
ghost use Rattle.module_text.specs.Trees.{OfText};
ghost use Rattle.module_text.specs.Verdicts.{token_start};
ghost use Rattle.module_text.specs.declared.fault.TextFault.TheVariants.{At};

use crate::fault::{Fault, TextFault, Why};
use iv_words::Seq;
use ivory_lexer::{LexFault, SOURCE_LIMIT, Token, lex};
use ivory_parser::{Module, SyntaxFault, parse};
use std::alloc::Global;

/// The tree of a module's text.
///
/// # Errors
///
/// `TooLarge` where the text has more than 262,144 bytes; `At` with the first fault where it cannot be cut into tokens, or they spell
/// no module, or nest more than 32 deep; or want of memory.
#[tactic(auto, using(crate::proofs::Trees::read_of_text))]
pub fn read_module(alloc: Global, text: &[u8]) -> Result<Module, TextFault>
    ensures read { Read text.now result }
    ensures of_text { IfOk result (λ tree. OfText text.now tree) }
{
    read(alloc, text)
}

fn read(alloc: Global, text: &[u8]) -> Result<Module, TextFault>
    ensures { Read text.now result }
{
    if text.len() as u64 > SOURCE_LIMIT {
        return Err(TextFault::TooLarge);
    }
    let tokens = cut(alloc, text)?;
    let tree = tree_of(alloc, text, &tokens);
    // A run reads one module: to free the name of each token would cost more than it gives.
    tokens.leak();
    tree
}

/// The tokens of a text.
fn cut(alloc: Global, text: &[u8]) -> Result<Seq<Token>, TextFault>
    requires { length text.now ≤ source_limit }
    ensures { Cut text.now result }
{
    match lex(alloc, text) {
        Ok(tokens) => Ok(tokens),
        Err(LexFault::BadByte(at)) => Err(fault_at(text, at, Why::BadByte)),
        Err(LexFault::LongName(at)) => Err(fault_at(text, at, Why::LongName)),
        Err(LexFault::BigLiteral(at)) => Err(fault_at(text, at, Why::BigLiteral)),
        Err(LexFault::OpenComment(at)) => Err(fault_at(text, at, Why::OpenComment)),
        Err(LexFault::Memory) => Err(TextFault::Memory),
    }
}

/// The tree that the tokens of a text spell.
fn tree_of(alloc: Global, text: &[u8], tokens: &Seq<Token>) -> Result<Module, TextFault>
    requires short { length text.now ≤ source_limit }
    requires cut { TokensOf 0 text.now tokens.now }
    requires in_order { InOrder 0 tokens.now (length text.now) }
    requires few { length tokens.now ≤ length text.now }
    ensures { Read text.now result }
{
    match parse(alloc, tokens) {
        Ok(tree) => Ok(tree),
        Err(SyntaxFault::Unexpected(i)) => {
            Err(fault_at(text, start_of(text, tokens, i), Why::Unexpected))
        }
        Err(SyntaxFault::TooDeep(i)) => {
            Err(fault_at(text, start_of(text, tokens, i), Why::TooDeep))
        }
        Err(SyntaxFault::Memory) => Err(TextFault::Memory),
    }
}

fn fault_at(text: &[u8], at: u32, why: Why) -> TextFault
    requires within { at ≤ length text.now }
    requires short { length text.now ≤ source_limit }
    ensures { result ≡ At (fault_at text.now at why) }
{
    TextFault::At(Fault::at(text, at, why))
}

/// Where a token begins in its text; past the last token, where the text ends.
fn start_of(text: &[u8], tokens: &Seq<Token>, i: u32) -> u32
    requires short { length text.now ≤ source_limit }
    requires in_order { InOrder 0 tokens.now (length text.now) }
    ensures start { result ≡ token_start text.now tokens.now i }
    ensures within { result ≤ length text.now }
{
    match tokens.as_slice().get(i as usize) {
        Some(token) => token.span.start,
        None => text.len() as u32,
    }
}
