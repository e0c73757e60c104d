//! The contracts of a procedure: what holds before and after a call.

ghost use Rattle.std.specs.Prelude.{◌≡◌};
ghost use Rattle.reading.specs.Row.{starts};
ghost use Rattle.reading.specs.Reader.{accept};
ghost use Rattle.expression_parser.specs.Gives.{Gives};
ghost use Rattle.module_grammar.specs.Tokens.{before_of, before_of_kind, begins_contract};
ghost use Rattle.module_grammar.specs.ItemReader as reader;

use expression_parser::{Fault, span_of, within};
use iv_words::Seq;
use ivory_lexer::{Key, Token, TokenKind};
use ivory_tree::Contract;
use statement_parser::{Part, Repeated, as_many};
use std::alloc::Global;

/// Whether a token of this kind is a `requires` or an `ensures`, if it is one of these.
fn before_of_kind(kind: &TokenKind) -> Option<bool>
    ensures { result ≡ before_of_kind kind.now }
{
    match kind {
        TokenKind::Key(Key::KwRequires) => Some(true),
        TokenKind::Key(Key::KwEnsures) => Some(false),
        _ => None,
    }
}

fn before(tokens: &[Token]) -> Result<(bool, &[Token]), Fault<'_>>
    ensures { Gives result (accept before_of tokens.now) }
{
    match tokens {
        [first, rest @ ..] => match before_of_kind(&first.kind) {
            Some(before) => Ok((before, rest)),
            None => Err(Fault::Unexpected(tokens)),
        },
        [] => Err(Fault::Unexpected(tokens)),
    }
}

fn starts_contract(tokens: &[Token]) -> bool
    ensures { result ≡ starts begins_contract tokens.now }
{
    match tokens {
        [first, ..] => before_of_kind(&first.kind).is_some(),
        [] => false,
    }
}

fn contract(
    alloc: Global,
    levels: usize,
    tokens: &[Token],
) -> Result<(Contract, &[Token]), Fault<'_>>
    ensures { Gives result (reader.contract levels tokens.now) }
{
    let (before, rest) = before(tokens)?;
    let (cond, rest) = within(alloc, levels, rest)?;
    let span = span_of(tokens, rest);
    Ok((Contract { before, cond, span }, rest))
}

/// A contract of a procedure.
struct Condition;

impl Part for Condition {
    ghost use Rattle.module_grammar.specs.ItemReader.{contract};

    type Value = Contract;

    ghost reader = { contract };

    fn read(
        alloc: Global,
        levels: usize,
        tokens: &[Token],
    ) -> Result<(Contract, &[Token]), Fault<'_>> {
        contract(alloc, levels, tokens)
    }
}

impl Repeated for Condition {
    ghost use Rattle.module_grammar.specs.Tokens.{begins_contract};

    ghost first = { begins_contract };

    fn starts(tokens: &[Token]) -> bool {
        starts_contract(tokens)
    }
}

/// None or more contracts.
pub fn contracts(
    alloc: Global,
    levels: usize,
    tokens: &[Token],
) -> Result<(Seq<Contract>, &[Token]), Fault<'_>>
    ensures { Gives result (reader.contracts levels tokens.now) }
{
    as_many::<Condition>(alloc, levels, tokens)
}
