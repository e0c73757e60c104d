//! The grammar of expressions: what tokens spell what tree, and readers that read exactly that. It runs nothing but the
//! sorting of primary forms by their first token; its laws carry what is proved of the definitions.
#![tactic(auto)]

ghost use Rattle.std.specs.Prelude.{◌≡◌};
ghost use Rattle.expression_grammar.specs.Forms.{primary_form, form_of_key};

mod laws;

use ivory_lexer::{Key, Mark, TokenKind};
pub use laws::{
    an_expression_has_one_tree, expressions_are_read_exactly, nesting_is_counted_so,
    operators_are_read_so, parts_are_read_so,
};

/// The forms of a primary expression that their first token tells, all but parentheses.
#[derive(Clone, Copy)]
pub enum PrimaryForm {
    Number,
    Negative,
    Truth,
    Outcome,
    Variable,
    Cast,
    ToIndex,
    WrapIndex,
    MakeBits,
    Raw,
    SetField,
}

/// The form of a primary expression that begins with a token of this kind, if it is one of these.
pub fn primary_form(kind: &TokenKind) -> Option<PrimaryForm>
    ensures { result ≡ primary_form kind.now }
{
    match kind {
        TokenKind::Number(_) => Some(PrimaryForm::Number),
        TokenKind::Name(_) => Some(PrimaryForm::Variable),
        TokenKind::Mark(Mark::Minus) => Some(PrimaryForm::Negative),
        TokenKind::Mark(_) => None,
        TokenKind::Key(key) => form_of_key(*key),
    }
}

fn form_of_key(key: Key) -> Option<PrimaryForm>
    ensures { result ≡ form_of_key key }
{
    match key {
        Key::KwTrue | Key::KwFalse => Some(PrimaryForm::Truth),
        Key::KwResult => Some(PrimaryForm::Outcome),
        Key::KwUint8t | Key::KwUint16t | Key::KwUint32t | Key::KwUint64t => Some(PrimaryForm::Cast),
        Key::KwInt8t | Key::KwInt16t | Key::KwInt32t | Key::KwInt64t => Some(PrimaryForm::Cast),
        Key::KwToix => Some(PrimaryForm::ToIndex),
        Key::KwWrapix => Some(PrimaryForm::WrapIndex),
        Key::KwBits => Some(PrimaryForm::MakeBits),
        Key::KwRaw => Some(PrimaryForm::Raw),
        Key::KwSet => Some(PrimaryForm::SetField),
        _ => None,
    }
}
