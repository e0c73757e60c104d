//! The grammar of modules above that of expressions: types and areas, initializers, calls, statements and blocks, items, and
//! whole modules; what tokens spell what tree, and readers that read exactly that. It runs nothing but the sorting of types,
//! statements and items by their first token; its laws carry what is proved of the definitions.
#![tactic(auto)]

ghost use Rattle.std.specs.Prelude.{◌≡◌};
ghost use Rattle.module_grammar.specs.Forms.{item_form, item_form_of_key, statement_form, statement_form_of_key, value_form, value_form_of_key};

mod laws;

use ivory_lexer::{Key, Mark, TokenKind};
pub use laws::{
    a_module_has_one_tree, blocks_are_read_so, items_are_read_so, modules_are_read_exactly,
    modules_are_read_so, statements_are_read_so, types_are_read_so,
};

/// The forms of a stored type that their first token tells, all but bit data by its name.
#[derive(Clone, Copy, Drop)]
pub enum ValueForm {
    Truth,
    Whole,
    Index,
}

/// The forms of a statement that their first token tells, all but a call.
#[derive(Clone, Copy, Drop)]
pub enum StatementForm {
    Let,
    Alloc,
    Store,
    Copy,
    If,
    Forever,
    Map,
    Upto,
    Downto,
    Break,
    Return,
    Assert,
    NoAlloc,
    NoBreak,
    NoReturn,
}

/// The forms of an item that their first token tells, all but a procedure.
#[derive(Clone, Copy, Drop)]
pub enum ItemForm {
    Bits,
    Struct,
    Area,
    Import,
}

/// The form of a stored type that begins with a token of this kind, if it is one of these.
pub fn value_form(kind: &TokenKind) -> Option<ValueForm>
    ensures { result ≡ value_form kind.now }
{
    match kind {
        TokenKind::Key(key) => value_form_of_key(*key),
        _ => None,
    }
}

fn value_form_of_key(key: Key) -> Option<ValueForm>
    ensures { result ≡ value_form_of_key key }
{
    match key {
        Key::KwBool => Some(ValueForm::Truth),
        Key::KwIx => Some(ValueForm::Index),
        Key::KwUint8t | Key::KwUint16t | Key::KwUint32t | Key::KwUint64t => Some(ValueForm::Whole),
        Key::KwInt8t | Key::KwInt16t | Key::KwInt32t | Key::KwInt64t => Some(ValueForm::Whole),
        _ => None,
    }
}

/// The form of a statement that begins with a token of this kind, if it is one of these.
pub fn statement_form(kind: &TokenKind) -> Option<StatementForm>
    ensures { result ≡ statement_form kind.now }
{
    match kind {
        TokenKind::Mark(Mark::Star) => Some(StatementForm::Store),
        TokenKind::Key(key) => statement_form_of_key(*key),
        _ => None,
    }
}

fn statement_form_of_key(key: Key) -> Option<StatementForm>
    ensures { result ≡ statement_form_of_key key }
{
    match key {
        Key::KwLet => Some(StatementForm::Let),
        Key::KwAlloc => Some(StatementForm::Alloc),
        Key::KwCopy => Some(StatementForm::Copy),
        Key::KwIf => Some(StatementForm::If),
        Key::KwForever => Some(StatementForm::Forever),
        Key::KwMap => Some(StatementForm::Map),
        Key::KwUpto => Some(StatementForm::Upto),
        Key::KwDownto => Some(StatementForm::Downto),
        Key::KwBreak => Some(StatementForm::Break),
        Key::KwReturn => Some(StatementForm::Return),
        Key::KwAssert => Some(StatementForm::Assert),
        Key::KwNoalloc => Some(StatementForm::NoAlloc),
        Key::KwNobreak => Some(StatementForm::NoBreak),
        Key::KwNoreturn => Some(StatementForm::NoReturn),
        _ => None,
    }
}

/// The form of an item that begins with a token of this kind, if it is one of these.
pub fn item_form(kind: &TokenKind) -> Option<ItemForm>
    ensures { result ≡ item_form kind.now }
{
    match kind {
        TokenKind::Key(key) => item_form_of_key(*key),
        _ => None,
    }
}

fn item_form_of_key(key: Key) -> Option<ItemForm>
    ensures { result ≡ item_form_of_key key }
{
    match key {
        Key::KwBitdata => Some(ItemForm::Bits),
        Key::KwStruct => Some(ItemForm::Struct),
        Key::KwConst | Key::KwArea => Some(ItemForm::Area),
        Key::KwImport => Some(ItemForm::Import),
        _ => None,
    }
}
