//! The pieces of a C text one by one: words, numbers, blanks and marks, what kind the next one is, and taking it where it is wanted.
#![tactic(auto)]

mod digits;
mod fault;
mod leaf;
mod piece_kind;
mod scan;
mod words;

pub use fault::Fault;
pub use leaf::{
    blank, close, comma, fixed, indentation, length, mark, name, number, open, outdentation, scalar,
};
pub use piece_kind::{
    AMPERSAND, BREAK, COMMA, CONST, DOT, EXTERN, FOR, IF, INDENTATION, MINUS, NAME, NUMBER,
    ONE_BLANK, OPEN_BRACE, OPEN_PAREN, OPEN_SQUARE, RETURN, SCALAR, STAR, STATIC, STRUCT, TILDE,
    VOID, goes_on, is_expression, is_next, is_operand, is_plain_function, is_star_or_const,
    is_type, is_unary, kind,
};
pub use words::Fixed;
