//! The tokens of a query text.
//!
//! A text is cut from left to right into its longest pieces; the pieces that are tokens, with the end mark, are the
//! tokens of the text. `specs/Pieces.antt` says what each piece is, `specs/Lexing.antt` how a text is cut.
#![tactic(auto)]

mod classes;
mod forms;
mod fronts;
mod keyword;
mod lexer;
mod literals;
mod numbers;
mod place;
mod strings;
mod token;

pub use keyword::{KEYWORDS, Keyword, is_reserved, is_word, keyword_of};
pub use lexer::{LexFault, lex, one_reading};
pub use place::{MAX_BYTES, Place};
pub use token::{Token, TokenForm, Tokens};
