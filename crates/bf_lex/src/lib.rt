//! From the bytes of a script to its tokens.
#![tactic(auto)]

pub mod fault;
mod gap;
pub mod keyword;
mod lexeme;
pub mod lexer;
pub mod sign;
pub mod token;

pub use fault::{ScriptError, ScriptFault, ScriptKind};
pub use keyword::Keyword;
pub use lexer::{content, tokens};
pub use sign::Sign;
pub use token::{Token, TokenKind};
