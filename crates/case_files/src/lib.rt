//! Files of cases, for programs that compare what is told of texts.
//!
//! A file has one case behind the other. A case is a line with `=== ` and its title, a text, a line `---`, and what is
//! to be told of the text. Neither the line break in front of `---` nor the last one is part of them.
#![tactic(auto)]

mod cases;
mod escapes;
mod words;

pub use cases::{Teller, compare_file, compare_files};
pub use escapes::unescaped;
pub use words::{bytes_of, first_word, tell_bytes};
