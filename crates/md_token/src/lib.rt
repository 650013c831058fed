//! The tokens of a program's text, each with its line: names, variables, integers, strings and signs, without white
//! space and comments. At each place the longest token is taken.
#![tactic(auto)]

mod bytes;
mod kind;
mod laws;
mod literal;
mod scan;
mod sign;
mod string;
mod token;
mod word;

pub use bytes::word_length;
pub use kind::{Kind, same_kind};
pub use laws::a_text_is_cut_in_one_way;
pub use literal::{number_of, string_value};
pub use scan::tokens;
pub use token::Token;
pub use word::{is_word, word_kind};
