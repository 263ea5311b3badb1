//! The reader of models, from their bytes.
#![tactic(auto)]

mod annex;
mod annex_text;
mod associations;
mod byte;
mod classes;
mod components;
mod connections;
mod features;
mod flaw;
mod imports;
mod leaf;
mod lexer;
mod name_token;
mod names;
mod number;
mod operator_mark;
mod own;
mod package;
mod part;
mod paths;
mod port_kinds;
mod printed;
mod quantity;
mod quoted_text;
mod reader;
mod refusals;
mod repeat;
mod section;
mod shape;
mod simple_value;
mod stop;
mod subcomponents;
mod symbols;
mod value;
mod value_token;
mod whole;
mod word;
mod word_token;

pub use lexer::{ModelTokens, read_tokens};
pub use printed::printed_is_text;
pub use reader::parse;
pub use stop::Stop;
