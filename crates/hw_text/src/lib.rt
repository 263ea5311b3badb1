//! Names, text, lists and refusals, and the bytes, places and tokens of which texts consist: the
//! words in which every other crate speaks.
#![tactic(auto)]

mod base_type;
mod blank;
mod boxed;
mod byte_list;
mod bytes;
mod code;
mod cursor;
mod document;
mod fault;
mod name;
mod no_memory;
mod number;
mod place;
mod placed;
mod read_fault;
mod refusal;
mod reserved;
mod rows;
mod text_buf;
mod whole;
mod word_list;

pub use base_type::BaseType;
pub use blank::{is_white, skipped};
pub use boxed::Boxed;
pub use byte_list::ByteList;
pub use bytes::{
    ByteClass, begins_with, behind_byte, behind_bytes, front, is_digit, is_letter, text_length,
};
pub use code::Code;
pub use cursor::Cursor;
pub use document::{Detail, Document};
pub use fault::Fault;
pub use name::{Name, NameFault};
pub use no_memory::NoMemory;
pub use number::decimal;
pub use place::{Place, place_behind, place_of_rest};
pub use placed::{Lexed, Placed};
pub use read_fault::ReadFault;
pub use refusal::Refusal;
pub use rows::Rows;
pub use text_buf::TextBuf;
pub use whole::Whole;
pub use word_list::WordList;
