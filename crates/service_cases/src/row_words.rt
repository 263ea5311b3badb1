//! The words of rows.

use arch_model::{Kind, Role};
use case_files::{Trouble, number};
use hw_text::{ByteList, Name};
use std::alloc::Global;

pub fn name_of(alloc: Global, word: &ByteList) -> Result<Name, Trouble> {
    match Name::read(alloc, word.rows()) {
        Ok(name) => Ok(name),
        Err(_) => Err(Trouble::BadLine),
    }
}

pub fn role_of(word: &ByteList) -> Result<Role, Trouble> {
    match word.rows() {
        b"device" => Ok(Role::Device),
        b"periodic" => Ok(Role::Periodic),
        b"sporadic" => Ok(Role::Sporadic),
        _ => Err(Trouble::BadLine),
    }
}

pub fn kind_of(word: &ByteList) -> Result<Kind, Trouble> {
    match word.rows() {
        b"data" => Ok(Kind::Sampled),
        b"event" => Ok(Kind::Event),
        b"event_data" => Ok(Kind::EventItem),
        _ => Err(Trouble::BadLine),
    }
}

/// Whether the word is the first of two; an error where it is none of them.
pub fn is_first(word: &ByteList, first: &[u8], second: &[u8]) -> Result<bool, Trouble> {
    if word.rows() == first {
        Ok(true)
    } else if word.rows() == second {
        Ok(false)
    } else {
        Err(Trouble::BadLine)
    }
}

pub fn time(word: &ByteList) -> Result<u64, Trouble> {
    match number(word.rows()) {
        Some(number) => u64::try_from(number).map_err(|_| Trouble::BadLine),
        None => Err(Trouble::BadLine),
    }
}

pub fn small(word: &ByteList) -> Result<u32, Trouble> {
    match number(word.rows()) {
        Some(number) => u32::try_from(number).map_err(|_| Trouble::BadLine),
        None => Err(Trouble::BadLine),
    }
}
