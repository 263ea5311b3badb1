//! Types as text: `{ u8 i32 *4 choice:3 }`.

use case_files::{Trouble, count};
use hw_text::{Boxed, Rows, WordList, behind_bytes};
use hw_types::{Scalar, Ty, TyList};
use std::alloc::Global;
use std::mem;

/// The type that the words spell. A star makes an array of so many of what stands before it.
pub fn type_of(alloc: Global, words: &WordList) -> Result<Ty, Trouble> {
    let mut outer = Rows::new(alloc);
    let mut fields = TyList::new(alloc);
    for word in words.rows() {
        match word.rows() {
            b"{" => outer.push(mem::replace(&mut fields, TyList::new(alloc)))?,
            b"}" => fields = closed(&mut outer, fields)?,
            word => add(alloc, &mut fields, word)?,
        }
    }
    match fields.pop() {
        Some(ty) if fields.is_empty() && outer.is_empty() => Ok(ty),
        _ => Err(Trouble::BadLine),
    }
}

/// The fields of the struct around, with the struct that ends as the last.
fn closed(outer: &mut Rows<TyList>, inner: TyList) -> Result<TyList, Trouble> {
    let Some(mut fields) = outer.pop() else {
        return Err(Trouble::BadLine);
    };
    fields.push(Ty::Fields(inner))?;
    Ok(fields)
}

/// Adds a field, or makes an array of the last.
fn add(alloc: Global, fields: &mut TyList, word: &[u8]) -> Result<(), Trouble> {
    let Some(digits) = behind_bytes(word, b"*") else {
        return Ok(fields.push(plain(word)?)?);
    };
    match (count(digits), fields.pop()) {
        (Some(times), Some(element)) => {
            Ok(fields.push(Ty::Times(Boxed::new(alloc, element)?, times))?)
        }
        _ => Err(Trouble::BadLine),
    }
}

/// The type without parts that a word spells.
fn plain(word: &[u8]) -> Result<Ty, Trouble> {
    match word {
        b"nothing" => Ok(Ty::Nothing),
        _ => Ok(Ty::One(scalar(word)?)),
    }
}

/// The scalar that a word spells.
pub fn scalar(word: &[u8]) -> Result<Scalar, Trouble> {
    match word {
        b"u8" => Ok(Scalar::U8),
        b"u16" => Ok(Scalar::U16),
        b"u32" => Ok(Scalar::U32),
        b"u64" => Ok(Scalar::U64),
        b"i8" => Ok(Scalar::I8),
        b"i16" => Ok(Scalar::I16),
        b"i32" => Ok(Scalar::I32),
        b"i64" => Ok(Scalar::I64),
        b"flag" => Ok(Scalar::Flag),
        _ => choice(word),
    }
}

/// `choice:COUNT`
fn choice(word: &[u8]) -> Result<Scalar, Trouble> {
    let Some(digits) = behind_bytes(word, b"choice:") else {
        return Err(Trouble::BadLine);
    };
    match count(digits) {
        Some(names) => Ok(Scalar::Choice(names)),
        None => Err(Trouble::BadLine),
    }
}
