//! Lists, boxes and cursors at concrete types.

use case_files::{Question, Trouble, number, tell_line, tell_number};
use hw_text::{Boxed, ByteList, Cursor, NoMemory, Rows, TextBuf, WordList, front};
use hw_types::Copied;
use std::alloc::Global;

/// Whether the question is one of lists.
pub fn answer(alloc: Global, question: &Question, out: &mut TextBuf) -> Result<bool, Trouble> {
    match question.word.rows() {
        b"numbers" => copied(alloc, &question.words(alloc)?, out)?,
        b"boxed" => boxed(alloc, &question.words(alloc)?, out)?,
        b"byte_list" => joined(alloc, &question.words(alloc)?, out)?,
        b"cursor" => passed(&numbers(alloc, &question.words(alloc)?)?, out)?,
        _ => return Ok(false),
    }
    Ok(true)
}

/// The numbers that the words spell.
pub fn numbers(alloc: Global, words: &WordList) -> Result<Rows<i128>, Trouble> {
    let mut numbers = Rows::new(alloc);
    for word in words.rows() {
        let Some(number) = number(word.rows()) else {
            return Err(Trouble::BadLine);
        };
        numbers.push(number)?;
    }
    Ok(numbers)
}

/// The numbers between single spaces.
pub fn tell_numbers(out: &mut TextBuf, numbers: &[i128]) -> Result<(), NoMemory> {
    for &number in numbers {
        out.word(b" ")?;
        out.number(number)?;
    }
    out.newline()
}

/// A copy of a list.
fn copied(alloc: Global, words: &WordList, out: &mut TextBuf) -> Result<(), Trouble> {
    let copy = numbers(alloc, words)?.copy()?;
    out.word(b"copy")?;
    Ok(tell_numbers(out, copy.rows())?)
}

/// The number in a box for each word.
fn boxed(alloc: Global, words: &WordList, out: &mut TextBuf) -> Result<(), Trouble> {
    for &number in numbers(alloc, words)?.rows() {
        let boxed = Boxed::new(alloc, number)?;
        tell_number(out, b"boxed", *boxed.get())?;
    }
    Ok(())
}

/// A copy of the bytes of all words, pushed and extended in turn.
fn joined(alloc: Global, words: &WordList, out: &mut TextBuf) -> Result<(), NoMemory> {
    let mut bytes = ByteList::new(alloc);
    for word in words.rows() {
        if let Some((first, rest)) = front(word.rows()) {
            bytes.push(first)?;
            bytes.extend(rest)?;
        }
    }
    tell_line(out, bytes.copy()?.rows())
}

/// Where a cursor stands over the numbers, up to one pass behind the last.
fn passed(numbers: &Rows<i128>, out: &mut TextBuf) -> Result<(), NoMemory> {
    let mut cursor = Cursor::new(numbers.rows());
    for _ in 0..numbers.len() {
        out.word(b"left ")?;
        out.number(cursor.left() as i128)?;
        if let Some(&number) = cursor.peek() {
            out.word(b", at ")?;
            out.number(number)?;
        }
        out.newline()?;
        cursor.pass();
    }
    cursor.pass();
    tell_number(out, b"left", cursor.left() as i128)
}
