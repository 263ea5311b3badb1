//! How values are printed.

ghost use Rattle.std.specs.Prelude.{◌≡◌, ◌++◌, OnOk, map};
ghost use Rattle.trace_text.specs.Pieces.{comma, filled, flag_text, number_text, scalar_text, separated, word_at};

use crate::Piece;
use arch_model::{Form, TypeRow};
use hw_text::{NoMemory, TextBuf, WordList};
use hw_types::{Scalar, Value};

/// Appends a value, by the pieces of its type.
pub fn print_value(
    out: &mut TextBuf,
    types: &[TypeRow],
    pieces: &[Piece],
    numbers: &[i128],
) -> Result<(), NoMemory>
    ensures { OnOk result (out.new ≡ out.old ++ filled types.now pieces.now numbers.now) }
{
    let mut rest = numbers;
    for piece in pieces {
        match *piece {
            Piece::Byte(byte) => out.word(&[byte])?,
            Piece::Scalar(place) => {
                if let Some((number, behind)) = rest.split_first() {
                    print_number(out, types, place, *number)?;
                    rest = behind;
                }
            }
        }
    }
    Ok(())
}

/// Appends values, with a comma and a space between them.
pub fn print_values(
    out: &mut TextBuf,
    types: &[TypeRow],
    pieces: &[Piece],
    values: &[Value],
) -> Result<(), NoMemory>
    ensures { OnOk result (out.new ≡ out.old ++ separated comma (map (filled types.now pieces.now) values.now)) }
{
    let Some((first, others)) = values.split_first() else {
        return Ok(());
    };
    print_value(out, types, pieces, first.rows())?;
    for value in others {
        out.word(b", ")?;
        print_value(out, types, pieces, value.rows())?;
    }
    Ok(())
}

/// Appends the number of a scalar, as its type says.
fn print_number(
    out: &mut TextBuf,
    types: &[TypeRow],
    place: u64,
    number: i128,
) -> Result<(), NoMemory>
    ensures { OnOk result (out.new ≡ out.old ++ number_text types.now place number) }
{
    let Some(row) = types.get(place as usize) else {
        return Ok(());
    };
    match row.form {
        Form::One(scalar) => print_scalar(out, scalar, &row.words, number),
        Form::Fields | Form::Times(_) | Form::Nothing => Ok(()),
    }
}

/// Appends a number, a truth value or an enumerator.
fn print_scalar(
    out: &mut TextBuf,
    scalar: Scalar,
    words: &WordList,
    number: i128,
) -> Result<(), NoMemory>
    ensures { OnOk result (out.new ≡ out.old ++ scalar_text scalar words.now number) }
{
    match scalar {
        Scalar::Flag => print_flag(out, number),
        Scalar::Choice(_) => print_word(out, words, number),
        _ => out.number(number),
    }
}

/// Appends the word of this number.
fn print_word(out: &mut TextBuf, words: &WordList, number: i128) -> Result<(), NoMemory>
    ensures { OnOk result (out.new ≡ out.old ++ word_at words.now number) }
{
    let words = words.rows();
    if number < 0 || number >= words.len() as i128 {
        return Ok(());
    }
    out.word(words[number as usize].rows())
}

/// Appends a truth value, false for 0 alone.
fn print_flag(out: &mut TextBuf, number: i128) -> Result<(), NoMemory>
    ensures { OnOk result (out.new ≡ out.old ++ flag_text number) }
{
    if number == 0 {
        out.word(b"false")
    } else {
        out.word(b"true")
    }
}
