//! Words and marks of which each stands for a value.

ghost use Rattle.std.specs.Prelude.{◌≡◌, ◌<◌, length};
ghost use Rattle.hw_text.specs.Language.{One};
ghost use Rattle.hw_text.specs.Reading.{Reads, Anything, ahead, begins};
ghost use Rattle.hw_reading.specs.Shapes.{one_of, listed_in, one_listed, shapes_of};

use crate::shaped::Shaped;
use hw_text::{Cursor, Place, Placed, ReadFault};

/// What the token stands for in a list of shapes.
pub fn listed<T: Shaped, X: Copy>(token: &T, rows: &[(T::Shape, X)]) -> Option<X>
    ensures { result ≡ listed_in T.same rows.now (T.shape token.now) }
{
    for &(shape, value) in rows {
        if token.has(shape) {
            return Some(value);
        }
    }
    None
}

/// What the token ahead stands for in a list of shapes, and where it stands.
fn listed_ahead<T: Shaped, X: Copy>(
    tokens: &Cursor<'_, Placed<T>>,
    rows: &[(T::Shape, X)],
) -> Option<(Place, X)>
    ensures { result ≡ ahead (one_listed T.shape T.same rows.now) tokens.now }
{
    let placed = tokens.peek()?;
    let value = listed(&placed.token, rows)?;
    Some((placed.place, value))
}

/// Whether a token of one of the shapes is ahead.
pub fn stands_listed<T: Shaped, X: Copy>(
    tokens: &Cursor<'_, Placed<T>>,
    rows: &[(T::Shape, X)],
) -> bool
    ensures { result ≡ begins (one_of T.shape T.same (shapes_of rows.now)) tokens.now }
{
    listed_ahead(tokens, rows).is_some()
}

/// Reads a token of one of the shapes, of which there is one at least.
pub fn read_listed<T: Shaped, X: Copy>(
    tokens: &mut Cursor<'_, Placed<T>>,
    rows: &[(T::Shape, X)],
) -> Result<(Place, X), ReadFault>
    requires { 0 < length rows.now }
    ensures { Reads (One (one_listed T.shape T.same rows.now)) Anything tokens.old tokens.new result }
{
    let Some(found) = listed_ahead(tokens, rows) else {
        return Err(ReadFault::Syntax);
    };
    tokens.pass();
    Ok(found)
}
