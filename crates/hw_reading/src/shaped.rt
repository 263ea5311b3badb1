//! Tokens as a grammar sees them before it reads them: by their shapes alone.

ghost use Rattle.std.specs.Prelude.{◌≡◌, Bool, true, [], ◌∷◌};
ghost use Rattle.hw_text.specs.Language.{One};
ghost use Rattle.hw_text.specs.Reading.{Reads, Anything, ahead, begins};
ghost use Rattle.hw_reading.specs.Shapes.{one_of, place_of};

use hw_text::{Cursor, Place, Placed, ReadFault};

/// Tokens that have shapes: which word or mark a token is, and of which kind another one.
pub trait Shaped {
    type Shape: Copy;

    ghost shape: { Self → Self.Shape };

    ghost same: { Self.Shape → Self.Shape → Bool };

    /// Whether the token has this shape.
    fn has(&self, wanted: Self::Shape) -> bool
        ensures { result ≡ same (shape self.now) wanted };

    ghost sample: { (s : Self.Shape) → (t : Self) × (same (shape t) s ≡ true) };
}

/// Whether a token of this shape is ahead.
pub fn stands<T: Shaped>(tokens: &Cursor<'_, Placed<T>>, wanted: T::Shape) -> bool
    ensures { result ≡ begins (one_of T.shape T.same (wanted ∷ [])) tokens.now }
{
    match tokens.peek() {
        Some(placed) => placed.token.has(wanted),
        None => false,
    }
}

/// Whether a token of one of two shapes is ahead.
pub fn stands_either<T: Shaped>(
    tokens: &Cursor<'_, Placed<T>>,
    one: T::Shape,
    other: T::Shape,
) -> bool
    ensures { result ≡ begins (one_of T.shape T.same (one ∷ other ∷ [])) tokens.now }
{
    match tokens.peek() {
        Some(placed) => placed.token.has(one) || placed.token.has(other),
        None => false,
    }
}

/// Where the token ahead stands, if it has this shape.
fn place_ahead<T: Shaped>(tokens: &Cursor<'_, Placed<T>>, shape: T::Shape) -> Option<Place>
    ensures { result ≡ ahead (place_of T.shape T.same shape) tokens.now }
{
    match tokens.peek() {
        Some(placed) if placed.token.has(shape) => Some(placed.place),
        _ => None,
    }
}

/// Reads the word or mark of this shape.
pub fn symbol<T: Shaped>(
    tokens: &mut Cursor<'_, Placed<T>>,
    shape: T::Shape,
) -> Result<Place, ReadFault>
    ensures { Reads (One (place_of T.shape T.same shape)) Anything tokens.old tokens.new result }
{
    let Some(place) = place_ahead(tokens, shape) else {
        return Err(ReadFault::Syntax);
    };
    tokens.pass();
    Ok(place)
}
