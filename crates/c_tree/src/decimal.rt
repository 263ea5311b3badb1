//! Literals of numbers in base ten.

ghost use Rattle.std.specs.Prelude.{◌≡◌, IfOk};
ghost use Rattle.c_tree.specs.Decimals.{decimal_text};

use hw_text::{NoMemory, TextBuf};
use std::alloc::Global;

/// A number in base ten, with a `u` behind it where no signed type has it.
pub fn decimal_text(alloc: Global, number: u64) -> Result<TextBuf, NoMemory>
    ensures { IfOk result (λ text. text ≡ decimal_text number) }
{
    let mut text = TextBuf::new(alloc);
    text.number(i128::from(number))?;
    if number >= 1 << 63 {
        text.word(b"u")?;
    }
    Ok(text)
}
