// Bytes in hexadecimal.
ghost use Rattle.std.specs.Prelude.{◌<◌, IfSome};

use std::alloc::{AllocError, Global};
use std::fmt;

// The value of a hexadecimal digit.
fn digit(b: u8) -> Option<u8>
    ensures { IfSome result (λ d. d < 16) }
{
    match b {
        b'0'..=b'9' => Some(b - b'0'),
        b'A'..=b'F' => Some(b - b'A' + 10),
        _ => None,
    }
}

// The byte of two hexadecimal digits.
fn byte(word: &[u8]) -> Option<u8> {
    match word {
        [high, low] => Some(16 * digit(*high)? + digit(*low)?),
        _ => None,
    }
}

// The bytes of a text in hexadecimal; words that are no bytes are passed over.
pub(crate) fn bytes(heap: Global, text: &str) -> Result<Vec<u8>, AllocError> {
    text.split_whitespace()
        .filter_map(|word| byte(word.as_bytes()))
        .collect(heap)
}

// Bytes with a blank between two. Beside `List`, which prints in decimal: std prints only integers in hexadecimal.
#[derive(Clone, Copy, Drop)]
pub(crate) struct Hex<'a>(pub(crate) &'a [u8]);

impl fmt::Display for Hex<'_> {
    fn fmt<W: fmt::Write>(&self, f: &mut fmt::Formatter<W>) -> fmt::Result {
        if let Some((first, rest)) = self.0.split_first() {
            write!(f, "{first:02X}")?;
            for b in rest {
                write!(f, " {b:02X}")?;
            }
        }
        Ok(())
    }
}

// A stroke, and then bytes with a blank before each.
#[derive(Clone, Copy, Drop)]
pub(crate) struct After<'a>(pub(crate) &'a [u8]);

impl fmt::Display for After<'_> {
    fn fmt<W: fmt::Write>(&self, f: &mut fmt::Formatter<W>) -> fmt::Result {
        f.write_str(" /")?;
        for b in self.0 {
            write!(f, " {b:02X}")?;
        }
        Ok(())
    }
}
