//! The values of the literals of numbers and strings.
ghost use Rattle.std.specs.Prelude.{◌≡◌, ◌<◌, ◌^◌, drop, IfOk, pos};
ghost use Rattle.std.specs.Str.Parse.{digits_value};
ghost use Rattle.abs_lexer.specs.Forms.{IsNumber};
ghost use Rattle.abs_parser.specs.TreesOf.{unescaped, escaped_byte as byte_of_escape};

use abs_tree::Text;
use std::alloc::{AllocError, Global};

/// The value of decimal digits.
pub(crate) fn numeral(digits: &[u8]) -> i128
    requires number { IsNumber digits.now }
    requires fits { digits_value 10 digits.now < 2 ^ 127 }
    ensures { result ≡ pos (digits_value 10 digits.now) }
{
    match str::from_utf8(digits) {
        Ok(text) => match text.parse::<i128>() {
            Ok(number) => number,
            Err(_) => unreachable!(),
        },
        Err(_) => unreachable!(),
    }
}

/// The string of a literal: its bytes between the quotes, with one byte for each escape.
pub(crate) fn text(alloc: Global, literal: &[u8]) -> Result<Text, AllocError>
    ensures { IfOk result (λ text. text ≡ unescaped (drop 1 literal.now)) }
{
    let mut bytes = Vec::new(alloc);
    let mut rest = literal.get(1..).unwrap_or(&[]);
    while let Some((byte, after)) = rest.split_first() {
        rest = after;
        let plain = match (*byte, after.split_first()) {
            (b'\\', Some((escape, others))) => {
                rest = others;
                escaped_byte(*escape)
            }
            (b'"', _) => break,
            (byte, _) => byte,
        };
        bytes.push(plain)?;
    }
    Text::new(alloc, bytes)
}

/// The byte of an escape, by the byte after its backslash.
fn escaped_byte(escape: u8) -> u8
    ensures { result ≡ byte_of_escape escape }
{
    match escape {
        b'n' => b'\n',
        b't' => b'\t',
        b'r' => b'\r',
        other => other,
    }
}
