//! The lengths of the parts of a source, found byte by byte.
ghost use Rattle.std.specs.Prelude.{◌≡◌, ◌+◌, ◌<◌, ◌≤◌, length, IfSome};
ghost use Rattle.std.specs.Char.{is_ascii_digit};
ghost use Rattle.std.specs.List.{prefix_len};
ghost use Rattle.std.specs.Str.Lossy.{utf8_valid_len};
ghost use Rattle.abs_lexer.specs.Forms.{is_word, is_on_line};
ghost use Rattle.abs_lexer.specs.Scans.{closing_quote as closing_quote_of, bad_escape as bad_escape_of, block_end};

use memchr::memmem;

/// The length of the word that the bytes begin with.
pub(crate) fn word(bytes: &[u8]) -> usize
    ensures count { result ≡ prefix_len is_word bytes.now }
    ensures within { result ≤ length bytes.now }
{
    bytes
        .iter()
        .take_while(|byte| byte.is_ascii_alphanumeric() || **byte == b'_')
        .count()
}

/// The number of digits that the bytes begin with.
pub(crate) fn digits(bytes: &[u8]) -> usize
    ensures count { result ≡ prefix_len is_ascii_digit bytes.now }
    ensures within { result ≤ length bytes.now }
{
    bytes
        .iter()
        .take_while(|byte| byte.is_ascii_digit())
        .count()
}

/// The number of bytes before the end of the line.
pub(crate) fn line(bytes: &[u8]) -> usize
    ensures count { result ≡ prefix_len is_on_line bytes.now }
    ensures within { result ≤ length bytes.now }
{
    bytes.iter().take_while(|byte| **byte != b'\n').count()
}

/// After `/*`: the number of bytes before the next `*/`.
pub(crate) fn block(bytes: &[u8]) -> Option<usize>
    ensures count { result ≡ block_end bytes.now }
    ensures within { IfSome result (λ count. count + 2 ≤ length bytes.now) }
{
    memmem::find(bytes, b"*/")
}

/// After the quote that opens a string: the number of bytes before the one that closes it on the same line.
#[tactic(auto, unfolding(crate::specs::Scans::closing_quote, crate::specs::Scans::closing_after_escape))]
pub(crate) fn closing_quote(bytes: &[u8]) -> Option<usize>
    ensures count { result ≡ closing_quote_of bytes.now }
    ensures within { IfSome result (λ count. count < length bytes.now) }
{
    let mut count = 0;
    let mut rest = bytes;
    while let Some((byte, others)) = rest.split_first() {
        match *byte {
            b'"' => return Some(count),
            b'\n' => return None,
            b'\\' => {
                let (escaped, after) = others.split_first()?;
                if *escaped == b'\n' {
                    return None;
                }
                count += 2;
                rest = after;
            }
            _ => {
                count += 1;
                rest = others;
            }
        }
    }
    None
}

/// The number of bytes before the first `\` that begins no escape, or before the end.
#[tactic(auto, unfolding(crate::specs::Scans::bad_escape))]
pub(crate) fn bad_escape(bytes: &[u8]) -> usize
    ensures { result ≡ bad_escape_of bytes.now }
{
    let mut count = 0;
    let mut rest = bytes;
    while let Some((byte, others)) = rest.split_first() {
        match others.split_first() {
            Some((escaped, after)) if *byte == b'\\' => {
                if !matches!(escaped, b'n' | b't' | b'r' | b'"' | b'\\') {
                    return count;
                }
                count += 2;
                rest = after;
            }
            _ => {
                count += 1;
                rest = others;
            }
        }
    }
    count
}

/// The number of bytes before the first one that is not UTF-8, or before the end.
pub(crate) fn utf8(bytes: &[u8]) -> usize
    ensures { result ≡ utf8_valid_len bytes.now }
{
    match str::from_utf8(bytes) {
        Ok(text) => text.len(),
        Err(error) => error.valid_up_to(),
    }
}
