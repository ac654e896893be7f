//! A cursor over a source: the bytes that are left, and their place, which is updated byte by byte.
ghost use Rattle.std.specs.Prelude.{◌≡◌, ◌+◌, ◌<◌, ◌≤◌, length};
ghost use Rattle.abs_tree.specs.Limits.{source_limit};
ghost use Rattle.abs_tree.specs.Places.{place_after_byte};

use abs_tree::Place;

/// The bytes of a source that are left, and the place of the first of them.
#[derive(Clone, Copy)]
pub(crate) struct Cursor<'a> {
    pub rest: &'a [u8],
    pub place: Place,
    ghost in_text: { place.offset + length rest.now ≤ source_limit },
    ghost line: { place.line ≤ place.offset + 1 },
    ghost column: { place.column ≤ place.offset + 1 },
}

impl<'a> Cursor<'a> {
    ghost use Rattle.std.specs.Prelude.{drop, take};
    ghost use Rattle.abs_tree.specs.Places.{start, place_after};

    /// The cursor at the start of a source.
    pub fn new(source: &'a [u8]) -> Cursor<'a>
        requires { length source.now ≤ source_limit }
        ensures rest { result.rest.now ≡ source.now }
        ensures place { result.place ≡ start }
    {
        let place = Place {
            offset: 0,
            line: 1,
            column: 1,
        };
        Cursor {
            rest: source,
            place,
        }
    }

    /// The cursor after the next `count` bytes.
    pub fn advance(self, count: usize) -> Cursor<'a>
        requires { count ≤ length self.rest.now }
        ensures rest { result.rest.now ≡ drop count self.entry.rest.now }
        ensures place { result.place ≡ place_after self.entry.place (take count self.entry.rest.now) }
    {
        // The slice is split once, so that the loop carries the place alone.
        let (piece, rest) = self.rest.split_at(count);
        let mut place = self.place;
        for byte in piece {
            place = after_byte(place, *byte);
        }
        Cursor { rest, place }
    }
}

/// The place after the byte at this place.
fn after_byte(place: Place, byte: u8) -> Place
    requires offset { place.offset < source_limit }
    requires line { place.line ≤ place.offset + 1 }
    requires column { place.column ≤ place.offset + 1 }
    ensures { result ≡ place_after_byte place byte }
{
    let Place {
        offset,
        line,
        column,
    } = place;
    if byte == b'\n' {
        Place {
            offset: offset + 1,
            line: line + 1,
            column: 1,
        }
    } else {
        Place {
            offset: offset + 1,
            line,
            column: column + 1,
        }
    }
}
