//! What facts are computed within: how exact names are, and how many facts there may be.
ghost use Rattle.std.specs.Prelude.{◌≤◌};

/// The longest name that can be asked for, in places.
const DEEPEST: u64 = 3;

/// The highest limit that can be asked for, in facts.
const MOST: u64 = 4_000_000;

/// The depth of names, and how many facts there may be.
#[derive(Drop)]
pub(crate) struct Bounds {
    pub(crate) depth: u8,
    pub(crate) limit: u64,
    ghost has_names: { 1 ≤ depth },
    ghost names_end: { depth ≤ 3 },
    ghost has_facts: { 1 ≤ limit },
    ghost facts_end: { limit ≤ 4000000 },
}

impl Bounds {
    /// The bounds that two words of the command line give. Without the first the depth is 1, and without the second the
    /// limit is a million.
    pub(crate) fn given(depth: Option<&str>, limit: Option<&str>) -> Option<Bounds> {
        let depth = number(depth.unwrap_or("1"))?;
        let limit = number(limit.unwrap_or("1000000"))?;
        if 1 <= depth && depth <= DEEPEST && 1 <= limit && limit <= MOST {
            Some(Bounds {
                depth: depth as u8,
                limit,
            })
        } else {
            None
        }
    }
}

/// The number of which a word has the digits, and nothing else.
fn number(word: &str) -> Option<u64> {
    if word.bytes().all(|byte| byte.is_ascii_digit()) {
        word.parse::<u64>().ok()
    } else {
        None
    }
}
