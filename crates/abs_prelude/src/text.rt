//! The text of the prelude, and its names, which are interned after those of a source.
ghost use Rattle.std.specs.Prelude.{◌≡◌, ◌<◌, ◌≤◌, [], length, get_or, take, fold, IfOk, OnOk};
ghost use Rattle.abs_tree.specs.Limits.{table_limit};
ghost use Rattle.abs_tree.specs.Names.{name_of, with_name};
ghost use Rattle.abs_prelude.specs.Prelude.{prelude_names};

use abs_tree::limits::TABLE_LIMIT;
use abs_tree::{Symbol, Symbols};
use std::alloc::AllocError;

/// The text of the prelude: its declarations, and on a last line the names that are built in.
pub const TEXT: &str = "\
data Unit = Unit;
data Bool = True | False;
data List<A> = Nil | Cons(A, List<A>);
data Maybe<A> = Nothing | Just(A);
data Pair<A, B> = Pair(A, B);
def A head<A>(List<A> l) = case l { Cons(x, r) => x; };
def List<A> tail<A>(List<A> l) = case l { Cons(x, r) => r; };
def Bool isEmpty<A>(List<A> l) = case l { Nil => True; Cons(x, r) => False; };
def Int length<A>(List<A> l) = case l { Nil => 0; Cons(x, r) => 1 + length(r); };
def A nth<A>(List<A> l, Int n) = if n == 0 then head(l) else nth(tail(l), n - 1);
def List<A> append<A>(List<A> l, List<A> m) = case l { Nil => m; Cons(x, r) => Cons(x, append(r, m)); };
def A fst<A, B>(Pair<A, B> p) = case p { Pair(a, b) => a; };
def B snd<A, B>(Pair<A, B> p) = case p { Pair(a, b) => b; };
def A fromJust<A>(Maybe<A> m) = case m { Just(x) => x; };
String toString A x Fut
";

/// Where each name first appears in the text, and its length.
const NAMES: [(u16, u8); 34] = [
    (5, 4),
    (23, 4),
    (30, 4),
    (37, 5),
    (49, 4),
    (54, 1),
    (59, 3),
    (65, 4),
    (88, 5),
    (99, 7),
    (109, 4),
    (123, 4),
    (131, 1),
    (154, 4),
    (170, 1),
    (189, 1),
    (192, 1),
    (216, 4),
    (275, 7),
    (349, 3),
    (353, 6),
    (433, 3),
    (455, 1),
    (521, 6),
    (550, 1),
    (620, 3),
    (641, 1),
    (660, 1),
    (663, 1),
    (681, 3),
    (742, 8),
    (794, 6),
    (801, 8),
    (814, 3),
];

/// The name of the prelude at an index, as a part of its text.
#[tactic(auto, unfolding(crate::specs::Prelude::prelude_names))]
fn name(index: usize) -> &'static [u8]
    requires { index < length prelude_names }
    ensures { result.now ≡ get_or prelude_names index [] }
{
    let (start, length) = NAMES[index];
    let start = usize::from(start);
    let end = start + usize::from(length);
    let text = TEXT.as_bytes();
    &text[start..end]
}

/// The symbol of the name of the prelude at an index.
///
/// # Errors
/// [`AllocError`] if the table does not have the name, or there is none at the index.
#[tactic(auto, unfolding(crate::specs::Prelude::prelude_names))]
pub fn symbol_of(symbols: &Symbols<'_>, index: u8) -> Result<Symbol, AllocError>
    requires few { length symbols.now ≤ table_limit }
    ensures { IfOk result (λ symbol. name_of symbols.now symbol ≡ get_or prelude_names index []) }
{
    let number = usize::from(index);
    if number >= NAMES.len() {
        return Err(AllocError);
    }
    match symbols.find(name(number)) {
        Some(symbol) => Ok(symbol),
        None => Err(AllocError),
    }
}

/// Adds the names of the prelude to a table, and returns how many names it had.
///
/// # Errors
/// [`AllocError`] if an allocation fails, or the table has no room.
#[tactic(auto, unfolding(crate::specs::Prelude::prelude_names))]
pub fn add_names(symbols: &mut Symbols<'_>) -> Result<u32, AllocError>
    requires few { length symbols.old ≤ table_limit }
    ensures few { OnOk result (length symbols.new ≤ table_limit) }
    ensures names { OnOk result (symbols.new ≡ fold with_name symbols.old prelude_names) }
    ensures earlier { IfOk result (λ count. take count symbols.new ≡ symbols.old) }
{
    let count = symbols.len() as u32;
    for index in 0..NAMES.len() {
        if symbols.len() >= TABLE_LIMIT {
            return Err(AllocError);
        }
        symbols.intern(name(index))?;
    }
    Ok(count)
}
