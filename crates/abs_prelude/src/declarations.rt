//! The declarations of the prelude: their trees are made from a table of codes, since a fixed text needs no parser.
ghost use Rattle.std.specs.Prelude.{◌≡◌, ◌≤◌, length, map, IfOk};
ghost use Rattle.abs_tree.specs.Limits.{table_limit};
ghost use Rattle.abs_tree.specs.SyntaxViews.{decl_tree};
ghost use Rattle.abs_prelude.specs.Prelude.{prelude};

use crate::parts::build;
use crate::table::CODES;
use abs_tree::{Decl, Symbols};
use std::alloc::{AllocError, Global};

/// How many declarations the prelude has. They come first in a resolved program.
pub const DECLARATIONS: usize = 14;

/// The prelude has [`DECLARATIONS`] declarations.
#[tactic(auto, unfolding(crate::specs::Prelude::prelude))]
pub fn declarations_are_counted()
    ensures { DECLARATIONS ≡ length prelude }
{}

/// The declarations of the prelude, over a table that has its names.
///
/// # Errors
/// [`AllocError`] if an allocation fails, or the table does not have a name of the prelude.
pub fn prelude(alloc: Global, symbols: &Symbols<'_>) -> Result<Vec<Decl>, AllocError>
    requires few { length symbols.now ≤ table_limit }
    ensures { IfOk result (λ found. map (decl_tree symbols.now) found.items ≡ prelude) }
{
    build(alloc, symbols, CODES)
}
