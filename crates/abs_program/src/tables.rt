//! The tables of a resolved program. They tell in constant time what the name of a type, a function, a constructor or a
//! class stands for, which interfaces a declaration extends or implements, which declarations hold objects, where a
//! member of a declaration is, and what each statement does.
ghost use Rattle.std.specs.Prelude.{◌≡◌, ◌≤◌, false, length, map, All, IfOk};
ghost use Rattle.abs_graph.specs.Graphs.{on_cycles};
ghost use Rattle.abs_program.specs.KeptSpaces.{spaces_by_name, AreProper};
ghost use Rattle.abs_tree.specs.Limits.{table_limit};
ghost use Rattle.abs_program.specs.NameSpaces.{spaces_of};
ghost use Rattle.abs_program.specs.SlotViews.{BodyHasSlots, DeclHasSlots};
ghost use Rattle.abs_program.specs.Supertypes.{supertypes};
ghost use Rattle.abs_tree.specs.SyntaxSizes.{all_statements};
ghost use Rattle.abs_tree.specs.SyntaxViews.{decl_tree, tree_of_parts};
ghost use Rattle.abs_program.specs.TableFacts.{AreTables};

pub mod control;
pub mod effects;
pub mod entries;
pub mod fields;
pub mod holders;
mod indices;
pub mod instructions;
pub mod loop_sizes;
pub mod members;
pub mod methods;
pub mod signatures;
pub mod supertypes;

use crate::NameSpaces;
use crate::tables::control::Control;
use crate::tables::fields::Fields;
use crate::tables::holders::object_holders;
use crate::tables::methods::Methods;
use crate::tables::signatures::Signatures;
use crate::tables::supertypes::supertype_graph;
use abs_graph::{Closure, closure_of};
use abs_tree::Symbols;
use abs_tree::syntax::{Body, Decl};
use std::alloc::{AllocError, Global};

/// The tables of a resolved program.
#[derive(Drop)]
pub struct Tables {
    pub(crate) spaces: NameSpaces,
    pub(crate) supertypes: Closure,
    pub(crate) holders: Vec<bool>,
    pub(crate) methods: Methods,
    pub(crate) signatures: Signatures,
    pub(crate) fields: Fields,
    pub(crate) control: Control,
}

impl Tables {
    /// The tables of these declarations, whose name spaces are given, and of this main block.
    ///
    /// # Errors
    /// [`AllocError`] if an allocation fails, or if there are too many declarations, members or parameters.
    pub fn new(
        alloc: Global,
        symbols: &Symbols<'_>,
        spaces: NameSpaces,
        declarations: &[Decl],
        main: &Body,
    ) -> Result<Tables, AllocError>
        requires few { length symbols.now ≤ table_limit }
        requires few_statements { all_statements (tree_of_parts symbols.now declarations.now main.now) ≤ table_limit }
        requires main_has_slots { BodyHasSlots symbols.now 0 main.now }
        requires methods_have_slots { All (DeclHasSlots symbols.now) declarations.now }
        requires proper { AreProper symbols.now spaces }
        requires spaces { spaces_by_name symbols.now spaces ≡ spaces_of (map (decl_tree symbols.now) declarations.now) }
        requires no_cycle { All (λ is_on_cycle. is_on_cycle ≡ false)
            (on_cycles (supertypes (map (decl_tree symbols.now) declarations.now))) }
        ensures { IfOk result (λ tables.
            AreTables symbols.now (tree_of_parts symbols.now declarations.now main.now) tables) }
    {
        let graph = supertype_graph(alloc, symbols, &spaces, declarations)?;
        let holders = object_holders(alloc, symbols, &spaces, declarations)?;
        Ok(Tables {
            supertypes: closure_of(alloc, graph.as_slice())?,
            holders,
            methods: Methods::new(alloc, symbols, declarations)?,
            signatures: Signatures::new(alloc, symbols, declarations)?,
            fields: Fields::new(alloc, declarations)?,
            control: Control::new(alloc, symbols, declarations, main)?,
            spaces,
        })
    }
}
