//! Interfaces that extend themselves, in one step or in more.
ghost use Rattle.std.specs.Prelude.{◌≡◌, List, fold, map, OnOk};
ghost use Rattle.abs_graph.specs.Graphs.{on_cycles as cycles_of};
ghost use Rattle.abs_program.specs.NameSpaces.{spaces_of};
ghost use Rattle.abs_tree.specs.Offences.{earlier};
ghost use Rattle.abs_program.specs.Supertypes.{supertypes};
ghost use Rattle.abs_tree.specs.Syntax.{Name};
ghost use Rattle.abs_tree.specs.SyntaxViews.{decl_tree};
ghost use Rattle.abs_names.specs.Extension.{extension_offences, name_place as place_of_name};

use crate::walk::{Walk, note_if};
use abs_graph::{is_marked, on_cycles};
use abs_tree::{Code, Decl, Place};
use std::alloc::AllocError;

/// Where the name of a declaration is.
fn name_place(declaration: &Decl) -> Place
    ensures { (names : List Name) → result ≡ place_of_name (decl_tree names declaration.now) }
{
    match declaration {
        Decl::Data { name, .. }
        | Decl::Function { name, .. }
        | Decl::Interface { name, .. }
        | Decl::Class { name, .. } => name.place,
    }
}

impl Walk<'_> {
    /// Notes each of these declarations that extends itself. The values say which do.
    fn note_cycles(&mut self, cycles: &[bool], declarations: &[Decl])
        ensures noted { (names : List Name) → self.new.first ≡ fold earlier self.old.first
            (extension_offences cycles.now (map (decl_tree names) declarations.now)) }
        ensures scope { self.new.scope ≡ self.old.scope }
    {
        for index in 0..declarations.len() {
            let extends_itself = is_marked(cycles, index);
            let place = name_place(&declarations[index]);
            note_if(&mut self.first, extends_itself, place, Code::N4);
        }
    }

    /// Notes each interface that extends itself. All declarations are resolved, and are those of the name spaces.
    ///
    /// # Errors
    /// [`AllocError`] if an allocation fails.
    pub fn note_extensions(&mut self, declarations: &[Decl]) -> Result<(), AllocError>
        requires { self.old.scope.scope.around.spaces
            ≡ spaces_of (map (decl_tree self.old.scope.names.after) declarations.now) }
        ensures noted { OnOk result (self.new.first ≡ fold earlier self.old.first (extension_offences
            (cycles_of (supertypes (map (decl_tree self.old.scope.names.after) declarations.now)))
            (map (decl_tree self.old.scope.names.after) declarations.now))) }
        ensures scope { OnOk result (self.new.scope ≡ self.old.scope) }
    {
        let graph = self.scope.around().supertypes(self.alloc, declarations)?;
        let cycles = on_cycles(self.alloc, graph.as_slice())?;
        self.note_cycles(cycles.as_slice(), declarations);
        Ok(())
    }
}
