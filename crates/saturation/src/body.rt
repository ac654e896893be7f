//! The bodies of a program, and the initial values of its classes, by their indices.
ghost use Rattle.std.specs.Prelude.{◌≡◌, ◌↔◌, List, map, Some};
ghost use Rattle.abs_program.specs.NamedViews.{program_tree};
ghost use Rattle.abs_tree.specs.Names.{name_of};
ghost use Rattle.abs_tree.specs.Syntax.{Name};
ghost use Rattle.contract_terms.specs.Views.{term_tree};
ghost use Rattle.saturation.specs.Rows.{MethodIs};
ghost use Rattle.saturation.specs.Uses.{body_terms};
ghost use Rattle.saturation.specs.declared.body.Body.{Body as Own};

use abs_program::Named;
use abs_tree::Symbol;
use contract_terms::{Term, Terms};

/// What facts rest on: the main block, a method, or the initial values of a class.
#[derive(Clone, Copy, Debug, PartialEq, Eq, Hash)]
pub enum Body {
    /// The main block.
    Main,
    /// The method at an index among the members of the class with an index.
    Method { class: u32, member: u32 },
    /// The initial values of the fields of the class with an index.
    Initials { class: u32 },
}

impl Body {
    /// The method with a name of the class with a name.
    pub fn of_method(program: &Named<'_>, class: Symbol, method: Symbol) -> Option<Body>
        ensures { (own : Own) → (result ≡ Some own) ↔ MethodIs (program_tree program.now)
            (name_of program.now.symbols class) (name_of program.now.symbols method) own }
    {
        let class = program.class(class)?.declaration;
        let member = program.method(class, method)?;
        Some(Body::Method { class, member })
    }

    /// The terms of a body. Initial values have none.
    #[tactic(auto, unfolding(crate::specs::Uses::body_terms))]
    pub fn terms<'p>(self, terms: &'p Terms) -> &'p [Term]
        ensures { (names : List Name) → map (term_tree names) result.now ≡ body_terms names terms.now self }
    {
        match self {
            Body::Main => terms.main(),
            Body::Method { class, member } => match terms.method(class, member) {
                Some(method) => method.terms.as_slice(),
                None => &[],
            },
            Body::Initials { .. } => &[],
        }
    }
}
