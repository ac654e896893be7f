//! A source whose names are resolved, and what its names stand for.
ghost use Rattle.std.specs.Prelude.{◌≤◌, All, length};
ghost use Rattle.abs_tree.specs.Limits.{table_limit};
ghost use Rattle.abs_program.specs.KnownNames.{KnowsNames};
ghost use Rattle.abs_program.specs.SlotViews.{BodyHasSlots, DeclHasSlots};
ghost use Rattle.abs_tree.specs.SyntaxSizes.{all_statements, body_sizes, class_sizes};
ghost use Rattle.abs_tree.specs.SyntaxViews.{tree_of_parts};
ghost use Rattle.abs_program.specs.TableFacts.{HaveTables};
ghost use Rattle.abs_program.specs.TreeSets.{table_props};
ghost use Rattle.abs_program.specs.Whole.{IsWhole};

use crate::Tables;
use abs_tree::Symbols;
use abs_tree::syntax::{Body, Decl};

/// A source in which each variable and each type is resolved, after the declarations of the prelude. A parameter or a
/// local is a slot of its body, a variable of a pattern or of `let` is a bound variable, and a field of `this` is a
/// field. In an initial value an earlier field is a slot. Each method, and the main block, has the slots of its body.
///
/// Each name stands for what is there ([`named_is_whole`](crate::named_is_whole)), and the readers tell what it is. A
/// declaration is known by its index. The table has the name of each constructor, class and method.
#[derive(Drop)]
pub struct Named<'a> {
    pub symbols: Symbols<'a>,
    pub declarations: Vec<Decl>,
    pub main: Body,
    pub tables: Tables,
    ghost few_names: { length symbols ≤ table_limit },
    ghost few_statements: { all_statements (tree_of_parts symbols declarations.items main) ≤ table_limit },
    ghost few_variables: { All (λ variables. variables ≤ table_limit)
        (body_sizes (tree_of_parts symbols declarations.items main)) },
    ghost few_fields: { All (λ fields. fields ≤ table_limit)
        (class_sizes (tree_of_parts symbols declarations.items main)) },
    ghost main_has_slots: { BodyHasSlots symbols 0 main },
    ghost methods_have_slots: { ∥ All (DeclHasSlots symbols) declarations.items ∥₁ },
    ghost is_whole: { ∥ IsWhole (tree_of_parts symbols declarations.items main) ∥₁ },
    ghost knows_names: { ∥ KnowsNames
        (record { names = symbols; source = tree_of_parts symbols declarations.items main }) ∥₁ },
    ghost has_tables: { HaveTables symbols declarations.items main tables } by { Prim.hlevel table_props },
}
