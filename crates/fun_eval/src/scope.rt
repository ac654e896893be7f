//! The values that an expression can read, where they are.
ghost use Rattle.std.specs.Prelude.{◌≡◌, map};
ghost use Rattle.abs_values.specs.Scopes.{own_scope};
ghost use Rattle.abs_values.specs.ValueViews.{value_tree};
ghost use Rattle.fun_eval.specs.Reading.{env_scope, scope_tree};

use abs_values::{Env, Value};

/// The values that the expressions of a statement can read. They are borrowed, so nothing is copied.
#[derive(Clone, Copy)]
pub struct Scope<'s> {
    /// The own object, if there is one.
    pub this: Option<u32>,
    /// The values of the parameters and locals, by their slots.
    pub slots: &'s [Value],
    /// The values of the fields of the own object.
    pub fields: &'s [Value],
}

impl<'s> Scope<'s> {
    /// The scope of an environment.
    pub fn of(env: &'s Env) -> Scope<'s>
        ensures { scope_tree result ≡ env_scope env.now }
    {
        Scope {
            this: env.this,
            slots: env.slots.as_slice(),
            fields: env.fields.as_slice(),
        }
    }

    /// The scope of an initial value, whose slots are the values of the fields before it.
    pub fn of_values(values: &'s [Value]) -> Scope<'s>
        ensures { scope_tree result ≡ own_scope (map value_tree values.now) }
    {
        Scope {
            this: None,
            slots: values,
            fields: &[],
        }
    }
}

/// What an expression reads. The body of a function reads its arguments alone, which are on the stack of arguments.
#[derive(Clone, Copy)]
pub enum Frame<'s> {
    /// An expression of a statement: its scope, and all bound variables.
    Statement(Scope<'s>),
    /// The body of a function: `count` arguments, the first of which is at the index `first`, and the bound variables
    /// from the index `bound` on.
    Function {
        first: usize,
        count: usize,
        bound: usize,
    },
}
