//! The tree of a source: a type for each nonterminal of the grammar, with a variant for each alternative of its rule. A
//! variant has the place of its first token and a field for each name, literal, operator and part, in order. Operators
//! of one precedence make one node. Parentheses, and a rule with one operand, make none.
pub mod declaration;
pub mod expression;
pub mod pattern;
pub mod slot;
pub mod statement;
pub mod types;
pub mod variable;

pub use declaration::{Body, Constructor, Decl, Declared, Member, Param, Program, Signature};
pub use expression::{Branch, Expr, Operand, Operator, Prefix};
pub use pattern::Pattern;
pub use slot::Slot;
pub use statement::{Mode, RightSide, Stmt, Target, Test};
pub use types::TypeTerm;
pub use variable::Variable;
