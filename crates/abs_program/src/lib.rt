//! A source whose names are resolved: what its names stand for, with the tables that tell it in constant time, and what
//! its statements do and where control goes.
#![tactic(auto)]

pub mod comparing;
pub mod known;
pub mod laws;
pub mod meanings;
pub mod name_spaces;
pub mod named;
pub mod readers;
pub mod sharing;
pub mod tables;

pub use comparing::{functions_equal, named_equal};
pub use known::knows_names;
pub use laws::{
    bodies_are_in_programs, control_leaves_the_rest, declared_is_there, facts_follow_control,
    facts_follow_in_programs, known_names_are_told, named_is_whole, prelude_types_are_alone,
};
pub use meanings::Meanings;
pub use name_spaces::{ConstructorMeaning, FunctionMeaning, NameSpaces, Taking, TypeMeaning};
pub use named::Named;
pub use sharing::expressions_are_shared;
pub use tables::Tables;
pub use tables::control::{BodyEntry, ClassEntry, Effect, Exprs, Instruction, Successor};
pub use tables::members::{FieldAt, SignatureAt};
pub use tables::supertypes::supertype_graph;
