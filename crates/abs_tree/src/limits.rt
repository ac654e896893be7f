//! The limits of sources, of programs and of runs. Contracts have the same numbers under the same names, in
//! `specs/Limits.antt`, and [`limits_agree`] says that they do.
ghost use Rattle.std.specs.Prelude.{◌≡◌};
ghost use Rattle.abs_tree.specs.Limits.{source_limit, nesting_limit, table_limit, parsed_table_limit, event_limit, level_limit, application_limit, string_limit, node_limit, depth_limit};

/// How many bytes a source may have.
pub const SOURCE_LIMIT: usize = 1_048_576;

/// In how many counted nonterminals a token may be nested.
pub const NESTING_LIMIT: u32 = 100;

/// How many names or statements a program may have, how many slots a body, and how many fields a class.
pub const TABLE_LIMIT: usize = 268_435_456;

/// How many names, statements or variables a parsed source of the permitted size has at most.
pub const PARSED_TABLE_LIMIT: usize = 4_194_304;

/// How many events a run may have.
pub const EVENT_LIMIT: u64 = 100_000;

/// How many levels of evaluation there may be, of which a statement's own expression has the first.
pub const LEVEL_LIMIT: u32 = 2_000;

/// How many functions a statement may apply.
pub const APPLICATION_LIMIT: u32 = 1_000_000;

/// How many bytes a string that a run makes may have.
pub const STRING_LIMIT: usize = 65_536;

/// How many nodes a value may have.
pub const NODE_LIMIT: u32 = 100_000;

/// How many nodes of a value may be nested.
pub const DEPTH_LIMIT: u32 = 5_000;

/// Each constant is the limit of the same name that contracts cite.
pub fn limits_agree()
    ensures source { SOURCE_LIMIT ≡ source_limit }
    ensures nesting { NESTING_LIMIT ≡ nesting_limit }
    ensures table { TABLE_LIMIT ≡ table_limit }
    ensures parsed_table { PARSED_TABLE_LIMIT ≡ parsed_table_limit }
    ensures event { EVENT_LIMIT ≡ event_limit }
    ensures level { LEVEL_LIMIT ≡ level_limit }
    ensures application { APPLICATION_LIMIT ≡ application_limit }
    ensures string { STRING_LIMIT ≡ string_limit }
    ensures node { NODE_LIMIT ≡ node_limit }
    ensures depth { DEPTH_LIMIT ≡ depth_limit }
{}
