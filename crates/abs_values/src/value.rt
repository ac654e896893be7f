//! Values. The parts of a constructor are shared by all copies, and know how many nodes they have and how deep they
//! are. So a copy, a part and a size cost the same whatever the size of the value.
ghost use Rattle.std.specs.Prelude.{◌≡◌, ◌<◌, ◌≤◌, IfOk};
ghost use Rattle.std.specs.Option.{option_map};
ghost use Rattle.abs_tree.specs.Limits.{node_limit, depth_limit};
ghost use Rattle.abs_values.specs.ValueTrees.{parts_nodes, parts_depth, value_nodes, value_depth, built_value};
ghost use Rattle.abs_values.specs.ValueViews.{value_tree, value_trees};
ghost use Rattle.abs_values.specs.Measures.{Measures, parts_within};

use abs_tree::limits::{DEPTH_LIMIT, NODE_LIMIT};
use abs_tree::{Symbol, Text};
use std::alloc::{AllocError, Global};
use std::marker::Model;
use std::sync::Arc;

/// A value of a program. It has at most [`NODE_LIMIT`](crate::limits::NODE_LIMIT) nodes, of which at most
/// [`DEPTH_LIMIT`](crate::limits::DEPTH_LIMIT) are nested. Contracts see its tree.
#[derive(Drop)]
#[cycle(values)]
pub enum Value {
    /// A number.
    Int(i128),
    /// A string.
    Text(Text),
    /// A constructor with its parts.
    Built(Symbol, Parts),
    /// An object, by its index.
    Object(u32),
    /// A future, by the index of its task.
    Future(u32),
    /// `null`, which is no object and no future.
    Null,
}

/// The parts of a constructor. Without a part there is no allocation. Contracts see the trees of the parts.
#[derive(Drop)]
#[cycle(values)]
pub struct Parts {
    items: Option<Arc<Vec<Value>>>,
    nodes: u32,
    depth: u32,
}

impl Model for Parts {
    ghost use Rattle.std.specs.Prelude.{◌≡◌, ◌<◌};
    ghost use Rattle.abs_tree.specs.Limits.{node_limit, depth_limit};
    ghost use Rattle.abs_values.specs.ValueTrees.{ValueTrees, parts_nodes, parts_depth};
    ghost use Rattle.abs_values.specs.ValueCodes.{parts_code};

    ghost Value = { ValueTrees };

    ghost coded = { parts_code };

    ghost use Rattle.abs_values.specs.ValueViews.{parts_behind};

    ghost view = { λ p. parts_behind p.items };

    ghost invariant = { λ p. (p.nodes ≡ parts_nodes (parts_behind p.items))
        × (p.depth ≡ parts_depth (parts_behind p.items)) × (p.nodes < node_limit) × (p.depth < depth_limit) };

    ghost size = { parts_nodes };

    ghost use Rattle.abs_values.specs.ValueSizes.{parts_are_deeper};

    ghost size_decreases = { λ a h. parts_are_deeper a };
}

impl Parts {
    /// The parts with these values, or `None` if a constructor with them is past a limit.
    ///
    /// # Errors
    /// [`AllocError`] if an allocation fails.
    pub fn new(alloc: Global, items: Vec<Value>) -> Result<Option<Parts>, AllocError>
        ensures { IfOk result (λ found. found ≡ parts_within (value_trees items.items)) }
    {
        let Some(measure) = measured(items.as_slice()) else {
            return Ok(None);
        };
        let items = if items.is_empty() {
            None
        } else {
            Some(Arc::new(alloc, items)?)
        };
        Ok(Some(Parts {
            items,
            nodes: measure.nodes,
            depth: measure.depth,
        }))
    }

    /// How many nodes they have in all.
    pub fn nodes(&self) -> u32
        ensures nodes { result ≡ parts_nodes self.now }
        ensures few { result < node_limit }
    {
        self.nodes
    }

    /// How many of their nodes are nested, at most.
    pub fn depth(&self) -> u32
        ensures depth { result ≡ parts_depth self.now }
        ensures few { result < depth_limit }
    {
        self.depth
    }

    /// The parts in order.
    pub fn as_slice(&self) -> &[Value]
        ensures { value_trees result.now ≡ self.now }
    {
        match &self.items {
            Some(items) => items.as_slice(),
            None => &[],
        }
    }

    /// A copy, which shares the parts.
    ///
    /// # Errors
    /// [`AllocError`] if there are as many copies already as can be counted.
    pub fn share(&self) -> Result<Parts, AllocError>
        ensures { IfOk result (λ parts. parts ≡ self.now) }
    {
        let items = match &self.items {
            Some(items) => Some(items.clone()?),
            None => None,
        };
        Ok(Parts {
            items,
            nodes: self.nodes,
            depth: self.depth,
        })
    }
}

impl Value {
    /// A constructor with these parts, or `None` if it is past a limit.
    ///
    /// # Errors
    /// [`AllocError`] if an allocation fails.
    pub fn built(
        alloc: Global,
        constructor: Symbol,
        parts: Vec<Value>,
    ) -> Result<Option<Value>, AllocError>
        ensures { IfOk result (λ found. option_map value_tree found
            ≡ built_value constructor.0 (value_trees parts.items)) }
    {
        match Parts::new(alloc, parts)? {
            Some(parts) => Ok(Some(Value::Built(constructor, parts))),
            None => Ok(None),
        }
    }

    /// A copy, which shares its parts with this value.
    ///
    /// # Errors
    /// [`AllocError`] if there are as many copies of a part already as can be counted.
    pub fn share(&self) -> Result<Value, AllocError>
        ensures { IfOk result (λ value. value ≡ self.now) }
    {
        match self {
            Value::Int(number) => Ok(Value::Int(*number)),
            Value::Text(text) => Ok(Value::Text(text.share()?)),
            Value::Built(constructor, parts) => Ok(Value::Built(*constructor, parts.share()?)),
            Value::Object(object) => Ok(Value::Object(*object)),
            Value::Future(task) => Ok(Value::Future(*task)),
            Value::Null => Ok(Value::Null),
        }
    }
}

/// How many nodes a value has: one for each number, string, object, future or null in it, and for each constructor. It
/// takes no memory, and the same time for every value.
pub fn value_size(value: &Value) -> u64
    ensures nodes { result ≡ value_nodes (value_tree value.now) }
    ensures few { result ≤ node_limit }
{
    u64::from(nodes_of(value))
}

/// How many nodes of a value are nested, at most. It takes no memory, and the same time for every value.
pub fn value_depth(value: &Value) -> u64
    ensures depth { result ≡ value_depth (value_tree value.now) }
    ensures few { result ≤ depth_limit }
{
    u64::from(depth_of(value))
}

/// How many nodes a value has.
#[tactic(auto, unfolding(crate::specs::ValueTrees::value_nodes))]
fn nodes_of(value: &Value) -> u32
    ensures nodes { result ≡ value_nodes (value_tree value.now) }
    ensures few { result ≤ node_limit }
{
    match value {
        Value::Built(_, parts) => parts.nodes() + 1,
        _ => 1,
    }
}

/// How many nodes of a value are nested, at most.
#[tactic(auto, unfolding(crate::specs::ValueTrees::value_depth))]
fn depth_of(value: &Value) -> u32
    ensures depth { result ≡ value_depth (value_tree value.now) }
    ensures few { result ≤ depth_limit }
{
    match value {
        Value::Built(_, parts) => parts.depth() + 1,
        _ => 1,
    }
}

/// How many nodes some values have in all, and how many of these are nested, at most.
#[derive(Clone, Copy)]
struct Measure {
    nodes: u32,
    depth: u32,
}

/// The measure of these values, or `None` if a constructor with these parts is past a limit.
#[tactic(auto, unfolding(crate::specs::ValueTrees::value_nodes, crate::specs::ValueTrees::value_depth))]
fn measured(values: &[Value]) -> Option<Measure>
    ensures { Measures (value_trees values.now) result }
{
    let mut measure = Measure { nodes: 0, depth: 0 };
    for value in values {
        measure.nodes += nodes_of(value);
        measure.depth = measure.depth.max(depth_of(value));
        if measure.nodes >= NODE_LIMIT || measure.depth >= DEPTH_LIMIT {
            return None;
        }
    }
    Some(measure)
}
