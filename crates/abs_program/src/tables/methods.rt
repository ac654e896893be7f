//! The methods of classes, by class and name.
ghost use Rattle.std.specs.Prelude.{◌≡◌, ◌≤◌, [], ◌∷◌, length, map, IfOk, OnOk};
ghost use Rattle.abs_program.specs.KeptMembers.{method_at};
ghost use Rattle.abs_tree.specs.Limits.{table_limit};
ghost use Rattle.abs_program.specs.Members.{method_among, method_in};
ghost use Rattle.abs_program.specs.MethodEntries.{EntryAdded, MethodsAdded};
ghost use Rattle.abs_tree.specs.SyntaxViews.{decl_tree, member_tree};
ghost use Rattle.abs_program.specs.TableFacts.{AreMethods};

use crate::tables::members::in_32_bits;
use abs_tree::Symbols;
use abs_tree::syntax::{Decl, Member};
use indexmap::IndexMap;
use std::alloc::{AllocError, Global};

/// A method, by the index of its class among the declarations, and by the number of its name.
#[derive(Clone, Copy, Debug, PartialEq, Eq, Hash)]
struct MethodKey {
    class: u32,
    name: u32,
}

/// For each method of each class its index among the members.
#[derive(Drop)]
pub struct Methods {
    indices: IndexMap<MethodKey, u32>,
}

impl Methods {
    /// The table of these declarations.
    ///
    /// # Errors
    /// [`AllocError`] if an allocation fails, or if there are too many declarations or members.
    pub fn new(
        alloc: Global,
        symbols: &Symbols<'_>,
        declarations: &[Decl],
    ) -> Result<Methods, AllocError>
        requires { length symbols.now ≤ table_limit }
        ensures { IfOk result (λ methods.
            AreMethods symbols.now (map (decl_tree symbols.now) declarations.now) methods) }
    {
        let mut indices = IndexMap::new(alloc);
        for (index, declaration) in declarations.iter().enumerate() {
            add_declaration(&mut indices, symbols, in_32_bits(index)?, declaration)?;
        }
        Ok(Methods { indices })
    }

    /// The index of the method of a class whose name has this number.
    #[tactic(auto, unfolding(crate::specs::KeptMembers::method_at))]
    pub fn find(&self, class: u32, name: u32) -> Option<u32>
        ensures { result ≡ method_at self.now class name }
    {
        match self.indices.get(&MethodKey { class, name }) {
            Some(index) => Some(*index),
            None => None,
        }
    }
}

/// Adds the methods of a declaration. Only a class has any.
///
/// # Errors
/// [`AllocError`] if an allocation fails, or if there are too many members.
fn add_declaration(
    indices: &mut IndexMap<MethodKey, u32>,
    symbols: &Symbols<'_>,
    class: u32,
    declaration: &Decl,
) -> Result<(), AllocError>
    requires { length symbols.now ≤ table_limit }
    ensures { OnOk result (MethodsAdded symbols.now class (method_in (decl_tree symbols.now declaration.now))
        indices.old.entries indices.new.entries) }
{
    match declaration {
        Decl::Class { members, .. } => add_members(indices, symbols, class, members.as_slice()),
        Decl::Data { .. } | Decl::Function { .. } | Decl::Interface { .. } => Ok(()),
    }
}

/// Adds the methods among the members of a class. Of several with one name the first counts.
///
/// # Errors
/// [`AllocError`] if an allocation fails, or if there are too many members.
fn add_members(
    indices: &mut IndexMap<MethodKey, u32>,
    symbols: &Symbols<'_>,
    class: u32,
    members: &[Member],
) -> Result<(), AllocError>
    requires { length symbols.now ≤ table_limit }
    ensures { OnOk result (MethodsAdded symbols.now class (method_among 0 (map (member_tree symbols.now) members.now))
        indices.old.entries indices.new.entries) }
{
    for (index, member) in members.iter().enumerate() {
        add_member(indices, symbols, class, in_32_bits(index)?, member)?;
    }
    Ok(())
}

/// Adds a member of a class, if it is a method, and the first one of its name.
///
/// # Errors
/// [`AllocError`] if an allocation fails.
fn add_member(
    indices: &mut IndexMap<MethodKey, u32>,
    symbols: &Symbols<'_>,
    class: u32,
    index: u32,
    member: &Member,
) -> Result<(), AllocError>
    requires { length symbols.now ≤ table_limit }
    ensures { OnOk result (MethodsAdded symbols.now class (method_among index (member_tree symbols.now member.now ∷ []))
        indices.old.entries indices.new.entries) }
{
    match member {
        Member::Method(signature, _) => {
            let name = symbols.number(signature.name.name);
            add_first(indices, MethodKey { class, name }, index)
        }
        Member::Field { .. } => Ok(()),
    }
}

/// Adds an entry, unless its key has one already.
///
/// # Errors
/// [`AllocError`] if an allocation fails.
fn add_first(
    indices: &mut IndexMap<MethodKey, u32>,
    key: MethodKey,
    index: u32,
) -> Result<(), AllocError>
    ensures { OnOk result (EntryAdded key index indices.old.entries indices.new.entries) }
{
    if indices.contains_key(&key) {
        return Ok(());
    }
    indices.insert(key, index)?;
    Ok(())
}
