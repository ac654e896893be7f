//! The fields of classes, by number.
ghost use Rattle.std.specs.Prelude.{◌≡◌, ◌++◌, map, List, IfOk, OnOk};
ghost use Rattle.abs_program.specs.FieldRows.{own_index, IsFieldRow};
ghost use Rattle.abs_program.specs.KeptMembers.{field_at};
ghost use Rattle.abs_program.specs.Members.{field_among, field_indices};
ghost use Rattle.abs_tree.specs.Syntax.{Name};
ghost use Rattle.abs_tree.specs.SyntaxViews.{decl_tree, member_tree};
ghost use Rattle.abs_program.specs.TableFacts.{AreFields};

use crate::tables::members::{FieldAt, in_32_bits};
use abs_tree::syntax::{Decl, Member};
use std::alloc::{AllocError, Global};

/// The fields of a class: its parameters come first, and are followed by fields among its members.
#[derive(Drop)]
struct FieldRow {
    /// How many parameters there are.
    params: u32,
    /// The indices of the fields among the members.
    members: Vec<u32>,
}

/// For each declaration its fields. Only a class has any.
#[derive(Drop)]
pub struct Fields {
    rows: Vec<FieldRow>,
}

impl Fields {
    /// The table of these declarations.
    ///
    /// # Errors
    /// [`AllocError`] if an allocation fails, or if a class has too many parameters or members.
    pub fn new(alloc: Global, declarations: &[Decl]) -> Result<Fields, AllocError>
        ensures { (names : List Name) → IfOk result (λ fields.
            AreFields (map (decl_tree names) declarations.now) fields) }
    {
        let mut rows = Vec::new(alloc);
        for declaration in declarations {
            rows.push(field_row(alloc, declaration)?)?;
        }
        Ok(Fields { rows })
    }

    /// Where the field of a class with this number is.
    #[tactic(auto, unfolding(crate::specs::KeptMembers::field_at))]
    pub fn find(&self, class: u32, number: u32) -> Option<FieldAt>
        ensures { result ≡ field_at self.now class number }
    {
        match self.rows.get(class as usize) {
            Some(row) => row.find(number),
            None => None,
        }
    }
}

impl FieldRow {
    /// Where the field with this number is.
    fn find(&self, number: u32) -> Option<FieldAt>
        ensures { result ≡ field_among self.now.params self.now.members.items number }
    {
        if number < self.params {
            return Some(FieldAt::Param(number));
        }
        match self.members.get((number - self.params) as usize) {
            Some(index) => Some(FieldAt::Member(*index)),
            None => None,
        }
    }
}

/// The fields of a declaration.
///
/// # Errors
/// [`AllocError`] if an allocation fails, or if there are too many parameters or members.
fn field_row(alloc: Global, declaration: &Decl) -> Result<FieldRow, AllocError>
    ensures { (names : List Name) → IfOk result (λ row. IsFieldRow (decl_tree names declaration.now) row) }
{
    match declaration {
        Decl::Class {
            params,
            members,
            ..
        } => Ok(FieldRow {
            params: in_32_bits(params.len())?,
            members: indices_of_fields(alloc, members.as_slice())?,
        }),
        Decl::Data { .. } | Decl::Function { .. } | Decl::Interface { .. } => Ok(FieldRow {
            params: 0,
            members: Vec::new(alloc),
        }),
    }
}

/// The indices of the fields among members.
///
/// # Errors
/// [`AllocError`] if an allocation fails, or if there are too many members.
fn indices_of_fields(alloc: Global, members: &[Member]) -> Result<Vec<u32>, AllocError>
    ensures { (names : List Name) → IfOk result (λ indices.
        indices.items ≡ field_indices 0 (map (member_tree names) members.now)) }
{
    let mut indices = Vec::new(alloc);
    for (index, member) in members.iter().enumerate() {
        add_field(&mut indices, index, member)?;
    }
    Ok(indices)
}

/// Adds the index of a member, if it is a field.
///
/// # Errors
/// [`AllocError`] if an allocation fails, or if the index is too large.
fn add_field(indices: &mut Vec<u32>, index: usize, member: &Member) -> Result<(), AllocError>
    ensures { OnOk result (indices.new.items ≡ indices.old.items ++ own_index index member.now) }
{
    match member {
        Member::Field { .. } => indices.push(in_32_bits(index)?)?,
        Member::Method(..) => {}
    }
    Ok(())
}
