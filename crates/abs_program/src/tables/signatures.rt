//! The methods that interfaces declare, by name.
ghost use Rattle.std.specs.Prelude.{◌≡◌, ◌<◌, ◌≤◌, [], ◌∷◌, length, map, replicate, IfOk, OnOk};
ghost use Rattle.abs_program.specs.KeptMembers.{signatures_at};
ghost use Rattle.abs_tree.specs.Limits.{table_limit};
ghost use Rattle.abs_program.specs.Members.{signature_among, signature_in};
ghost use Rattle.abs_program.specs.SignatureRows.{is_last_of, with_first, HasRows, RowGrows, RowsGrow};
ghost use Rattle.abs_tree.specs.SyntaxViews.{decl_tree, signature_tree};
ghost use Rattle.abs_program.specs.TableFacts.{AreSignatures};

use crate::tables::members::{SignatureAt, in_32_bits};
use abs_tree::Symbols;
use abs_tree::syntax::{Decl, Signature};
use std::alloc::{AllocError, Global};

/// For each name, by its number, the interfaces that declare a method with it.
#[derive(Drop)]
pub struct Signatures {
    rows: Vec<Vec<SignatureAt>>,
}

impl Signatures {
    /// The table of these declarations.
    ///
    /// # Errors
    /// [`AllocError`] if an allocation fails, or if there are too many declarations or signatures.
    pub fn new(
        alloc: Global,
        symbols: &Symbols<'_>,
        declarations: &[Decl],
    ) -> Result<Signatures, AllocError>
        requires { length symbols.now ≤ table_limit }
        ensures { IfOk result (λ signatures.
            AreSignatures symbols.now (map (decl_tree symbols.now) declarations.now) signatures) }
    {
        let mut rows = empty_rows(alloc, symbols.len() + 1)?;
        for (index, declaration) in declarations.iter().enumerate() {
            add_declaration(&mut rows, symbols, in_32_bits(index)?, declaration)?;
        }
        Ok(Signatures { rows })
    }

    /// The interfaces that declare a method whose name has this number, in the order of the declarations.
    pub fn find(&self, name: u32) -> &[SignatureAt]
        ensures { result.now ≡ signatures_at self.now name }
    {
        match self.rows.get(name as usize) {
            Some(row) => row.as_slice(),
            None => &[],
        }
    }
}

/// This many empty rows.
///
/// # Errors
/// [`AllocError`] if an allocation fails.
fn empty_rows(alloc: Global, count: usize) -> Result<Vec<Vec<SignatureAt>>, AllocError>
    ensures { IfOk result (λ rows. map (λ row. row.items) rows.items ≡ replicate count []) }
{
    let mut rows = Vec::with_capacity(alloc, count)?;
    for _ in 0..count {
        rows.push(Vec::new(alloc))?;
    }
    Ok(rows)
}

/// Adds the signatures of a declaration. Only an interface has any.
///
/// # Errors
/// [`AllocError`] if an allocation fails, or if there are too many signatures.
fn add_declaration(
    rows: &mut Vec<Vec<SignatureAt>>,
    symbols: &Symbols<'_>,
    interface: u32,
    declaration: &Decl,
) -> Result<(), AllocError>
    requires few { length symbols.now ≤ table_limit }
    requires rows { HasRows symbols.now rows.old.items }
    ensures { OnOk result (RowsGrow symbols.now interface
        (signature_in interface (decl_tree symbols.now declaration.now)) rows.old.items rows.new.items) }
{
    match declaration {
        Decl::Interface { signatures, .. } => {
            add_signatures(rows, symbols, interface, signatures.as_slice())
        }
        Decl::Data { .. } | Decl::Function { .. } | Decl::Class { .. } => Ok(()),
    }
}

/// Adds the signatures of an interface. Of several with one name the first counts.
///
/// # Errors
/// [`AllocError`] if an allocation fails, or if there are too many signatures.
fn add_signatures(
    rows: &mut Vec<Vec<SignatureAt>>,
    symbols: &Symbols<'_>,
    interface: u32,
    signatures: &[Signature],
) -> Result<(), AllocError>
    requires few { length symbols.now ≤ table_limit }
    requires rows { HasRows symbols.now rows.old.items }
    ensures { OnOk result (RowsGrow symbols.now interface
        (signature_among interface 0 (map (signature_tree symbols.now) signatures.now)) rows.old.items rows.new.items) }
{
    for (index, signature) in signatures.iter().enumerate() {
        let number = symbols.number(signature.name.name);
        let index = in_32_bits(index)?;
        add_signature(rows, number, SignatureAt { interface, index })?;
    }
    Ok(())
}

/// Adds a signature to the row of its name, unless the row has one of the same interface already.
///
/// # Errors
/// [`AllocError`] if an allocation fails.
fn add_signature(
    rows: &mut Vec<Vec<SignatureAt>>,
    number: u32,
    at: SignatureAt,
) -> Result<(), AllocError>
    requires { number < length rows.old.items }
    ensures { OnOk result (RowGrows number at rows.old.items rows.new.items) }
{
    add_first(&mut rows[number as usize], at)?;
    Ok(())
}

/// Adds a signature to a row, unless the row has one of the same interface already.
///
/// # Errors
/// [`AllocError`] if an allocation fails.
fn add_first(row: &mut Vec<SignatureAt>, at: SignatureAt) -> Result<(), AllocError>
    ensures { OnOk result (row.new.items ≡ with_first at.interface row.old.items (at ∷ [])) }
{
    if !is_last_of(row.as_slice(), at.interface) {
        row.push(at)?;
    }
    Ok(())
}

/// Whether the last entry of a row is of an interface.
fn is_last_of(row: &[SignatureAt], interface: u32) -> bool
    ensures { result ≡ is_last_of interface row.now }
{
    match row.last() {
        Some(last) => last.interface == interface,
        None => false,
    }
}
