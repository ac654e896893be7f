//! The public call: resolves the names of a source after the prelude, or returns its first name offence.
ghost use Rattle.std.specs.Prelude.{◌≡◌, ◌≤◌, ◌++◌, [], None, All, fold, length, map, take, IfOk, IfErr, OnOk};
ghost use Rattle.abs_program.specs.KeptSpaces.{spaces_by_name, AreProper};
ghost use Rattle.abs_tree.specs.Limits.{table_limit};
ghost use Rattle.abs_tree.specs.Names.{with_name};
ghost use Rattle.abs_program.specs.NameSpaces.{built_in, spaces_of};
ghost use Rattle.abs_tree.specs.Offences.{earlier, first_offence};
ghost use Rattle.abs_program.specs.SlotViews.{BodyHasSlots, DeclHasSlots};
ghost use Rattle.abs_program.specs.NamedViews.{named_tree};
ghost use Rattle.abs_tree.specs.SourceViews.{source_tree};
ghost use Rattle.abs_tree.specs.SyntaxViews.{decl_tree, tree_of_parts};
ghost use Rattle.abs_names.specs.Answers.{Refuses};
ghost use Rattle.abs_names.specs.NameOffences.{name_offences, repeated_offences, declared_offences, declarations_offences};
ghost use Rattle.abs_prelude.specs.Prelude.{prelude, prelude_names};
ghost use Rattle.abs_names.specs.Repeats.{declarations_repeats};
ghost use Rattle.abs_names.specs.Resolution.{resolved, resolved_declarations};
ghost use Rattle.abs_names.specs.Scopes.{body_scope};
ghost use Rattle.abs_names.specs.Spaces.{spaces_offences};
ghost use Rattle.abs_names.specs.TypeNames.{around_of};
ghost use Rattle.abs_names.specs.declared.scope.Routine.TheVariants.{Main as InMain};

use crate::NameError;
use crate::around::Around;
use crate::scope::Routine;
use crate::spaces::Declarer;
use crate::walk::Walk;
use abs_prelude::{add_names, prelude as prelude_declarations};
use abs_program::{NameSpaces, Named, Tables, knows_names};
use abs_tree::{Body, Decl, Offence, Program, Symbols};
use std::alloc::{AllocError, Global};

/// The source with its names resolved, after the declarations of the prelude. The names of the prelude that the source
/// does not have get symbols after those of the source, in the order in which they first appear in the prelude.
///
/// # Errors
/// [`NameError::Refused`] if a name offends, for the first offence; [`NameError::Memory`] if an allocation fails, or if
/// there are too many names, a body has too many slots, a class has too many fields, or a constructor, a class or a
/// method has a symbol that the table does not have.
pub fn resolve<'a>(alloc: Global, program: Program<'a>) -> Result<Named<'a>, NameError>
    ensures found { IfOk result (λ named. named_tree named ≡ resolved (source_tree program.entry)) }
    ensures symbols { IfOk result (λ named. named.symbols ≡ fold with_name program.entry.symbols prelude_names) }
    ensures accepted { OnOk result (name_offences (source_tree program.entry) ≡ []) }
    ensures refused { IfErr result (λ error. Refuses error (name_offences (source_tree program.entry))) }
{
    let Program {
        mut symbols,
        mut declarations,
        mut main,
    } = program;
    let readable = add_names(&mut symbols)?;
    let Found { spaces, first } = resolve_parts(
        alloc,
        &symbols,
        readable,
        &mut declarations,
        &mut main,
    )?;
    if let Some(offence) = first {
        return Err(NameError::Refused(offence.refusal()));
    }
    if !knows_names(&symbols, declarations.as_slice()) {
        return Err(NameError::Memory);
    }
    let tables = Tables::new(alloc, &symbols, spaces, declarations.as_slice(), &main)?;
    Ok(Named {
        symbols,
        declarations,
        main,
        tables,
    })
}

/// What a walk over a whole source found: its name spaces, by the numbers of names, and its first name offence.
#[derive(Drop)]
struct Found {
    spaces: NameSpaces,
    first: Option<Offence>,
}

/// Resolves declarations and a main block in place, and puts the declarations of the prelude before them. The source
/// may have the first `readable` names.
///
/// # Errors
/// [`AllocError`] if an allocation fails, or if a body has too many slots or a class too many fields.
fn resolve_parts(
    alloc: Global,
    symbols: &Symbols<'_>,
    readable: u32,
    declarations: &mut Vec<Decl>,
    main: &mut Body,
) -> Result<Found, AllocError>
    requires few { length symbols.now ≤ table_limit }
    ensures first { IfOk result (λ found. found.first ≡ first_offence
        (name_offences (tree_of_parts (take readable symbols.now) declarations.old.items main.old))) }
    ensures spaces { IfOk result (λ found. spaces_by_name symbols.now found.spaces
        ≡ spaces_of (prelude ++ map (decl_tree (take readable symbols.now)) declarations.old.items)) }
    ensures proper { IfOk result (λ found. AreProper symbols.now found.spaces) }
    ensures found { OnOk result (tree_of_parts symbols.now declarations.new.items main.new
        ≡ resolved (tree_of_parts (take readable symbols.now) declarations.old.items main.old)) }
    ensures main_has_slots { OnOk result (BodyHasSlots symbols.now 0 main.new) }
    ensures methods_have_slots { OnOk result (All (DeclHasSlots symbols.now) declarations.new.items) }
{
    let mut walk = resolve_declarations(alloc, symbols, readable, declarations)?;
    let slots = walk.begin(Routine::Main, &[])?;
    walk.body(slots, main)?;
    let Walk { scope, first, .. } = walk;
    Ok(Found {
        spaces: scope.into_spaces(),
        first,
    })
}

/// Resolves declarations in place, and puts those of the prelude before them. The source may have the first `readable`
/// names. Returns the walk after that, in which all of them are around.
///
/// # Errors
/// [`AllocError`] if an allocation fails, or if a body has too many slots or a class too many fields.
fn resolve_declarations<'s>(
    alloc: Global,
    symbols: &'s Symbols<'s>,
    readable: u32,
    declarations: &mut Vec<Decl>,
) -> Result<Walk<'s>, AllocError>
    requires few { length symbols.now ≤ table_limit }
    ensures names { IfOk result (λ walk. walk.scope.names
        ≡ record { before = take readable symbols.now; after = symbols.now }) }
    ensures around { IfOk result (λ walk. walk.scope.scope.around ≡ around_of (spaces_of
        (prelude ++ map (decl_tree (take readable symbols.now)) declarations.old.items)) []) }
    ensures fields { IfOk result (λ walk. walk.scope.scope.fields ≡ []) }
    ensures first { IfOk result (λ walk. walk.first ≡ first_offence (declared_offences
        (prelude ++ map (decl_tree (take readable symbols.now)) declarations.old.items))) }
    ensures found { OnOk result (map (decl_tree symbols.now) declarations.new.items ≡ resolved_declarations (spaces_of
        (prelude ++ map (decl_tree (take readable symbols.now)) declarations.old.items))
        (prelude ++ map (decl_tree (take readable symbols.now)) declarations.old.items)) }
    ensures has_slots { OnOk result (All (DeclHasSlots symbols.now) declarations.new.items) }
{
    let mut before = prelude_declarations(alloc, symbols)?;
    let mut walk = noted_walk(
        alloc,
        symbols,
        readable,
        before.as_slice(),
        declarations.as_slice(),
    )?;
    walk.resolve_both(readable, &mut before, declarations)?;
    walk.scope.set_type_params(&[])?;
    before.append(declarations)?;
    walk.note_extensions(before.as_slice())?;
    *declarations = before;
    Ok(walk)
}

/// A walk at the beginning of the main block, to which the declarations of the prelude and those of a source are known.
/// The source may have the first `readable` names. Names that are declared twice are noted.
///
/// # Errors
/// [`AllocError`] if an allocation fails, or if there are too many names or declarations.
fn noted_walk<'s>(
    alloc: Global,
    symbols: &'s Symbols<'s>,
    readable: u32,
    prelude: &[Decl],
    source: &[Decl],
) -> Result<Walk<'s>, AllocError>
    requires few { length symbols.now ≤ table_limit }
    ensures names { IfOk result (λ walk. walk.scope.names
        ≡ record { before = take readable symbols.now; after = symbols.now }) }
    ensures scope { IfOk result (λ walk. walk.scope.scope ≡ body_scope (around_of (spaces_of
        (map (decl_tree symbols.now) prelude.now ++ map (decl_tree (take readable symbols.now)) source.now)) [])
        InMain [] []) }
    ensures first { IfOk result (λ walk. walk.first ≡ first_offence (repeated_offences
        (map (decl_tree symbols.now) prelude.now ++ map (decl_tree (take readable symbols.now)) source.now))) }
{
    let mut walk = walk_after(alloc, symbols, readable, prelude, source)?;
    walk.note_both(readable, prelude, source)?;
    Ok(walk)
}

/// A walk at the beginning of the main block, after the declarations of the prelude and those of a source, which may
/// have the first `readable` names.
///
/// # Errors
/// [`AllocError`] if an allocation fails, or if there are too many names.
fn walk_after<'s>(
    alloc: Global,
    symbols: &'s Symbols<'s>,
    readable: u32,
    prelude: &[Decl],
    source: &[Decl],
) -> Result<Walk<'s>, AllocError>
    requires few { length symbols.now ≤ table_limit }
    ensures names { IfOk result (λ walk. walk.scope.names
        ≡ record { before = take readable symbols.now; after = symbols.now }) }
    ensures scope { IfOk result (λ walk. walk.scope.scope ≡ body_scope (around_of (spaces_of
        (map (decl_tree symbols.now) prelude.now ++ map (decl_tree (take readable symbols.now)) source.now)) [])
        InMain [] []) }
    ensures first { IfOk result (λ walk. walk.first ≡ first_offence (spaces_offences 0 built_in
        (map (decl_tree symbols.now) prelude.now ++ map (decl_tree (take readable symbols.now)) source.now))) }
{
    let around = Around::new(alloc, symbols)?;
    let mut declarer = Declarer {
        around,
        first: None,
    };
    let next = declarer.declarations(0, prelude)?;
    declarer.around.read(readable);
    declarer.declarations(next, source)?;
    let Declarer { around, first } = declarer;
    Ok(Walk::new(alloc, around, first))
}

impl Walk<'_> {
    /// Notes what is declared twice in a list of the prelude or of a source, which may have the first `readable` names.
    ///
    /// # Errors
    /// [`AllocError`] if an allocation fails.
    fn note_both(
        &mut self,
        readable: u32,
        prelude: &[Decl],
        source: &[Decl],
    ) -> Result<(), AllocError>
        ensures noted { OnOk result (self.new.first ≡ fold earlier self.old.first (declarations_repeats
            (map (decl_tree self.old.scope.names.after) prelude.now
            ++ map (decl_tree (take readable self.old.scope.names.after)) source.now))) }
        ensures names { OnOk result (self.new.scope.names ≡ record {
          before = take readable self.old.scope.names.after;
          after = self.old.scope.names.after;
        }) }
        ensures scope { OnOk result (self.new.scope.scope ≡ self.old.scope.scope) }
    {
        self.scope.read_all();
        self.note_declarations(prelude)?;
        self.scope.read(readable);
        self.note_declarations(source)
    }

    /// Resolves the declarations of the prelude, and those of a source, which may have the first `readable` names.
    ///
    /// # Errors
    /// [`AllocError`] if an allocation fails, or if there are too many fields, parameters or slots.
    fn resolve_both(
        &mut self,
        readable: u32,
        prelude: &mut Vec<Decl>,
        source: &mut Vec<Decl>,
    ) -> Result<(), AllocError>
        requires { self.old.scope.scope.fields ≡ [] }
        ensures found { OnOk result (map (decl_tree self.old.scope.names.after) (prelude.new.items ++ source.new.items)
            ≡ resolved_declarations self.old.scope.scope.around.spaces
            (map (decl_tree self.old.scope.names.after) prelude.old.items
            ++ map (decl_tree (take readable self.old.scope.names.after)) source.old.items)) }
        ensures noted { OnOk result (self.new.first ≡ fold earlier self.old.first (declarations_offences
            self.old.scope.scope.around.spaces (map (decl_tree self.old.scope.names.after) prelude.old.items
            ++ map (decl_tree (take readable self.old.scope.names.after)) source.old.items))) }
        ensures has_slots { OnOk result
            (All (DeclHasSlots self.old.scope.names.after) (prelude.new.items ++ source.new.items)) }
        ensures names { OnOk result (self.new.scope.names ≡ record {
          before = take readable self.old.scope.names.after;
          after = self.old.scope.names.after;
        }) }
        ensures spaces { OnOk result (self.new.scope.scope.around.spaces ≡ self.old.scope.scope.around.spaces) }
        ensures fields { OnOk result (self.new.scope.scope.fields ≡ []) }
    {
        self.scope.read_all();
        self.declarations(prelude)?;
        self.scope.read(readable);
        self.declarations(source)
    }
}
