//! The contracts of the declarations that are classes, and of main.
ghost use Rattle.std.specs.Prelude.{◌≡◌, ◌+◌, ℕ, List, map, length, slice_get, Some, None, IfOk, OnOk};
ghost use Rattle.abs_program.specs.ProgramBodies.{main_body, IsBodyOf};
ghost use Rattle.abs_tree.specs.Names.{name_of};
ghost use Rattle.abs_tree.specs.Syntax.{Name, TypeTree, ParamTree, MemberTree};
ghost use Rattle.abs_tree.specs.SyntaxSizes.{statement_count};
ghost use Rattle.abs_tree.specs.SyntaxViews.{decl_tree, member_tree, param_tree, signature_tree, statements as statement_trees};
ghost use Rattle.abs_types.specs.TypeTables.{Keeps};
ghost use Rattle.contract_infer.specs.BodyViews.{names_of, source_of};
ghost use Rattle.contract_infer.specs.ClassViews.{class_start, method_body, method_of_class, AreMethodsSoFar, IsClassThere, IsGathered, IsInClass};
ghost use Rattle.contract_terms.specs.Accepts.{accepts_in};
ghost use Rattle.contract_terms.specs.BodyContexts.{class_types, main_context};
ghost use Rattle.contract_terms.specs.ProgramTerms.{IsMethodContract};
ghost use Rattle.contract_terms.specs.Terms.{AreTerms};
ghost use Rattle.contract_terms.specs.Views.{accepts_tree, method_tree, term_tree};

use crate::accepts::{accepts_of, accepts_of_slots, accepts_of_types};
use crate::bodies::{BodyView, terms_of_body};
use crate::calls::{calls_within, reach_of_calls};
use crate::declared_types::{field_types, slot_types};
use crate::indices::{field_indices, slot_indices};
use crate::reads::reads_of_initials;
use crate::settled::settled_rows;
use abs_tree::{Body, Decl, Member, Param, Signature, Symbol};
use check_fun::Checker;
use contract_terms::{Accepts, ClassTerms, MethodTerms, Term};
use std::alloc::AllocError;

/// The contracts of the members of a class so far.
#[derive(Drop)]
struct Methods {
    /// The contract of each member that is a method.
    contracts: Vec<Option<MethodTerms>>,
    /// For each member the methods that it calls on `this`.
    calls: Vec<Vec<u32>>,
    /// The index of the first statement after those of the members.
    next: u32,
}

/// The contract of a method, and how many statements it has.
#[derive(Drop)]
struct Gathered {
    contract: MethodTerms,
    count: u32,
}

/// The contracts of a declaration, if it is a class, and the index of the first statement after it.
#[derive(Drop)]
pub(crate) struct Declaration {
    pub(crate) found: Option<ClassTerms>,
    pub(crate) next: u32,
}

/// A number in 32 bits.
///
/// # Errors
/// [`AllocError`] if it takes more. So it is for each function here, or if an allocation fails, or if there are too
/// many types.
pub(crate) fn in_32_bits(number: usize) -> Result<u32, AllocError>
    ensures { IfOk result (λ small. small ≡ number) }
{
    match u32::try_from(number) {
        Ok(small) => Ok(small),
        Err(_) => Err(AllocError),
    }
}

/// The terms of main, whose first statement has this index.
pub(crate) fn main_terms(
    checker: &mut Checker<'_>,
    first: u32,
    body: &Body,
) -> Result<Vec<Term>, AllocError>
    ensures { statement_trees (names_of checker.old) body.now.statements.items ≡ (source_of checker.old).main
        → (main_body (source_of checker.old)).index ≡ first → IfOk result (λ found. AreTerms (source_of checker.old)
        (main_context (source_of checker.old)) (map (term_tree (names_of checker.old)) found.items)) }
{
    let alloc = checker.table.alloc;
    let program = checker.table.program;
    let types = slot_types(alloc, &[], body.statements.as_slice())?;
    let unit = checker.unit()?;
    let slots = slot_indices(checker, types.as_slice())?;
    checker.enter_body(slots, Vec::new(alloc), None, Some(unit));
    let accepts = accepts_of_slots(alloc, program, types.as_slice())?;
    let rows = settled_rows(alloc, types.len(), body.statements.as_slice())?;
    let view = BodyView {
        slots: accepts.as_slice(),
        fields: &[],
        result: Accepts::NOTHING,
    };
    terms_of_body(checker, &view, first, rows.as_slice())
}

/// The contract of a method of the class that was entered, whose fields let in this. The first statement of the method
/// has this index.
fn method_terms(
    checker: &mut Checker<'_>,
    fields: &[Accepts],
    first: u32,
    signature: &Signature,
    body: &Body,
) -> Result<Gathered, AllocError>
    ensures found { (class : ℕ) (name : Name) (types : List TypeTree) → IsInClass checker.old name types
        → map (accepts_tree (names_of checker.old)) fields.now
        ≡ map (accepts_in (source_of checker.old).declarations) types
        → IsBodyOf (source_of checker.old) (method_body first (signature_tree (names_of checker.old) signature.now)
        (statement_trees (names_of checker.old) body.now.statements.items))
        → IfOk result (λ found. IsMethodContract (source_of checker.old)
        (method_of_class class name types first (signature_tree (names_of checker.old) signature.now)
        (statement_trees (names_of checker.old) body.now.statements.items))
        (method_tree (names_of checker.old) found.contract)) }
    ensures count { (names : List Name) → IfOk result (λ found.
        found.count ≡ statement_count (statement_trees names body.now.statements.items)) }
    ensures stays { (name : Name) (types : List TypeTree) → IsInClass checker.old name types
        → OnOk result (IsInClass checker.new name types) }
    ensures keeps { OnOk result (Keeps checker.old.table checker.new.table) }
{
    let alloc = checker.table.alloc;
    let program = checker.table.program;
    let statements = body.statements.as_slice();
    let types = slot_types(alloc, signature.params.as_slice(), statements)?;
    let gives = checker.written(&signature.result)?;
    let slots = slot_indices(checker, types.as_slice())?;
    checker.enter_method(slots, Some(gives));
    let mut params = accepts_of_slots(alloc, program, types.as_slice())?;
    let rows = settled_rows(alloc, types.len(), statements)?;
    let result = accepts_of(program, &signature.result);
    let view = BodyView {
        slots: params.as_slice(),
        fields,
        result,
    };
    let terms = terms_of_body(checker, &view, first, rows.as_slice())?;
    params.truncate(signature.params.len());
    let count = in_32_bits(rows.len())?;
    let contract = MethodTerms {
        params,
        result,
        terms,
    };
    Ok(Gathered { contract, count })
}

/// Adds a member of the class with this index, which was entered, and whose fields let in this.
fn add_member(
    checker: &mut Checker<'_>,
    class: u32,
    fields: &[Accepts],
    member: &Member,
    methods: &mut Methods,
) -> Result<(), AllocError>
    ensures added { (name : Name) (params : List ParamTree) (members : List MemberTree) (passed : ℕ)
        → IsClassThere (source_of checker.old) class name params members
        → IsInClass checker.old name (class_types params members)
        → map (accepts_tree (names_of checker.old)) fields.now
        ≡ map (accepts_in (source_of checker.old).declarations) (class_types params members)
        → slice_get members passed ≡ Some (member_tree (names_of checker.old) member.now)
        → AreMethodsSoFar (source_of checker.old) (names_of checker.old) class members passed methods.old
        → OnOk result
        (AreMethodsSoFar (source_of checker.old) (names_of checker.old) class members (passed + 1) methods.new) }
    ensures stays { (name : Name) (types : List TypeTree) → IsInClass checker.old name types
        → OnOk result (IsInClass checker.new name types) }
    ensures keeps { OnOk result (Keeps checker.old.table checker.new.table) }
{
    let alloc = checker.table.alloc;
    let Member::Method(signature, body) = member else {
        methods.contracts.push(None)?;
        methods.calls.push(Vec::new(alloc))?;
        return Ok(());
    };
    let first = methods.next;
    let gathered = method_terms(checker, fields, first, signature, body)?;
    let calls = calls_within(alloc, checker.table.program, class, first, gathered.count)?;
    let Some(next) = first.checked_add(gathered.count) else {
        return Err(AllocError);
    };
    methods.contracts.push(Some(gathered.contract))?;
    methods.calls.push(calls)?;
    methods.next = next;
    Ok(())
}

/// The contracts of the members of the class with this index, which was entered, and whose fields let in this. The
/// first statement of the class has the index `first`.
fn methods_of(
    checker: &mut Checker<'_>,
    class: u32,
    fields: &[Accepts],
    first: u32,
    members: &[Member],
) -> Result<Methods, AllocError>
    ensures found { (name : Name) (params : List ParamTree) → IsClassThere (source_of checker.old) class name params
        (map (member_tree (names_of checker.old)) members.now)
        → IsInClass checker.old name (class_types params (map (member_tree (names_of checker.old)) members.now))
        → map (accepts_tree (names_of checker.old)) fields.now
        ≡ map (accepts_in (source_of checker.old).declarations)
        (class_types params (map (member_tree (names_of checker.old)) members.now))
        → class_start (source_of checker.old) class ≡ first
        → IfOk result (λ found. AreMethodsSoFar (source_of checker.old) (names_of checker.old) class
        (map (member_tree (names_of checker.old)) members.now) (length members.now) found) }
    ensures keeps { OnOk result (Keeps checker.old.table checker.new.table) }
{
    let alloc = checker.table.alloc;
    let mut methods = Methods {
        contracts: Vec::new(alloc),
        calls: Vec::new(alloc),
        next: first,
    };
    for member in members {
        add_member(checker, class, fields, member, &mut methods)?;
    }
    Ok(methods)
}

/// Enters a class with this name, and tells what each of its fields lets in.
fn enter_class(
    checker: &mut Checker<'_>,
    name: Symbol,
    params: &[Param],
    members: &[Member],
) -> Result<Vec<Accepts>, AllocError>
    ensures inside { OnOk result (IsInClass checker.new (name_of (names_of checker.old) name)
        (class_types (map (param_tree (names_of checker.old)) params.now)
        (map (member_tree (names_of checker.old)) members.now))) }
    ensures fields { IfOk result (λ fields. map (accepts_tree (names_of checker.old)) fields.items
        ≡ map (accepts_in (source_of checker.old).declarations)
        (class_types (map (param_tree (names_of checker.old)) params.now)
        (map (member_tree (names_of checker.old)) members.now))) }
    ensures keeps { OnOk result (Keeps checker.old.table checker.new.table) }
{
    let alloc = checker.table.alloc;
    let program = checker.table.program;
    let types = field_types(alloc, params, members)?;
    let indices = field_indices(checker, types.as_slice())?;
    checker.enter_body(Vec::new(alloc), indices, Some(name), None);
    let fields = accepts_of_types(alloc, program, types.as_slice())?;
    Ok(fields)
}

/// The contracts of the class with this index among the declarations. Its first statement has the index `first`.
fn class_terms(
    checker: &mut Checker<'_>,
    class: u32,
    first: u32,
    name: Symbol,
    params: &[Param],
    members: &[Member],
) -> Result<Declaration, AllocError>
    requires there { IsClassThere (source_of checker.old) class (name_of (names_of checker.old) name)
        (map (param_tree (names_of checker.old)) params.now) (map (member_tree (names_of checker.old)) members.now) }
    requires start { class_start (source_of checker.old) class ≡ first }
    ensures found { IfOk result (IsGathered (source_of checker.old) (names_of checker.old) class) }
    ensures keeps { OnOk result (Keeps checker.old.table checker.new.table) }
{
    let alloc = checker.table.alloc;
    let fields = enter_class(checker, name, params, members)?;
    let methods = methods_of(checker, class, fields.as_slice(), first, members)?;
    let calls = reach_of_calls(alloc, methods.calls.as_slice())?;
    let Some(entry) = checker.table.program.class_entry(class) else {
        return Err(AllocError);
    };
    let initials = reads_of_initials(alloc, entry.initials.as_slice())?;
    let found = ClassTerms {
        fields,
        initials,
        methods: methods.contracts,
        calls,
    };
    Ok(Declaration {
        found: Some(found),
        next: methods.next,
    })
}

/// What there is of a declaration that is no class.
fn no_class(next: u32) -> Declaration
    ensures found { result.found ≡ None }
    ensures next { result.next ≡ next }
{
    Declaration { found: None, next }
}

/// The contracts of the declaration with this index, if it is a class. The first statement after those of the
/// declarations before it has the index `first`.
pub(crate) fn declaration_terms(
    checker: &mut Checker<'_>,
    class: u32,
    first: u32,
    declaration: &Decl,
) -> Result<Declaration, AllocError>
    requires there { slice_get (source_of checker.old).declarations class
        ≡ Some (decl_tree (names_of checker.old) declaration.now) }
    requires start { class_start (source_of checker.old) class ≡ first }
    ensures found { IfOk result (IsGathered (source_of checker.old) (names_of checker.old) class) }
    ensures keeps { OnOk result (Keeps checker.old.table checker.new.table) }
{
    match declaration {
        Decl::Class {
            name,
            params,
            members,
            ..
        } => class_terms(
            checker,
            class,
            first,
            name.name,
            params.as_slice(),
            members.as_slice(),
        ),
        Decl::Data { .. } => Ok(no_class(first)),
        Decl::Function { .. } => Ok(no_class(first)),
        Decl::Interface { .. } => Ok(no_class(first)),
    }
}
