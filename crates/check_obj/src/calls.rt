//! The methods that an object has with a name, and what a call of them gives.
ghost use Rattle.std.specs.Prelude.{◌≡◌, ◌++◌, List, Some, map, nat_eq, option_map, IfOk, OnOk};
ghost use Rattle.abs_program.specs.Members.{signatures_of};
ghost use Rattle.abs_tree.specs.Names.{name_of};
ghost use Rattle.abs_program.specs.NamedViews.{named_tree};
ghost use Rattle.abs_program.specs.Supertypes.{is_below};
ghost use Rattle.abs_tree.specs.Syntax.{Name};
ghost use Rattle.abs_tree.specs.SyntaxViews.{signature_tree};
ghost use Rattle.abs_types.specs.Arguments.{all_fit as are_fitting};
ghost use Rattle.abs_types.specs.Methods.{first_taking as first_that_takes, method_type};
ghost use Rattle.abs_types.specs.PlainTypes.{PlainType};
ghost use Rattle.check_fun.specs.Contexts.{Context, FindsAll, Finds, FoundAll, Knows, Stays};
ghost use Rattle.check_fun.specs.ObjectHeads.{head_named, OfClass, OfInterface};
ghost use Rattle.check_obj.specs.Calls.{called, if_called, if_there, method_tree_at, picked, signature_tree_at, trees_of};

use abs_program::{Named, SignatureAt, TypeMeaning};
use abs_tree::{Decl, Member, Signature, Symbol};
use abs_types::TypeIndex;
use check_fun::{Checker, Head};
use std::alloc::{AllocError, Global};

/// The methods of an object with a name and this many parameters: those of a class, or those of an interface, which are
/// followed by those that it inherits, in the order of the declarations.
///
/// # Errors
/// [`AllocError`] if an allocation fails.
pub(crate) fn methods_called<'p>(
    alloc: Global,
    program: &'p Named<'_>,
    head: Head,
    name: Symbol,
    count: usize,
) -> Result<Vec<&'p Signature>, AllocError>
    ensures { IfOk result (λ found. trees_of program.now.symbols found.items
        ≡ called (named_tree program.now).declarations (head_named program.now.symbols head)
        (name_of program.now.symbols name) count) }
{
    match head {
        Head::Class(class) => class_methods(alloc, program, class, name, count),
        Head::Interface(interface) => interface_methods(alloc, program, interface, name, count),
        Head::Other => Ok(Vec::new(alloc)),
    }
}

/// The methods of a class with a name and this many parameters, of which there is at most one.
///
/// # Errors
/// [`AllocError`] if an allocation fails.
fn class_methods<'p>(
    alloc: Global,
    program: &'p Named<'_>,
    class: Symbol,
    name: Symbol,
    count: usize,
) -> Result<Vec<&'p Signature>, AllocError>
    ensures { IfOk result (λ found. trees_of program.now.symbols found.items
        ≡ called (named_tree program.now).declarations (OfClass (name_of program.now.symbols class))
        (name_of program.now.symbols name) count) }
{
    let mut found = Vec::new(alloc);
    let Some(taking) = program.class(class) else {
        return Ok(found);
    };
    let Some(index) = program.method(taking.declaration, name) else {
        return Ok(found);
    };
    if let Some(signature) = method_at(program, taking.declaration, index) {
        add_called(signature, count, &mut found)?;
    }
    Ok(found)
}

/// The methods of an interface with a name and this many parameters, followed by those that it inherits, in the order
/// of the declarations.
///
/// # Errors
/// [`AllocError`] if an allocation fails.
fn interface_methods<'p>(
    alloc: Global,
    program: &'p Named<'_>,
    interface: Symbol,
    name: Symbol,
    count: usize,
) -> Result<Vec<&'p Signature>, AllocError>
    ensures { IfOk result (λ found. trees_of program.now.symbols found.items
        ≡ called (named_tree program.now).declarations (OfInterface (name_of program.now.symbols interface))
        (name_of program.now.symbols name) count) }
{
    let mut found = Vec::new(alloc);
    let Some(TypeMeaning::Interface(own)) = program.type_named(interface) else {
        return Ok(found);
    };
    add_own(program, own, name, count, &mut found)?;
    add_inherited(program, own, name, count, &mut found)?;
    Ok(found)
}

/// Adds the method with a name that an interface declares itself, if it has this many parameters.
///
/// # Errors
/// [`AllocError`] if an allocation fails.
fn add_own<'p>(
    program: &'p Named<'_>,
    own: u32,
    name: Symbol,
    count: usize,
    found: &mut Vec<&'p Signature>,
) -> Result<(), AllocError>
    ensures { OnOk result (trees_of program.now.symbols found.new.items
        ≡ trees_of program.now.symbols found.old.items ++ picked (λ interface. nat_eq interface own)
        (named_tree program.now).declarations count
        (signatures_of (named_tree program.now).declarations (name_of program.now.symbols name))) }
{
    for at in program.signatures(name) {
        if at.interface == own {
            add_at(program, *at, count, found)?;
        }
    }
    Ok(())
}

/// Adds those that the interfaces declare that are above an interface.
///
/// # Errors
/// [`AllocError`] if an allocation fails.
fn add_inherited<'p>(
    program: &'p Named<'_>,
    own: u32,
    name: Symbol,
    count: usize,
    found: &mut Vec<&'p Signature>,
) -> Result<(), AllocError>
    ensures { OnOk result (trees_of program.now.symbols found.new.items
        ≡ trees_of program.now.symbols found.old.items ++ picked (is_below (named_tree program.now).declarations own)
        (named_tree program.now).declarations count
        (signatures_of (named_tree program.now).declarations (name_of program.now.symbols name))) }
{
    for at in program.signatures(name) {
        if program.is_below(own, at.interface) {
            add_at(program, *at, count, found)?;
        }
    }
    Ok(())
}

/// Adds the method that is at a place of an interface, if it has this many parameters.
///
/// # Errors
/// [`AllocError`] if an allocation fails.
fn add_at<'p>(
    program: &'p Named<'_>,
    at: SignatureAt,
    count: usize,
    found: &mut Vec<&'p Signature>,
) -> Result<(), AllocError>
    ensures { OnOk result (trees_of program.now.symbols found.new.items
        ≡ trees_of program.now.symbols found.old.items
        ++ if_there count (signature_tree_at (named_tree program.now).declarations at)) }
{
    if let Some(signature) = signature_at(program, at) {
        add_called(signature, count, found)?;
    }
    Ok(())
}

/// Adds a method, if it has this many parameters.
///
/// # Errors
/// [`AllocError`] if an allocation fails.
fn add_called<'p>(
    signature: &'p Signature,
    count: usize,
    found: &mut Vec<&'p Signature>,
) -> Result<(), AllocError>
    ensures { (names : List Name) → OnOk result (trees_of names found.new.items
        ≡ trees_of names found.old.items ++ if_called count (signature_tree names signature.now)) }
{
    if signature.params.len() == count {
        found.push(signature)?;
    }
    Ok(())
}

/// The method that is the member with an index of the declaration with an index.
#[tactic(auto, unfolding(crate::specs::Calls::method_tree_at))]
fn method_at<'p>(program: &'p Named<'_>, class: u32, index: u32) -> Option<&'p Signature>
    ensures { option_map (λ one. signature_tree program.now.symbols one.now) result
        ≡ method_tree_at (named_tree program.now).declarations class index }
{
    match program.declarations.get(class as usize)? {
        Decl::Class { members, .. } => match members.get(index as usize)? {
            Member::Method(signature, _) => Some(signature),
            Member::Field { .. } => None,
        },
        _ => None,
    }
}

/// The method that an interface declares at a place.
#[tactic(auto, unfolding(crate::specs::Calls::signature_tree_at))]
fn signature_at<'p>(program: &'p Named<'_>, at: SignatureAt) -> Option<&'p Signature>
    ensures { option_map (λ one. signature_tree program.now.symbols one.now) result
        ≡ signature_tree_at (named_tree program.now).declarations at }
{
    match program.declarations.get(at.interface as usize)? {
        Decl::Interface { signatures, .. } => signatures.get(at.index as usize),
        _ => None,
    }
}

/// The type of what the first of several methods gives that takes arguments of these types.
///
/// # Errors
/// [`AllocError`] if an allocation fails, or if there are too many types.
pub(crate) fn first_taking(
    checker: &mut Checker<'_>,
    given: &[TypeIndex],
    methods: &[&Signature],
) -> Result<Option<TypeIndex>, AllocError>
    requires { FoundAll checker.old (Some given.now) }
    ensures found { (context : Context) (types : List PlainType) → Knows checker.old context
        → FindsAll checker.old (Some given.now) (Some types) → IfOk result (λ found. Finds checker.new found
        (first_that_takes context.declarations types (map method_type (trees_of context.names methods.now)))) }
    ensures first { checker.new.first ≡ checker.old.first }
    ensures stays { OnOk result (Stays checker.old checker.new) }
{
    for method in methods {
        let takes = checker.param_types(method.params.as_slice())?;
        if all_fit(checker, given, takes.as_slice()) {
            return Ok(Some(checker.written(&method.result)?));
        }
    }
    Ok(None)
}

/// Whether types are as many as others, and fit them one by one.
pub(crate) fn all_fit(checker: &Checker<'_>, given: &[TypeIndex], takes: &[TypeIndex]) -> bool
    requires given { FoundAll checker.now (Some given.now) }
    requires takes { FoundAll checker.now (Some takes.now) }
    ensures { (context : Context) (types others : List PlainType) → Knows checker.now context
        → FindsAll checker.now (Some given.now) (Some types) → FindsAll checker.now (Some takes.now) (Some others)
        → result ≡ are_fitting context.declarations types others }
{
    if given.len() != takes.len() {
        return false;
    }
    for (index, one) in given.iter().enumerate() {
        if !checker.table.fits(*one, takes[index]) {
            return false;
        }
    }
    true
}
