//! Whether a table of names has the name of each constructor, class and method of declarations.
ghost use Rattle.std.specs.Prelude.{◌≡◌, [], ◌∷◌, map};
ghost use Rattle.std.specs.List.{list_all};
ghost use Rattle.abs_program.specs.KnownNames.{has_name};
ghost use Rattle.abs_tree.specs.DeclaredNames.{constructor_names, signature_names, member_names, decl_names, decls_names};
ghost use Rattle.abs_tree.specs.Names.{name_of};
ghost use Rattle.abs_tree.specs.SyntaxViews.{constructor_tree, signature_tree, member_tree, decl_tree};

use abs_tree::Symbols;
use abs_tree::syntax::{Constructor, Decl, Declared, Member, Signature};

/// Whether the table has a name that is declared. A symbol that it does not have has the empty name.
fn is_known(symbols: &Symbols<'_>, name: Declared) -> bool
    ensures { result ≡ has_name symbols.now (name_of symbols.now name.name) }
{
    (symbols.number(name.name) as usize) < symbols.len()
}

/// Whether the table has the names of constructors.
fn knows_constructors(symbols: &Symbols<'_>, constructors: &[Constructor]) -> bool
    ensures { result ≡ list_all (has_name symbols.now)
        (constructor_names (map (constructor_tree symbols.now) constructors.now)) }
{
    for constructor in constructors {
        if !is_known(symbols, constructor.name) {
            return false;
        }
    }
    true
}

/// Whether the table has the names of methods of an interface.
fn knows_signatures(symbols: &Symbols<'_>, signatures: &[Signature]) -> bool
    ensures { result ≡ list_all (has_name symbols.now)
        (signature_names (map (signature_tree symbols.now) signatures.now)) }
{
    for signature in signatures {
        if !is_known(symbols, signature.name) {
            return false;
        }
    }
    true
}

/// Whether the table has the name of a member, if it is a method.
fn knows_member(symbols: &Symbols<'_>, member: &Member) -> bool
    ensures { result ≡ list_all (has_name symbols.now) (member_names (member_tree symbols.now member.now ∷ [])) }
{
    match member {
        Member::Field { .. } => true,
        Member::Method(signature, _) => is_known(symbols, signature.name),
    }
}

/// Whether the table has the names of methods among the members of a class.
fn knows_members(symbols: &Symbols<'_>, members: &[Member]) -> bool
    ensures { result ≡ list_all (has_name symbols.now) (member_names (map (member_tree symbols.now) members.now)) }
{
    for member in members {
        if !knows_member(symbols, member) {
            return false;
        }
    }
    true
}

/// Whether the table has the names of the constructors, of the class and of the methods of a declaration.
fn knows_declaration(symbols: &Symbols<'_>, declaration: &Decl) -> bool
    ensures { result ≡ list_all (has_name symbols.now) (decl_names (decl_tree symbols.now declaration.now)) }
{
    match declaration {
        Decl::Data { constructors, .. } => knows_constructors(symbols, constructors.as_slice()),
        Decl::Function { .. } => true,
        Decl::Interface { signatures, .. } => knows_signatures(symbols, signatures.as_slice()),
        Decl::Class { name, members, .. } => {
            is_known(symbols, *name) && knows_members(symbols, members.as_slice())
        }
    }
}

/// Whether the table has the name of each constructor, class and method of declarations. Then the program of these
/// declarations and any main block knows its names.
pub fn knows_names(symbols: &Symbols<'_>, declarations: &[Decl]) -> bool
    ensures { result ≡ list_all (has_name symbols.now)
        (decls_names (map (decl_tree symbols.now) declarations.now)) }
{
    for declaration in declarations {
        if !knows_declaration(symbols, declaration) {
            return false;
        }
    }
    true
}
