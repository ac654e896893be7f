//! Typing rules for parts that may have no type, and the offence of an expression that has none.
ghost use Rattle.std.specs.Prelude.{◌≡◌, ◌&&◌, List, Option, Some, None, if◌then◌else◌, is_some, length, option_and_then, option_map, IfOk, IfSome, OnOk};
ghost use Rattle.abs_tree.specs.Names.{name_of};
ghost use Rattle.abs_types.specs.ExpressionOffences.{own_call_offences};
ghost use Rattle.abs_types.specs.Mistyped.{untyped};
ghost use Rattle.abs_types.specs.OperatorTypes.{prefix_type};
ghost use Rattle.abs_types.specs.PlainTypes.{PlainType};
ghost use Rattle.abs_types.specs.Schemes.{Scheme};
ghost use Rattle.abs_types.specs.TypeTables.{types_in};
ghost use Rattle.abs_types.specs.Typing.{application_type, case_type, if_type, let_type, operators_type};
ghost use Rattle.check_fun.specs.Contexts.{items_of, operators_of, scheme_at, Context, FindsAll, Finds, FindsScheme, FoundAll, Found, Knows, Noted, Stays};
ghost use Rattle.check_fun.specs.Parts.{with_last};
ghost use Rattle.check_fun.specs.declared.checker.Checker.{Checker as CheckerOf};

use crate::checker::Checker;
use crate::schemes::TypeScheme;
use abs_tree::{Code, Operand, Place, Prefix, Symbol};
use abs_types::TypeIndex;
use std::alloc::AllocError;

impl Checker<'_> {
    /// The type of a `let` by those of its parts. If they all have types and it has none, it is noted at `place`.
    pub(crate) fn checked_let(
        &mut self,
        place: Place,
        value: Option<TypeIndex>,
        declared: TypeIndex,
        body: Option<TypeIndex>,
    ) -> Option<TypeIndex>
        requires value { Found self.old value }
        requires declared { Found self.old (Some declared) }
        ensures found { (context : Context) (given gives : Option PlainType) (type : PlainType) → Knows self.old context
            → Finds self.old value given → Finds self.old (Some declared) (Some type) → Finds self.old body gives
            → Finds self.new result (let_type context.declarations type given gives) }
        ensures noted { (context : Context) (given gives : Option PlainType) (type : PlainType) → Knows self.old context
            → Finds self.old value given → Finds self.old (Some declared) (Some type) → Finds self.old body gives
            → Noted self.old.first (untyped (is_some given && is_some gives)
            (let_type context.declarations type given gives) place) self.new.first }
        ensures stays { Stays self.old self.new }
    {
        let found = self.let_rule(value, declared, body);
        let parts_typed = both_typed(value, body);
        self.note_untyped(parts_typed, found, place);
        found
    }

    /// The type of an `if` by those of its parts. If they all have types and it has none, it is noted at `place`.
    ///
    /// # Errors
    /// [`AllocError`] if an allocation fails, or if there are too many types. So it is for each rule that makes types.
    #[tactic(auto, using(crate::proofs::ContextLemmas::stays_transitive))]
    pub(crate) fn checked_if(
        &mut self,
        place: Place,
        condition: Option<TypeIndex>,
        first: Option<TypeIndex>,
        second: Option<TypeIndex>,
    ) -> Result<Option<TypeIndex>, AllocError>
        requires condition { Found self.old condition }
        requires first { Found self.old first }
        requires second { Found self.old second }
        ensures found { (context : Context) (given one other : Option PlainType) → Knows self.old context
            → Finds self.old condition given → Finds self.old first one → Finds self.old second other
            → IfOk result (λ found. Finds self.new found (if_type context.declarations given one other)) }
        ensures noted { (context : Context) (given one other : Option PlainType) → Knows self.old context
            → Finds self.old condition given → Finds self.old first one → Finds self.old second other
            → OnOk result (Noted self.old.first (untyped (is_some given && is_some one && is_some other)
            (if_type context.declarations given one other) place) self.new.first) }
        ensures stays { OnOk result (Stays self.old self.new) }
    {
        let found = self.if_rule(condition, first, second)?;
        let parts_typed = all_typed(condition, first, second);
        self.note_untyped(parts_typed, found, place);
        Ok(found)
    }

    /// The type of an operator with the operand after it, by that of the operand. If the operand has a type and the
    /// whole has none, it is noted at `place`.
    #[tactic(auto, using(crate::proofs::ContextLemmas::stays_transitive))]
    pub(crate) fn checked_prefix(
        &mut self,
        place: Place,
        prefix: Prefix,
        operand: Option<TypeIndex>,
    ) -> Result<Option<TypeIndex>, AllocError>
        requires { Found self.old operand }
        ensures found { (context : Context) (given : Option PlainType) → Knows self.old context
            → Finds self.old operand given → IfOk result (λ found. Finds self.new found
            (option_and_then (prefix_type context.declarations prefix) given)) }
        ensures noted { (context : Context) (given : Option PlainType) → Knows self.old context
            → Finds self.old operand given → OnOk result (Noted self.old.first (untyped (is_some given)
            (option_and_then (prefix_type context.declarations prefix) given) place) self.new.first) }
        ensures stays { OnOk result (Stays self.old self.new) }
    {
        let found = self.given_prefix(prefix, operand)?;
        self.note_untyped(operand.is_some(), found, place);
        Ok(found)
    }

    /// The type of an operator list by those of its first operand and of the right ones. If they all have types and the
    /// list has none, it is noted at `place`.
    #[tactic(auto, using(crate::proofs::ContextLemmas::stays_transitive))]
    pub(crate) fn checked_operators(
        &mut self,
        place: Place,
        first: Option<TypeIndex>,
        operands: &[Operand],
        rights: Option<Vec<TypeIndex>>,
    ) -> Result<Option<TypeIndex>, AllocError>
        requires first { Found self.old first }
        requires rights { FoundAll self.old (items_of rights) }
        requires count { IfSome rights (λ found. length operands.now ≡ length found.items) }
        ensures found { (context : Context) (left : Option PlainType) (types : Option (List PlainType))
            → Knows self.old context → Finds self.old first left → FindsAll self.old (items_of rights) types
            → IfOk result (λ found. Finds self.new found (operators_type context.declarations left
            (option_map (operators_of operands.now) types))) }
        ensures noted { (context : Context) (left : Option PlainType) (types : Option (List PlainType))
            → Knows self.old context → Finds self.old first left → FindsAll self.old (items_of rights) types
            → OnOk result (Noted self.old.first (untyped (is_some left && is_some types)
            (operators_type context.declarations left (option_map (operators_of operands.now) types)) place)
            self.new.first) }
        ensures stays { OnOk result (Stays self.old self.new) }
    {
        let parts_typed = one_and_all_typed(first, &rights);
        let found = self.given_operators(first, operands, rights)?;
        self.note_untyped(parts_typed, found, place);
        Ok(found)
    }

    /// The type of a `case` by those of its subject and its branches. If they all have types and it has none, it is
    /// noted at `place`.
    #[tactic(auto, using(crate::proofs::ContextLemmas::stays_transitive))]
    pub(crate) fn checked_case(
        &mut self,
        place: Place,
        subject: Option<TypeIndex>,
        branches: Option<Vec<TypeIndex>>,
    ) -> Result<Option<TypeIndex>, AllocError>
        requires { FoundAll self.old (items_of branches) }
        ensures found { (context : Context) (type : Option PlainType) (types : Option (List PlainType))
            → Knows self.old context → Finds self.old subject type → FindsAll self.old (items_of branches) types
            → IfOk result (λ found. Finds self.new found (case_type context.declarations type types)) }
        ensures noted { (context : Context) (type : Option PlainType) (types : Option (List PlainType))
            → Knows self.old context → Finds self.old subject type → FindsAll self.old (items_of branches) types
            → OnOk result (Noted self.old.first (untyped (is_some type && is_some types)
            (case_type context.declarations type types) place) self.new.first) }
        ensures stays { OnOk result (Stays self.old self.new) }
    {
        let parts_typed = one_and_all_typed(subject, &branches);
        let found = self.given_case(subject, branches)?;
        self.note_untyped(parts_typed, found, place);
        Ok(found)
    }

    /// The type of an application by the scheme of what is applied, if there is one, and by the types of the arguments.
    /// If these all have types and it has none, it is noted at `place`.
    #[tactic(auto, using(crate::proofs::ContextLemmas::stays_transitive))]
    pub(crate) fn checked_application(
        &mut self,
        place: Place,
        scheme: Option<TypeScheme>,
        arguments: Option<Vec<TypeIndex>>,
    ) -> Result<Option<TypeIndex>, AllocError>
        requires scheme { FindsScheme self.old scheme (option_map (scheme_at (types_in self.old.table)) scheme) }
        requires arguments { FoundAll self.old (items_of arguments) }
        ensures found { (context : Context) (plain_scheme : Option Scheme) (types : Option (List PlainType))
            → Knows self.old context → FindsScheme self.old scheme plain_scheme
            → FindsAll self.old (items_of arguments) types
            → IfOk result (λ found. Finds self.new found (application_type context.declarations plain_scheme types)) }
        ensures noted { (context : Context) (plain_scheme : Option Scheme) (types : Option (List PlainType))
            → Knows self.old context → FindsScheme self.old scheme plain_scheme
            → FindsAll self.old (items_of arguments) types → OnOk result (Noted self.old.first
            (untyped (is_some types) (application_type context.declarations plain_scheme types) place)
            self.new.first) }
        ensures stays { OnOk result (Stays self.old self.new) }
    {
        let parts_typed = arguments.is_some();
        let found = self.given_application(scheme, arguments)?;
        self.note_untyped(parts_typed, found, place);
        Ok(found)
    }

    /// Notes a call on `this` inside an expression, if its arguments have types, and also if the class has no such
    /// method.
    #[tactic(auto, using(crate::proofs::ContextLemmas::stays_transitive))]
    pub(crate) fn note_own_call(
        &mut self,
        place: Place,
        method: Symbol,
        count: usize,
        arguments: Option<Vec<TypeIndex>>,
    )
        ensures noted { (context : Context) (types : Option (List PlainType)) → Knows self.old context
            → FindsAll self.old (items_of arguments) types → Noted self.old.first (own_call_offences
            context.declarations context.frame types place (name_of context.names method) count) self.new.first }
        ensures stays { Stays self.old self.new }
    {
        let has_method = self.this_has_method(method, count);
        self.note_if(!has_method, Code::T2, place);
        self.note_if(arguments.is_some(), Code::T1, place);
    }

    /// The type of an operator with the operand after it, if the operand has a type and the two have one together.
    fn given_prefix(
        &mut self,
        prefix: Prefix,
        operand: Option<TypeIndex>,
    ) -> Result<Option<TypeIndex>, AllocError>
        requires { Found self.old operand }
        ensures found { (context : Context) (given : Option PlainType) → Knows self.old context
            → Finds self.old operand given → IfOk result (λ found. Finds self.new found
            (option_and_then (prefix_type context.declarations prefix) given)) }
        ensures first { self.new.first ≡ self.old.first }
        ensures stays { Stays self.old self.new }
    {
        match operand {
            Some(operand) => self.prefix_rule(prefix, operand),
            None => Ok(None),
        }
    }

    /// The type of an operator list, if its operands all have types and the list has one.
    fn given_operators(
        &mut self,
        first: Option<TypeIndex>,
        operands: &[Operand],
        rights: Option<Vec<TypeIndex>>,
    ) -> Result<Option<TypeIndex>, AllocError>
        requires first { Found self.old first }
        requires rights { FoundAll self.old (items_of rights) }
        requires count { IfSome rights (λ found. length operands.now ≡ length found.items) }
        ensures found { (context : Context) (left : Option PlainType) (types : Option (List PlainType))
            → Knows self.old context → Finds self.old first left → FindsAll self.old (items_of rights) types
            → IfOk result (λ found. Finds self.new found (operators_type context.declarations left
            (option_map (operators_of operands.now) types))) }
        ensures first { self.new.first ≡ self.old.first }
        ensures stays { Stays self.old self.new }
    {
        match (first, rights) {
            (Some(first), Some(rights)) => self.operators_rule(first, operands, rights.as_slice()),
            _ => Ok(None),
        }
    }

    /// The type of a `case`, if its subject and its branches have types, and these have a join.
    fn given_case(
        &mut self,
        subject: Option<TypeIndex>,
        branches: Option<Vec<TypeIndex>>,
    ) -> Result<Option<TypeIndex>, AllocError>
        requires { FoundAll self.old (items_of branches) }
        ensures found { (context : Context) (type : Option PlainType) (types : Option (List PlainType))
            → Knows self.old context → Finds self.old subject type → FindsAll self.old (items_of branches) types
            → IfOk result (λ found. Finds self.new found (case_type context.declarations type types)) }
        ensures first { self.new.first ≡ self.old.first }
        ensures stays { Stays self.old self.new }
    {
        match (subject, branches) {
            (Some(_), Some(branches)) => self.join_all(branches.as_slice()),
            _ => Ok(None),
        }
    }

    /// The type of an application, if what is applied has a scheme, its arguments have types, and it has one.
    fn given_application(
        &mut self,
        scheme: Option<TypeScheme>,
        arguments: Option<Vec<TypeIndex>>,
    ) -> Result<Option<TypeIndex>, AllocError>
        requires scheme { FindsScheme self.old scheme (option_map (scheme_at (types_in self.old.table)) scheme) }
        requires arguments { FoundAll self.old (items_of arguments) }
        ensures found { (context : Context) (plain_scheme : Option Scheme) (types : Option (List PlainType))
            → Knows self.old context → FindsScheme self.old scheme plain_scheme
            → FindsAll self.old (items_of arguments) types
            → IfOk result (λ found. Finds self.new found (application_type context.declarations plain_scheme types)) }
        ensures first { self.new.first ≡ self.old.first }
        ensures stays { Stays self.old self.new }
    {
        match (scheme, arguments) {
            (Some(scheme), Some(arguments)) => self.application(
                scheme.parameters,
                scheme.takes.as_slice(),
                scheme.gives,
                arguments.as_slice(),
            ),
            _ => Ok(None),
        }
    }
}

/// One more type after several, if all are there.
///
/// # Errors
/// [`AllocError`] if an allocation fails.
pub(crate) fn with_last(
    types: Option<Vec<TypeIndex>>,
    last: Option<TypeIndex>,
) -> Result<Option<Vec<TypeIndex>>, AllocError>
    ensures { (checker : CheckerOf) (before : Option (List PlainType)) (type : Option PlainType)
        → FindsAll checker (items_of types) before → Finds checker last type
        → IfOk result (λ found. FindsAll checker (items_of found) (with_last before type)) }
{
    let (Some(mut types), Some(last)) = (types, last) else {
        return Ok(None);
    };
    types.push(last)?;
    Ok(Some(types))
}

/// The type of a value, if the pattern before it fits.
pub(crate) fn value_if(fits: bool, value: Option<TypeIndex>) -> Option<TypeIndex>
    ensures { (checker : CheckerOf) (type : Option PlainType) → Finds checker value type
        → Finds checker result (if fits then type else None) }
{
    if fits { value } else { None }
}

/// Whether both parts have types.
fn both_typed(one: Option<TypeIndex>, other: Option<TypeIndex>) -> bool
    ensures { (checker : CheckerOf) (left right : Option PlainType) → Finds checker one left
        → Finds checker other right → result ≡ (is_some left && is_some right) }
{
    one.is_some() && other.is_some()
}

/// Whether all three parts have types.
fn all_typed(one: Option<TypeIndex>, other: Option<TypeIndex>, third: Option<TypeIndex>) -> bool
    ensures { (checker : CheckerOf) (left right last : Option PlainType) → Finds checker one left
        → Finds checker other right → Finds checker third last
        → result ≡ (is_some left && is_some right && is_some last) }
{
    both_typed(one, other) && third.is_some()
}

/// Whether one part and several others have types.
fn one_and_all_typed(one: Option<TypeIndex>, others: &Option<Vec<TypeIndex>>) -> bool
    ensures { (checker : CheckerOf) (type : Option PlainType) (types : Option (List PlainType))
        → Finds checker one type → FindsAll checker (items_of others.now) types
        → result ≡ (is_some type && is_some types) }
{
    one.is_some() && others.is_some()
}
