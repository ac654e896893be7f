//! Patterns: whether they fit their subject, and the types of their variables.
ghost use Rattle.std.specs.Prelude.{◌≡◌, ◌&&◌, List, [], Option, Some, is_none, is_some, length, map, nat_eq, not, slice_get, unwrap_or, IfOk, OnOk};
ghost use Rattle.abs_tree.specs.Names.{name_of};
ghost use Rattle.abs_tree.specs.Syntax.{Built};
ghost use Rattle.abs_tree.specs.SyntaxViews.{pattern_tree, pattern_trees};
ghost use Rattle.abs_types.specs.Mistyped.{does_not_fit, unfit};
ghost use Rattle.abs_types.specs.PatternTypes.{pattern_fits, pattern_offences, pattern_types, patterns_offences, patterns_types};
ghost use Rattle.abs_types.specs.PlainTypes.{PlainType};
ghost use Rattle.abs_types.specs.TypeTables.{Keeps};
ghost use Rattle.check_fun.specs.Contexts.{items_of, with_bound, Context, FindsAll, Finds, FoundAll, Found, Knows, Noted, Stays};

use crate::checker::Checker;
use abs_tree::{Code, Pattern, Place, Symbol};
use abs_types::TypeIndex;
use std::alloc::AllocError;

impl Checker<'_> {
    /// Whether a pattern fits its subject. Its variables are bound. A pattern that does not fit is noted, if none
    /// around it is.
    ///
    /// # Errors
    /// [`AllocError`] if an allocation fails, or if there are too many types.
    #[cycle(patterns)]
    pub(crate) fn pattern(
        &mut self,
        subject: Option<TypeIndex>,
        pattern: &Pattern,
    ) -> Result<bool, AllocError>
        requires { Found self.old subject }
        ensures fits { (context : Context) (type : Option PlainType) → Knows self.old context
            → Finds self.old subject type → IfOk result
            (λ fits. fits ≡ pattern_fits context.declarations type (pattern_tree context.names pattern.now)) }
        ensures noted { (context : Context) (type : Option PlainType) → Knows self.old context
            → Finds self.old subject type → OnOk result (Noted self.old.first
            (pattern_offences context.declarations type (pattern_tree context.names pattern.now)) self.new.first) }
        ensures bound { (context : Context) (type : Option PlainType) → Knows self.old context
            → Finds self.old subject type → OnOk result (Knows self.new (with_bound context
            (pattern_types context.declarations type (pattern_tree context.names pattern.now)))) }
        ensures keeps { OnOk result (Keeps self.old.table self.new.table) }
    {
        match pattern {
            Pattern::Any(_) => Ok(true),
            Pattern::Binds(_, _) => {
                self.bind(subject)?;
                Ok(true)
            }
            Pattern::Number(place, _) => {
                let asked = self.int()?;
                Ok(self.literal(subject, asked, *place))
            }
            Pattern::Text(place, _) => {
                let asked = self.string()?;
                Ok(self.literal(subject, asked, *place))
            }
            Pattern::Built {
                place,
                constructor,
                arguments,
            } => self.built(subject, *place, *constructor, arguments),
        }
    }

    /// Whether a literal fits its subject. One that does not fit is noted.
    fn literal(&mut self, subject: Option<TypeIndex>, asked: TypeIndex, place: Place) -> bool
        requires subject { Found self.old subject }
        requires asked { Found self.old (Some asked) }
        ensures fits { (context : Context) (given : Option PlainType) (wanted : PlainType) → Knows self.old context
            → Finds self.old subject given → Finds self.old (Some asked) (Some wanted)
            → result ≡ nat_eq (length (unfit context.declarations given wanted place)) 0 }
        ensures noted { (context : Context) (given : Option PlainType) (wanted : PlainType) → Knows self.old context
            → Finds self.old subject given → Finds self.old (Some asked) (Some wanted)
            → Noted self.old.first (unfit context.declarations given wanted place) self.new.first }
        ensures stays { Stays self.old self.new }
    {
        let fits = self.admits(subject, asked);
        self.note_if(!fits, Code::T1, place);
        fits
    }

    /// Whether a subject fits a type. One without a type does.
    fn admits(&self, subject: Option<TypeIndex>, asked: TypeIndex) -> bool
        requires subject { Found self.now subject }
        requires asked { Found self.now (Some asked) }
        ensures { (context : Context) (given : Option PlainType) (wanted : PlainType) → Knows self.now context
            → Finds self.now subject given → Finds self.now (Some asked) (Some wanted)
            → does_not_fit context.declarations given wanted ≡ not result }
    {
        match subject {
            Some(subject) => self.table.fits(subject, asked),
            None => true,
        }
    }

    /// Whether a constructor with the patterns of its arguments fits its subject. Its variables are bound. What does
    /// not fit is noted.
    #[cycle(patterns)]
    fn built(
        &mut self,
        subject: Option<TypeIndex>,
        place: Place,
        constructor: Symbol,
        arguments: &[Pattern],
    ) -> Result<bool, AllocError>
        requires { Found self.old subject }
        ensures fits { (context : Context) (type : Option PlainType) → Knows self.old context
            → Finds self.old subject type → IfOk result (λ fits. fits ≡ pattern_fits context.declarations type
            (Built place (name_of context.names constructor) (pattern_trees context.names arguments.now))) }
        ensures noted { (context : Context) (type : Option PlainType) → Knows self.old context
            → Finds self.old subject type → OnOk result (Noted self.old.first
            (pattern_offences context.declarations type
            (Built place (name_of context.names constructor) (pattern_trees context.names arguments.now)))
            self.new.first) }
        ensures bound { (context : Context) (type : Option PlainType) → Knows self.old context
            → Finds self.old subject type → OnOk result (Knows self.new (with_bound context
            (pattern_types context.declarations type
            (Built place (name_of context.names constructor) (pattern_trees context.names arguments.now))))) }
        ensures keeps { OnOk result (Keeps self.old.table self.new.table) }
    {
        let parts = self.parts_matched(subject, constructor, arguments.len())?;
        let is_foreign = is_foreign(subject, &parts);
        self.note_if(is_foreign, Code::T1, place);
        let fit = self.patterns(listed(&parts), arguments)?;
        Ok(!is_foreign && fit)
    }

    /// Whether patterns fit their subjects, in order. Past the list of subjects there is none with a type.
    #[cycle(patterns)]
    fn patterns(&mut self, subjects: &[TypeIndex], patterns: &[Pattern]) -> Result<bool, AllocError>
        requires { FoundAll self.old (Some subjects.now) }
        ensures fits { (context : Context) (types : List PlainType) → Knows self.old context
            → FindsAll self.old (Some subjects.now) (Some types) → IfOk result (λ fits. fits
            ≡ nat_eq (length (patterns_offences context.declarations (map Some types)
            (pattern_trees context.names patterns.now))) 0) }
        ensures noted { (context : Context) (types : List PlainType) → Knows self.old context
            → FindsAll self.old (Some subjects.now) (Some types) → OnOk result (Noted self.old.first
            (patterns_offences context.declarations (map Some types) (pattern_trees context.names patterns.now))
            self.new.first) }
        ensures bound { (context : Context) (types : List PlainType) → Knows self.old context
            → FindsAll self.old (Some subjects.now) (Some types) → OnOk result (Knows self.new (with_bound context
            (patterns_types context.declarations (map Some types) (pattern_trees context.names patterns.now)))) }
        ensures keeps { OnOk result (Keeps self.old.table self.new.table) }
    {
        let mut fit = true;
        for (index, pattern) in patterns.iter().enumerate() {
            fit &= self.pattern(subject_at(subjects, index), pattern)?;
        }
        Ok(fit)
    }
}

/// The subject at an index, if there are so many.
fn subject_at(subjects: &[TypeIndex], index: usize) -> Option<TypeIndex>
    ensures { result ≡ slice_get subjects.now index }
{
    match subjects.get(index) {
        Some(subject) => Some(*subject),
        None => None,
    }
}

/// Whether a subject has a type, and no parts of it were matched.
fn is_foreign(subject: Option<TypeIndex>, parts: &Option<Vec<TypeIndex>>) -> bool
    ensures { result ≡ (is_some subject && is_none parts.now) }
{
    subject.is_some() && parts.is_none()
}

/// The parts that were matched, of which there are none if no parts were.
fn listed(parts: &Option<Vec<TypeIndex>>) -> &[TypeIndex]
    ensures { result.now ≡ unwrap_or (items_of parts.now) [] }
{
    match parts {
        Some(parts) => parts.as_slice(),
        None => &[],
    }
}
