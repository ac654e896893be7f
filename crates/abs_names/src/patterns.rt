//! Patterns: each variable in one is bound anew.
ghost use Rattle.std.specs.Prelude.{◌≡◌, fold, IfOk, OnOk};
ghost use Rattle.abs_tree.specs.Offences.{earlier};
ghost use Rattle.abs_tree.specs.SyntaxViews.{pattern_tree, pattern_trees};
ghost use Rattle.abs_names.specs.NameOffences.{pattern_offences, patterns_offences};
ghost use Rattle.abs_names.specs.Resolution.{resolved_pattern, resolved_patterns};
ghost use Rattle.abs_names.specs.Scopes.{pattern_scope, patterns_scope};

use crate::walk::Walk;
use abs_tree::Pattern;
use std::alloc::AllocError;

impl Walk<'_> {
    /// Resolves a pattern. The scope is then the one after it.
    ///
    /// # Errors
    /// [`AllocError`] if an allocation fails.
    #[cycle(patterns)]
    pub fn pattern(&mut self, pattern: &Pattern) -> Result<Pattern, AllocError>
        ensures found { IfOk result (λ found. pattern_tree self.old.scope.names.after found
            ≡ resolved_pattern self.old.scope.scope (pattern_tree self.old.scope.names.before pattern.now)) }
        ensures noted { OnOk result (self.new.first ≡ fold earlier self.old.first
            (pattern_offences self.old.scope.scope (pattern_tree self.old.scope.names.before pattern.now))) }
        ensures names { OnOk result (self.new.scope.names ≡ self.old.scope.names) }
        ensures bound { OnOk result (self.new.scope.scope
            ≡ pattern_scope self.old.scope.scope (pattern_tree self.old.scope.names.before pattern.now)) }
    {
        match pattern {
            Pattern::Any(place) => Ok(Pattern::Any(*place)),
            Pattern::Binds(place, variable) => {
                let variable = self.bind(*place, *variable)?;
                Ok(Pattern::Binds(*place, variable))
            }
            Pattern::Number(place, number) => Ok(Pattern::Number(*place, *number)),
            Pattern::Text(place, text) => Ok(Pattern::Text(*place, text.share()?)),
            Pattern::Built {
                place,
                constructor,
                arguments,
            } => {
                let taken = self.scope.around().constructor_taking(*constructor);
                self.note_applied(taken, arguments.len(), *place);
                let arguments = self.patterns(arguments)?;
                Ok(Pattern::Built {
                    place: *place,
                    constructor: self.scope.around().kept(*constructor),
                    arguments,
                })
            }
        }
    }

    /// Resolves patterns in order. The scope is then the one after them.
    #[cycle(patterns)]
    fn patterns(&mut self, parts: &[Pattern]) -> Result<Vec<Pattern>, AllocError>
        ensures found { IfOk result (λ found. pattern_trees self.old.scope.names.after found.items
            ≡ resolved_patterns self.old.scope.scope (pattern_trees self.old.scope.names.before parts.now)) }
        ensures noted { OnOk result (self.new.first ≡ fold earlier self.old.first
            (patterns_offences self.old.scope.scope (pattern_trees self.old.scope.names.before parts.now))) }
        ensures names { OnOk result (self.new.scope.names ≡ self.old.scope.names) }
        ensures bound { OnOk result (self.new.scope.scope
            ≡ patterns_scope self.old.scope.scope (pattern_trees self.old.scope.names.before parts.now)) }
    {
        let mut found = Vec::with_capacity(self.alloc, parts.len())?;
        for part in parts {
            found.push(self.pattern(part)?)?;
        }
        Ok(found)
    }
}
