//! Prints types and patterns.
use crate::printer::Printer;
use abs_tree::{Pattern, TypeTerm};

impl Printer<'_, '_> {
    /// A type: its place where it has one, what it names, and its arguments between angle brackets.
    #[cycle(printed_types)]
    pub(crate) fn type_term(&mut self, term: &TypeTerm) {
        self.type_head(term);
        match term {
            TypeTerm::Unresolved { arguments, .. } | TypeTerm::Data { arguments, .. } => {
                self.types(arguments);
                self.push(">");
            }
            TypeTerm::Fut(_, value) => {
                self.type_term(value);
                self.push(">");
            }
            _ => {}
        }
    }

    /// The place of a type and what it names, with the bracket that opens its arguments where it can have some.
    fn type_head(&mut self, term: &TypeTerm) {
        match term {
            TypeTerm::Unresolved { place, name, .. } => {
                self.at(*place);
                self.name_between("", *name, "<");
            }
            TypeTerm::Data { place, name, .. } => {
                self.at(*place);
                self.name_between("data ", *name, "<");
            }
            TypeTerm::Interface(place, name) => {
                self.at(*place);
                self.name_between("interface ", *name, "");
            }
            TypeTerm::Parameter(place, parameter) => {
                self.at(*place);
                self.numbered("parameter ", *parameter);
            }
            TypeTerm::Fut(place, _) => self.word_at(*place, "Fut< "),
            TypeTerm::Int(place) => self.word_at(*place, "Int"),
            TypeTerm::String(place) => self.word_at(*place, "String"),
            TypeTerm::Class(name) => self.name_between("class ", *name, ""),
            TypeTerm::Bottom => self.push("Bottom"),
            TypeTerm::Null => self.push("Null"),
        }
    }

    /// Types, each after a space.
    #[cycle(printed_types)]
    pub(crate) fn types(&mut self, types: &Vec<TypeTerm>) {
        for type_of in types.iter() {
            self.push(" ");
            self.type_term(type_of);
        }
    }

    /// A pattern: a constructor has its arguments between parentheses.
    pub(crate) fn pattern(&mut self, pattern: &Pattern) {
        match pattern {
            Pattern::Any(place) => self.word_at(*place, "_"),
            Pattern::Binds(place, variable) => {
                self.at(*place);
                self.variable(*variable);
            }
            Pattern::Number(place, number) => {
                self.at(*place);
                self.number(*number);
            }
            Pattern::Text(place, literal) => {
                self.at(*place);
                self.literal(literal);
            }
            Pattern::Built {
                place,
                constructor,
                arguments,
            } => {
                self.at(*place);
                self.name_between("", *constructor, "(");
                for argument in arguments.iter() {
                    self.push(" ");
                    self.pattern(argument);
                }
                self.push(")");
            }
        }
    }
}
