//! Prints declarations, and a program as a whole.
use crate::printer::Printer;
use crate::sink::Sink;
use abs_tree::{Body, Constructor, Decl, Declared, Member, Param, Signature, Slot, Symbols};

/// The sink after one more line, with the tree of these parts.
pub(crate) fn add_tree(
    sink: Sink,
    symbols: &Symbols<'_>,
    declarations: &[Decl],
    main: &Body,
) -> Sink {
    let mut printer = Printer::new(sink, symbols);
    printer.program(declarations, main);
    printer.end_line()
}

impl Printer<'_, '_> {
    /// A program: its declarations, each before a semicolon, and its main block.
    fn program(&mut self, declarations: &[Decl], main: &Body) {
        for decl in declarations {
            self.decl(decl);
            self.push("; ");
        }
        self.body(main)
    }

    /// A declaration: its word, its name, and its parts, with a bar before each constructor, signature or member.
    fn decl(&mut self, decl: &Decl) {
        self.at(decl.place());
        match decl {
            Decl::Data {
                name,
                type_params,
                constructors,
                ..
            } => {
                self.push("data ");
                self.generic(name, type_params);
                self.constructors(constructors)
            }
            Decl::Function {
                result,
                name,
                type_params,
                params,
                value,
                ..
            } => {
                self.push("def ");
                self.type_term(result);
                self.push(" ");
                self.generic(name, type_params);
                self.params(params);
                self.push(" = ");
                self.expr(value)
            }
            Decl::Interface { .. } | Decl::Class { .. } => self.members_of(decl),
        }
    }

    /// An interface with its signatures, or a class with its members.
    fn members_of(&mut self, decl: &Decl) {
        match decl {
            Decl::Interface {
                name,
                extended,
                signatures,
                ..
            } => {
                self.push("interface ");
                self.declared(name);
                self.push(" extends");
                self.names(extended);
                self.signatures(signatures)
            }
            Decl::Class {
                name,
                params,
                implemented,
                members,
                ..
            } => {
                self.push("class ");
                self.declared(name);
                self.params(params);
                self.push(" implements");
                self.names(implemented);
                self.members(members)
            }
            _ => {}
        }
    }

    /// A name, and its type parameters between angle brackets.
    fn generic(&mut self, name: &Declared, type_params: &Vec<Declared>) {
        self.declared(name);
        self.push("<");
        self.names(type_params);
        self.push(">")
    }

    /// Names, each after a space.
    fn names(&mut self, names: &Vec<Declared>) {
        for name in names.iter() {
            self.push(" ");
            self.declared(name);
        }
    }

    /// Parameters between parentheses, each after a space.
    fn params(&mut self, params: &Vec<Param>) {
        self.push("(");
        for param in params.iter() {
            self.push(" ");
            self.type_term(&param.type_of);
            self.push(" ");
            self.at(param.place);
            self.variable(param.variable);
        }
        self.push(")")
    }

    /// Constructors, each after a bar, with the types of its arguments.
    fn constructors(&mut self, constructors: &Vec<Constructor>) {
        for constructor in constructors.iter() {
            self.push(" | ");
            self.declared(&constructor.name);
            self.types(&constructor.types);
        }
    }

    /// Signatures, each after a bar.
    fn signatures(&mut self, signatures: &Vec<Signature>) {
        for signature in signatures.iter() {
            self.push(" | ");
            self.signature(signature);
        }
    }

    /// The head of a method.
    fn signature(&mut self, signature: &Signature) {
        self.type_term(&signature.result);
        self.push(" ");
        self.declared(&signature.name);
        self.params(&signature.params)
    }

    /// Members of a class, each after a bar.
    fn members(&mut self, members: &Vec<Member>) {
        for member in members.iter() {
            self.push(" | ");
            self.member(member);
        }
    }

    /// A member of a class.
    fn member(&mut self, member: &Member) {
        match member {
            Member::Field {
                type_of,
                name,
                initial,
            } => {
                self.type_term(type_of);
                self.push(" ");
                self.declared(name);
                match initial {
                    Some(value) => {
                        self.push(" = ");
                        self.expr(value)
                    }
                    None => {}
                }
            }
            Member::Method(signature, body) => {
                self.signature(signature);
                self.push(" ");
                self.body(body)
            }
        }
    }

    /// The statements of a body, the place of the brace that closes it, and its slots.
    fn body(&mut self, body: &Body) {
        self.push("{");
        self.stmts(&body.statements);
        self.push(" ");
        self.place(body.end);
        self.push("}");
        self.slots(&body.slots)
    }

    /// Slots between brackets, each after a space; nothing for no slots, so for no body whose names are unresolved.
    fn slots(&mut self, slots: &Vec<Slot>) {
        if slots.is_empty() {
            return;
        }
        self.push("[");
        for slot in slots.iter() {
            self.slot(*slot);
        }
        self.push("]")
    }
}
