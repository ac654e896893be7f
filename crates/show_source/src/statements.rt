//! Prints guards and statements.
use crate::printer::Printer;
use abs_tree::{Stmt, Target, Test};

impl Printer<'_, '_> {
    /// The tests of a guard, each after a space.
    fn tests(&mut self, tests: &Vec<Test>) {
        for test in tests.iter() {
            self.push(" ");
            self.at(test.place);
            self.push("(");
            self.expr(&test.value);
            self.push(if test.asks { ")?" } else { ")" });
        }
    }

    /// A statement: its place, its word and index, and its parts between parentheses where it can have some.
    #[cycle(printed_statements)]
    fn stmt(&mut self, stmt: &Stmt) {
        self.at(stmt.place());
        self.word(stmt);
        if matches!(stmt, Stmt::Skip { .. } | Stmt::Suspend { .. }) {
            return;
        }
        self.push("(");
        self.inside(stmt);
        self.push(")")
    }

    /// The word of a statement, and its index; a block has none.
    fn word(&mut self, stmt: &Stmt) {
        let (word, index) = match stmt {
            Stmt::Block(..) => return self.push("block"),
            Stmt::Skip { index, .. } => ("skip#", *index),
            Stmt::Suspend { index, .. } => ("suspend#", *index),
            Stmt::Await { index, .. } => ("await#", *index),
            Stmt::Return { index, .. } => ("return#", *index),
            Stmt::Print { index, .. } => ("println#", *index),
            Stmt::If { index, .. } => ("if#", *index),
            Stmt::While { index, .. } => ("while#", *index),
            Stmt::Declare { index, .. } => ("declare#", *index),
            Stmt::Assign { index, .. } => ("assign#", *index),
            Stmt::Do { index, .. } => ("do#", *index),
        };
        self.numbered(word, index);
    }

    /// The parts of a statement; a block ends with a space.
    #[cycle(printed_statements)]
    fn inside(&mut self, stmt: &Stmt) {
        match stmt {
            Stmt::Block(_, block) => {
                self.stmts(block);
                self.push(" ")
            }
            Stmt::If {
                condition,
                first,
                second,
                ..
            } => {
                self.expr(condition);
                self.push(" then");
                self.stmts(first);
                self.push(" else");
                match second {
                    Some(second) => self.stmts(second),
                    None => self.push(" none"),
                }
            }
            Stmt::While {
                condition,
                body,
                ..
            } => {
                self.expr(condition);
                self.push(" do");
                self.stmts(body)
            }
            other => self.simple(other),
        }
    }

    /// The parts of a statement that holds no others.
    fn simple(&mut self, stmt: &Stmt) {
        match stmt {
            Stmt::Await { guard, .. } => self.tests(guard),
            Stmt::Return { value, .. } | Stmt::Print { value, .. } => self.expr(value),
            Stmt::Declare {
                type_of,
                variable_place,
                variable,
                initial,
                ..
            } => {
                self.type_term(type_of);
                self.push(" ");
                self.at(*variable_place);
                self.variable(*variable);
                self.push(" ");
                match initial {
                    Some(side) => self.side(side),
                    None => self.push("none"),
                }
            }
            Stmt::Assign { target, side, .. } => {
                self.target(*target);
                self.push(" ");
                self.side(side)
            }
            Stmt::Do { side, .. } => self.side(side),
            _ => {}
        }
    }

    /// Where a value goes.
    fn target(&mut self, target: Target) {
        match target {
            Target::Variable(place, variable) => {
                self.at(place);
                self.variable(variable)
            }
            Target::Field {
                place,
                name_place,
                name,
            } => {
                self.at(place);
                self.field(name_place, name)
            }
        }
    }

    /// Statements, each after a space.
    #[cycle(printed_statements)]
    pub(crate) fn stmts(&mut self, stmts: &Vec<Stmt>) {
        for stmt in stmts.iter() {
            self.push(" ");
            self.stmt(stmt);
        }
    }
}
