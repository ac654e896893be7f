//! Prints expressions and right sides.
use crate::printer::Printer;
use abs_tree::{Branch, Expr, Operand, RightSide, Symbol};

impl Printer<'_, '_> {
    /// An expression: its place, what names its form, and its parts between brackets.
    #[cycle(printed_expressions)]
    pub(crate) fn expr(&mut self, expr: &Expr) {
        self.at(expr.place());
        self.form(expr);
        self.parts(expr);
        self.push(closing(expr))
    }

    /// What names the form of an expression, and the bracket that opens its parts; a leaf has no parts.
    fn form(&mut self, expr: &Expr) {
        match expr {
            Expr::Prefixed { prefix, .. } => self.prefix(*prefix),
            Expr::OwnCall { method, .. } => self.name_between("this.", *method, "("),
            Expr::Apply { function, .. } => self.name_between("", *function, "("),
            Expr::Build { constructor, .. } => self.name_between("", *constructor, "("),
            Expr::Field {
                name_place,
                name,
                ..
            } => self.field(*name_place, *name),
            Expr::Number(_, number) => self.number(*number),
            Expr::Text(_, literal) => self.literal(literal),
            Expr::Variable(_, variable) => self.variable(*variable),
            other => self.push(opening(other)),
        }
    }

    /// The parts of an expression.
    #[cycle(printed_expressions)]
    fn parts(&mut self, expr: &Expr) {
        match expr {
            Expr::Let {
                type_of,
                variable_place,
                variable,
                value,
                body,
                ..
            } => {
                self.type_term(type_of);
                self.push(" ");
                self.at(*variable_place);
                self.variable(*variable);
                self.after_space(value);
                self.after_space(body)
            }
            Expr::If {
                condition,
                first,
                second,
                ..
            } => {
                self.expr(condition);
                self.after_space(first);
                self.after_space(second)
            }
            other => self.listed(other),
        }
    }

    /// The parts of an expression that holds an operand, operators, branches or arguments; a leaf has no parts.
    #[cycle(printed_expressions)]
    fn listed(&mut self, expr: &Expr) {
        match expr {
            Expr::Operators {
                first,
                operands,
                ..
            } => {
                self.expr(first);
                self.operands(operands)
            }
            Expr::Case {
                subject,
                branches,
                ..
            } => {
                self.expr(subject);
                self.branches(branches)
            }
            Expr::Prefixed { operand, .. } => self.expr(operand),
            Expr::OwnCall { arguments, .. } => self.exprs(arguments),
            Expr::Apply { arguments, .. } | Expr::Build { arguments, .. } => self.exprs(arguments),
            _ => {}
        }
    }

    /// An expression after a space.
    #[cycle(printed_expressions)]
    fn after_space(&mut self, expr: &Expr) {
        self.push(" ");
        self.expr(expr)
    }

    /// Expressions, each after a space.
    #[cycle(printed_expressions)]
    fn exprs(&mut self, exprs: &Vec<Expr>) {
        for expr in exprs.iter() {
            self.after_space(expr);
        }
    }

    /// Operators, each between spaces, with their right operands.
    #[cycle(printed_expressions)]
    fn operands(&mut self, operands: &Vec<Operand>) {
        for operand in operands.iter() {
            self.operator(operand.operator);
            self.expr(&operand.right);
        }
    }

    /// Branches, each after a bar.
    #[cycle(printed_expressions)]
    fn branches(&mut self, branches: &Vec<Branch>) {
        for branch in branches.iter() {
            self.push(" | ");
            self.pattern(&branch.pattern);
            self.push(" => ");
            self.expr(&branch.value);
        }
    }

    /// A right side: its place, its form, and its parts between parentheses.
    pub(crate) fn side(&mut self, side: &RightSide) {
        self.at(side.place());
        match side {
            RightSide::New {
                mode,
                class_place,
                class,
                arguments,
                ..
            } => {
                self.mode(*mode);
                self.at(*class_place);
                self.name_between("", *class, "(");
                self.exprs(arguments);
            }
            RightSide::Value(_, value) => {
                self.push("value(");
                self.expr(value);
            }
            RightSide::Get {
                get_place,
                future,
                ..
            } => {
                self.push("get(");
                self.expr(future);
                self.push(" ");
                self.word_at(*get_place, "get");
            }
            RightSide::Send {
                method,
                operands,
                ..
            } => self.called("send(", *method, operands),
            RightSide::Call {
                method,
                operands,
                slot,
                ..
            } => {
                self.called("call(", *method, operands);
                self.into_slot(*slot);
            }
        }
        self.push(")")
    }

    /// What names the form of a call, the receiver, which is the first operand, the method, and the arguments.
    fn called(&mut self, form: &str, method: Symbol, operands: &Vec<Expr>) {
        self.push(form);
        let mut operands = operands.iter();
        if let Some(receiver) = operands.next() {
            self.expr(receiver);
        }
        self.name_between(" ", method, "");
        for argument in operands {
            self.after_space(argument);
        }
    }
}

/// The word of an expression that is named by a word alone, and the bracket that opens its parts.
fn opening(expr: &Expr) -> &'static str {
    match expr {
        Expr::Let { .. } => "let(",
        Expr::If { .. } => "if(",
        Expr::Operators { .. } => "[",
        Expr::Case { .. } => "case(",
        Expr::Null(_) => "null",
        Expr::Destiny(_) => "destiny",
        Expr::This(_) => "this",
        _ => "",
    }
}

/// The bracket that closes the parts of an expression.
fn closing(expr: &Expr) -> &'static str {
    match expr {
        Expr::Operators { .. } | Expr::Prefixed { .. } => "]",
        Expr::Let { .. }
        | Expr::If { .. }
        | Expr::Case { .. }
        | Expr::OwnCall { .. }
        | Expr::Apply { .. }
        | Expr::Build { .. } => ")",
        _ => "",
    }
}
