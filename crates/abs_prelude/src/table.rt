//! The table from which the declarations of the prelude are made.
use crate::code::{Code, DeclarationForm, HeadForm, NamedForm, PlainForm};
use abs_tree::Operator;

/// The codes of the prelude's declarations, a line of its text after the other. Beside a code is its name.
pub const CODES: &[Code] = &[
    // data Unit = Unit;
    Code::Head(HeadForm::Constructor(0), 1, 13, 0), // Unit
    Code::Declaration(DeclarationForm::Data, 1, 6, 0), // Unit
    // data Bool = True | False;
    Code::Head(HeadForm::Constructor(0), 2, 13, 2), // True
    Code::Head(HeadForm::Constructor(0), 2, 20, 3), // False
    Code::Declaration(DeclarationForm::Data, 2, 6, 1), // Bool
    // data List<A> = Nil | Cons(A, List<A>);
    Code::Head(HeadForm::TypeParameter, 3, 11, 5), // A
    Code::Head(HeadForm::Constructor(0), 3, 16, 6), // Nil
    Code::Head(HeadForm::Type(0), 3, 27, 5), // A
    Code::Head(HeadForm::Type(0), 3, 35, 5), // A
    Code::Head(HeadForm::Type(1), 3, 30, 4), // List
    Code::Head(HeadForm::Constructor(2), 3, 22, 7), // Cons
    Code::Declaration(DeclarationForm::Data, 3, 6, 4), // List
    // data Maybe<A> = Nothing | Just(A);
    Code::Head(HeadForm::TypeParameter, 4, 12, 5), // A
    Code::Head(HeadForm::Constructor(0), 4, 17, 9), // Nothing
    Code::Head(HeadForm::Type(0), 4, 32, 5), // A
    Code::Head(HeadForm::Constructor(1), 4, 27, 10), // Just
    Code::Declaration(DeclarationForm::Data, 4, 6, 8), // Maybe
    // data Pair<A, B> = Pair(A, B);
    Code::Head(HeadForm::TypeParameter, 5, 11, 5), // A
    Code::Head(HeadForm::TypeParameter, 5, 14, 12), // B
    Code::Head(HeadForm::Type(0), 5, 24, 5), // A
    Code::Head(HeadForm::Type(0), 5, 27, 12), // B
    Code::Head(HeadForm::Constructor(2), 5, 19, 11), // Pair
    Code::Declaration(DeclarationForm::Data, 5, 6, 11), // Pair
    // def A head<A>(List<A> l) = case l { Cons(x, r) => x; };
    Code::Head(HeadForm::Type(0), 6, 5, 5), // A
    Code::Head(HeadForm::TypeParameter, 6, 12, 5), // A
    Code::Head(HeadForm::Type(0), 6, 20, 5), // A
    Code::Head(HeadForm::Type(1), 6, 15, 4), // List
    Code::Head(HeadForm::Parameter, 6, 23, 14), // l
    Code::Named(NamedForm::Variable, 6, 33, 14), // l
    Code::Named(NamedForm::Binds, 6, 42, 15), // x
    Code::Named(NamedForm::Binds, 6, 45, 16), // r
    Code::Named(NamedForm::Built(2), 6, 37, 7), // Cons
    Code::Named(NamedForm::Variable, 6, 51, 15), // x
    Code::Plain(PlainForm::Branch, 6, 37),
    Code::Plain(PlainForm::Case(1), 6, 28),
    Code::Declaration(DeclarationForm::Function, 6, 7, 13), // head
    // def List<A> tail<A>(List<A> l) = case l { Cons(x, r) => r; };
    Code::Head(HeadForm::Type(0), 7, 10, 5), // A
    Code::Head(HeadForm::Type(1), 7, 5, 4), // List
    Code::Head(HeadForm::TypeParameter, 7, 18, 5), // A
    Code::Head(HeadForm::Type(0), 7, 26, 5), // A
    Code::Head(HeadForm::Type(1), 7, 21, 4), // List
    Code::Head(HeadForm::Parameter, 7, 29, 14), // l
    Code::Named(NamedForm::Variable, 7, 39, 14), // l
    Code::Named(NamedForm::Binds, 7, 48, 15), // x
    Code::Named(NamedForm::Binds, 7, 51, 16), // r
    Code::Named(NamedForm::Built(2), 7, 43, 7), // Cons
    Code::Named(NamedForm::Variable, 7, 57, 16), // r
    Code::Plain(PlainForm::Branch, 7, 43),
    Code::Plain(PlainForm::Case(1), 7, 34),
    Code::Declaration(DeclarationForm::Function, 7, 13, 17), // tail
    // def Bool isEmpty<A>(List<A> l) = case l { Nil => True; Cons(x, r) => False; };
    Code::Head(HeadForm::Type(0), 8, 5, 1), // Bool
    Code::Head(HeadForm::TypeParameter, 8, 18, 5), // A
    Code::Head(HeadForm::Type(0), 8, 26, 5), // A
    Code::Head(HeadForm::Type(1), 8, 21, 4), // List
    Code::Head(HeadForm::Parameter, 8, 29, 14), // l
    Code::Named(NamedForm::Variable, 8, 39, 14), // l
    Code::Named(NamedForm::Built(0), 8, 43, 6), // Nil
    Code::Named(NamedForm::Build(0), 8, 50, 2), // True
    Code::Plain(PlainForm::Branch, 8, 43),
    Code::Named(NamedForm::Binds, 8, 61, 15), // x
    Code::Named(NamedForm::Binds, 8, 64, 16), // r
    Code::Named(NamedForm::Built(2), 8, 56, 7), // Cons
    Code::Named(NamedForm::Build(0), 8, 70, 3), // False
    Code::Plain(PlainForm::Branch, 8, 56),
    Code::Plain(PlainForm::Case(2), 8, 34),
    Code::Declaration(DeclarationForm::Function, 8, 10, 18), // isEmpty
    // def Int length<A>(List<A> l) = case l { Nil => 0; Cons(x, r) => 1 + length(r); };
    Code::Head(HeadForm::Type(0), 9, 5, 19), // Int
    Code::Head(HeadForm::TypeParameter, 9, 16, 5), // A
    Code::Head(HeadForm::Type(0), 9, 24, 5), // A
    Code::Head(HeadForm::Type(1), 9, 19, 4), // List
    Code::Head(HeadForm::Parameter, 9, 27, 14), // l
    Code::Named(NamedForm::Variable, 9, 37, 14), // l
    Code::Named(NamedForm::Built(0), 9, 41, 6), // Nil
    Code::Plain(PlainForm::Number(0), 9, 48),
    Code::Plain(PlainForm::Branch, 9, 41),
    Code::Named(NamedForm::Binds, 9, 56, 15), // x
    Code::Named(NamedForm::Binds, 9, 59, 16), // r
    Code::Named(NamedForm::Built(2), 9, 51, 7), // Cons
    Code::Plain(PlainForm::Number(1), 9, 65),
    Code::Named(NamedForm::Variable, 9, 76, 16), // r
    Code::Named(NamedForm::Apply(1), 9, 69, 20), // length
    Code::Plain(PlainForm::Operators(Operator::Plus), 9, 65),
    Code::Plain(PlainForm::Branch, 9, 51),
    Code::Plain(PlainForm::Case(2), 9, 32),
    Code::Declaration(DeclarationForm::Function, 9, 9, 20), // length
    // def A nth<A>(List<A> l, Int n) = if n == 0 then head(l) else nth(tail(l), n - 1);
    Code::Head(HeadForm::Type(0), 10, 5, 5), // A
    Code::Head(HeadForm::TypeParameter, 10, 11, 5), // A
    Code::Head(HeadForm::Type(0), 10, 19, 5), // A
    Code::Head(HeadForm::Type(1), 10, 14, 4), // List
    Code::Head(HeadForm::Parameter, 10, 22, 14), // l
    Code::Head(HeadForm::Type(0), 10, 25, 19), // Int
    Code::Head(HeadForm::Parameter, 10, 29, 22), // n
    Code::Named(NamedForm::Variable, 10, 37, 22), // n
    Code::Plain(PlainForm::Number(0), 10, 42),
    Code::Plain(PlainForm::Operators(Operator::Equal), 10, 37),
    Code::Named(NamedForm::Variable, 10, 54, 14), // l
    Code::Named(NamedForm::Apply(1), 10, 49, 13), // head
    Code::Named(NamedForm::Variable, 10, 71, 14), // l
    Code::Named(NamedForm::Apply(1), 10, 66, 17), // tail
    Code::Named(NamedForm::Variable, 10, 75, 22), // n
    Code::Plain(PlainForm::Number(1), 10, 79),
    Code::Plain(PlainForm::Operators(Operator::Minus), 10, 75),
    Code::Named(NamedForm::Apply(2), 10, 62, 21), // nth
    Code::Plain(PlainForm::If, 10, 34),
    Code::Declaration(DeclarationForm::Function, 10, 7, 21), // nth
    // def List<A> append<A>(List<A> l, List<A> m) = case l { Nil => m; Cons(x, r) => Cons(x, append(r, m)); };
    Code::Head(HeadForm::Type(0), 11, 10, 5), // A
    Code::Head(HeadForm::Type(1), 11, 5, 4), // List
    Code::Head(HeadForm::TypeParameter, 11, 20, 5), // A
    Code::Head(HeadForm::Type(0), 11, 28, 5), // A
    Code::Head(HeadForm::Type(1), 11, 23, 4), // List
    Code::Head(HeadForm::Parameter, 11, 31, 14), // l
    Code::Head(HeadForm::Type(0), 11, 39, 5), // A
    Code::Head(HeadForm::Type(1), 11, 34, 4), // List
    Code::Head(HeadForm::Parameter, 11, 42, 24), // m
    Code::Named(NamedForm::Variable, 11, 52, 14), // l
    Code::Named(NamedForm::Built(0), 11, 56, 6), // Nil
    Code::Named(NamedForm::Variable, 11, 63, 24), // m
    Code::Plain(PlainForm::Branch, 11, 56),
    Code::Named(NamedForm::Binds, 11, 71, 15), // x
    Code::Named(NamedForm::Binds, 11, 74, 16), // r
    Code::Named(NamedForm::Built(2), 11, 66, 7), // Cons
    Code::Named(NamedForm::Variable, 11, 85, 15), // x
    Code::Named(NamedForm::Variable, 11, 95, 16), // r
    Code::Named(NamedForm::Variable, 11, 98, 24), // m
    Code::Named(NamedForm::Apply(2), 11, 88, 23), // append
    Code::Named(NamedForm::Build(2), 11, 80, 7), // Cons
    Code::Plain(PlainForm::Branch, 11, 66),
    Code::Plain(PlainForm::Case(2), 11, 47),
    Code::Declaration(DeclarationForm::Function, 11, 13, 23), // append
    // def A fst<A, B>(Pair<A, B> p) = case p { Pair(a, b) => a; };
    Code::Head(HeadForm::Type(0), 12, 5, 5), // A
    Code::Head(HeadForm::TypeParameter, 12, 11, 5), // A
    Code::Head(HeadForm::TypeParameter, 12, 14, 12), // B
    Code::Head(HeadForm::Type(0), 12, 22, 5), // A
    Code::Head(HeadForm::Type(0), 12, 25, 12), // B
    Code::Head(HeadForm::Type(2), 12, 17, 11), // Pair
    Code::Head(HeadForm::Parameter, 12, 28, 26), // p
    Code::Named(NamedForm::Variable, 12, 38, 26), // p
    Code::Named(NamedForm::Binds, 12, 47, 27), // a
    Code::Named(NamedForm::Binds, 12, 50, 28), // b
    Code::Named(NamedForm::Built(2), 12, 42, 11), // Pair
    Code::Named(NamedForm::Variable, 12, 56, 27), // a
    Code::Plain(PlainForm::Branch, 12, 42),
    Code::Plain(PlainForm::Case(1), 12, 33),
    Code::Declaration(DeclarationForm::Function, 12, 7, 25), // fst
    // def B snd<A, B>(Pair<A, B> p) = case p { Pair(a, b) => b; };
    Code::Head(HeadForm::Type(0), 13, 5, 12), // B
    Code::Head(HeadForm::TypeParameter, 13, 11, 5), // A
    Code::Head(HeadForm::TypeParameter, 13, 14, 12), // B
    Code::Head(HeadForm::Type(0), 13, 22, 5), // A
    Code::Head(HeadForm::Type(0), 13, 25, 12), // B
    Code::Head(HeadForm::Type(2), 13, 17, 11), // Pair
    Code::Head(HeadForm::Parameter, 13, 28, 26), // p
    Code::Named(NamedForm::Variable, 13, 38, 26), // p
    Code::Named(NamedForm::Binds, 13, 47, 27), // a
    Code::Named(NamedForm::Binds, 13, 50, 28), // b
    Code::Named(NamedForm::Built(2), 13, 42, 11), // Pair
    Code::Named(NamedForm::Variable, 13, 56, 28), // b
    Code::Plain(PlainForm::Branch, 13, 42),
    Code::Plain(PlainForm::Case(1), 13, 33),
    Code::Declaration(DeclarationForm::Function, 13, 7, 29), // snd
    // def A fromJust<A>(Maybe<A> m) = case m { Just(x) => x; };
    Code::Head(HeadForm::Type(0), 14, 5, 5), // A
    Code::Head(HeadForm::TypeParameter, 14, 16, 5), // A
    Code::Head(HeadForm::Type(0), 14, 25, 5), // A
    Code::Head(HeadForm::Type(1), 14, 19, 8), // Maybe
    Code::Head(HeadForm::Parameter, 14, 28, 24), // m
    Code::Named(NamedForm::Variable, 14, 38, 24), // m
    Code::Named(NamedForm::Binds, 14, 47, 15), // x
    Code::Named(NamedForm::Built(1), 14, 42, 10), // Just
    Code::Named(NamedForm::Variable, 14, 53, 15), // x
    Code::Plain(PlainForm::Branch, 14, 42),
    Code::Plain(PlainForm::Case(1), 14, 33),
    Code::Declaration(DeclarationForm::Function, 14, 7, 30), // fromJust
];
