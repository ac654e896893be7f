//! Links from one pair to another.
ghost use Rattle.std.specs.Prelude.{◌≡◌, ◌↔◌, true, Contains};
ghost use Rattle.abs_program.specs.NamedViews.{program_tree};
ghost use Rattle.abs_tree.specs.Names.{name_of};
ghost use Rattle.contract_terms.specs.PairLinks.{Continues, IsHeld, IsReachedByCalls};
ghost use Rattle.circularity_test.specs.Linking.{Leads, LeadsIn};

use abs_tree::Symbol;
use contract_terms::{Contracted, Mode, Pair};
use name_bounding::Kind;

/// How a pair is linked to another one.
#[derive(Clone, Copy, Debug, PartialEq, Eq)]
pub struct Link {
    /// The second pair's source is the first one's target, or is reached from there by calls on `this`.
    pub continues: bool,
    /// The second pair is a `get` in the cog in which the first one's target is.
    pub held: bool,
}

/// How a pair is linked to another one. It takes no memory.
pub fn linked(program: &Contracted<'_>, left: &Pair, right: &Pair) -> Link
    ensures continues { (result.continues ≡ true)
        ↔ Continues (program_tree program.now.checked.named) left.now right.now }
    ensures held { (result.held ≡ true) ↔ IsHeld left.now right.now }
{
    Link {
        continues: is_reached(program, &left.target, &right.source),
        held: right.mode == Mode::Get && right.source.cog() == left.target.cog(),
    }
}

/// Whether a kind is reached from another one by calls on `this`.
pub(crate) fn is_reached(program: &Contracted<'_>, from: &Kind, to: &Kind) -> bool
    ensures { (result ≡ true) ↔ IsReachedByCalls (program_tree program.now.checked.named) from.now to.now }
{
    if from == to {
        return true;
    }
    match (from, to) {
        (Kind::Method(sign, one), Kind::Method(other_sign, other)) => {
            sign == other_sign && leads(program, sign.place, *one, *other)
        }
        _ => false,
    }
}

/// Whether calls on `this` lead from one method to another in a class of which objects are made at a place.
fn leads(program: &Contracted<'_>, place: u32, one: Symbol, other: Symbol) -> bool
    ensures { (result ≡ true) ↔ Leads (program_tree program.now.checked.named) place one other }
{
    let classes = program.terms().classes_made(place);
    for class in classes {
        if leads_in(program, *class, one, other) {
            return true;
        }
    }
    false
}

/// Whether calls on `this` lead from one method of a class to another.
fn leads_in(program: &Contracted<'_>, class: Symbol, one: Symbol, other: Symbol) -> bool
    ensures { (result ≡ true) ↔ LeadsIn (program_tree program.now.checked.named)
        (name_of program.now.checked.named.symbols class) one other }
{
    let named = program.checked().named();
    let Some(taking) = named.class(class) else {
        return false;
    };
    let class = taking.declaration;
    match (named.method(class, one), named.method(class, other)) {
        (Some(member), Some(reached)) => program.terms().is_reached(class, member, reached),
        _ => false,
    }
}
