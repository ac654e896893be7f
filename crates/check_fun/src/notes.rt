//! What a checker notes: its first offence, by place and code.
ghost use Rattle.std.specs.Prelude.{Option, Some};
ghost use Rattle.abs_tree.specs.Offences.{offence_if};
ghost use Rattle.abs_types.specs.Mistyped.{unfit, untyped};
ghost use Rattle.abs_types.specs.PlainTypes.{PlainType};
ghost use Rattle.check_fun.specs.Contexts.{Context, Finds, Found, Knows, Noted, Stays};

use crate::checker::Checker;
use abs_tree::{Code, Offence, Place};
use abs_types::TypeIndex;

#[tactic(auto, using(crate::proofs::GrowingLemmas::stays_grown))]
impl Checker<'_> {
    /// Notes an offence with a code at a place, if there is reason for it.
    pub fn note_if(&mut self, offends: bool, code: Code, place: Place)
        ensures noted { Noted self.old.first (offence_if offends code place) self.new.first }
        ensures stays { Stays self.old self.new }
    {
        if offends {
            Offence { place, code }.note(&mut self.first);
        }
    }

    /// Notes an expression at a place, if all its parts have types and it has none.
    pub fn note_untyped(&mut self, parts_typed: bool, found: Option<TypeIndex>, place: Place)
        ensures noted { (type : Option PlainType) → Finds self.old found type
            → Noted self.old.first (untyped parts_typed type place) self.new.first }
        ensures stays { Stays self.old self.new }
    {
        self.note_if(parts_typed && found.is_none(), Code::T1, place);
    }

    /// Notes an expression at a place, if it has a type that does not fit the type that is asked for.
    pub fn note_unfit(&mut self, found: Option<TypeIndex>, asked: TypeIndex, place: Place)
        requires found { Found self.old found }
        requires asked { Found self.old (Some asked) }
        ensures noted { (context : Context) (given : Option PlainType) (wanted : PlainType) → Knows self.old context
            → Finds self.old found given → Finds self.old (Some asked) (Some wanted)
            → Noted self.old.first (unfit context.declarations given wanted place) self.new.first }
        ensures stays { Stays self.old self.new }
    {
        match found {
            Some(found) => {
                let fits = self.table.fits(found, asked);
                self.note_if(!fits, Code::T1, place);
            }
            None => {}
        }
    }
}
