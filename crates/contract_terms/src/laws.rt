//! Laws of the definitions, which hold whatever the code does.
ghost use Rattle.std.specs.Prelude.{◌≡◌, ◌≤◌, ◌⊎◌, ◌↔◌, ℕ, true, false, List, [], ◌∷◌, ◌++◌, length, slice_get, Some, None, Contains, All};
ghost use Rattle.abs_program.specs.Control.{Point, entry, program_points};
ghost use Rattle.abs_program.specs.Flows.{Slots, IsFlow};
ghost use Rattle.abs_program.specs.Instructions.{effect_of};
ghost use Rattle.abs_program.specs.ProgramBodies.{BodyAt, IsBodyOf};
ghost use Rattle.abs_tree.specs.Syntax.{SourceTree, ProgramTree};
ghost use Rattle.contract_terms.specs.Asks.{Rests, IsClosedFor, IsDerivedIn};
ghost use Rattle.contract_terms.specs.Chains.{steps_of, IsCircular, ClosesAt, IsReport, IsListed};
ghost use Rattle.contract_terms.specs.Derived.{AllHold, IsHandled, MoreThan};
ghost use Rattle.contract_terms.specs.PairLinks.{Continues, IsHeld, IsLinked};
ghost use Rattle.contract_terms.specs.Settled.{settles, assigns, settled, settled_facts, IsSuccessor};
ghost use Rattle.contract_terms.specs.declared.fact.Fact.{Fact};
ghost use Rattle.contract_terms.specs.declared.pair.Mode.TheVariants.{Get, Await};
ghost use Rattle.contract_terms.specs.declared.pair.Pair.{Pair};

use abs_program::facts_follow_in_programs;

/// What is settled follows control, by the indices of the program. What is settled at a successor of a statement was
/// settled at the statement or is settled by it, and the statement does not assign it. At the first statement of a body
/// nothing is settled. Each statement has its settled slots.
pub fn settled_follows_control()
    ensures flow { IsFlow settled }
    ensures after { (program : SourceTree) (index next : ℕ) (point : Point) (before after : Slots)
        → slice_get (program_points program) index ≡ Some point → IsSuccessor point.goes next
        → slice_get (settled_facts program) index ≡ Some before → slice_get (settled_facts program) next ≡ Some after
        → (slot : ℕ) → after slot ≡ true
        → ((before slot ≡ true) ⊎ (settles (effect_of point.statement) slot ≡ true))
        × (assigns (effect_of point.statement) slot ≡ false) }
    ensures starts { (program : SourceTree) (body : BodyAt) (first : ℕ) (there : Slots) → IsBodyOf program body
        → entry body.index body.statements None ≡ Some first → slice_get (settled_facts program) first ≡ Some there
        → (slot : ℕ) → there slot ≡ false }
    ensures count { (program : SourceTree) → length (settled_facts program) ≡ length (program_points program) }
{
    facts_follow_in_programs();
}

/// What is derived. The derived facts have all that rests on them, and a list of derived facts that has all that rests
/// on it has just the derived ones. Where more than so many facts are derived, no list of so many has all that rests on
/// it.
pub fn derived_facts_are_closed()
    ensures closed { (program : ProgramTree) (depth : ℕ) → IsClosedFor program depth (IsDerivedIn program depth) }
    ensures exact { (program : ProgramTree) (depth : ℕ) (facts : List Fact)
        → IsClosedFor program depth (Contains facts) → All (IsDerivedIn program depth) facts
        → (fact : Fact) → Contains facts fact ↔ IsDerivedIn program depth fact }
    ensures many { (program : ProgramTree) (depth count : ℕ) (facts : List Fact) → MoreThan (Rests program depth) count
        → IsClosedFor program depth (Contains facts) → length facts ≤ count → ⊥ }
{}

/// What is asked for in a list of facts is asked for in each list that has them. If what rests on some facts is in a
/// list, and what rests on them and on one fact more is, then what rests on all of these is.
pub fn facts_are_handled_one_by_one()
    ensures kept { (facts more premises : List Fact) → ((fact : Fact) → Contains facts fact → Contains more fact)
        → AllHold (Contains facts) premises → AllHold (Contains more) premises }
    ensures step { (program : ProgramTree) (depth : ℕ) (done : List Fact) (last : Fact) (facts more : List Fact)
        → IsHandled (Rests program depth) done facts
        → ((fact : Fact) → Contains facts fact → Contains more fact)
        → ((before after : List Fact) (fact : Fact) → Rests program depth (before ++ last ∷ after) fact
        → AllHold (Contains (done ++ last ∷ [])) (before ++ last ∷ after) → Contains more fact)
        → IsHandled (Rests program depth) (done ++ last ∷ []) more }
{}

/// Links and circular chains. A link into a `get` is held, and one into an `await` continues. So a list has a circular
/// chain exactly where a closed chain leads back to one of its pairs, and the last link of this is held.
pub fn links_and_chains()
    ensures into_get { (program : ProgramTree) (one other : Pair) → other.mode ≡ Get → IsLinked program one other
        → IsHeld one other }
    ensures into_await { (program : ProgramTree) (one other : Pair) → other.mode ≡ Await → IsLinked program one other
        → Continues program one other }
    ensures turns { (program : ProgramTree) (pairs : List Pair)
        → ((chain : List Pair) × IsCircular program pairs chain)
        ↔ ((first : Pair) × (chain : List Pair) × ClosesAt program pairs first chain) }
{}

/// Reports. Each list of pairs has at most one. It is empty exactly where there is no circular chain. Each chain that
/// it lists is circular and begins with a `get` that no earlier one lists, and each `get` into which a circular chain
/// has a held link is in one that it lists.
pub fn reports_are_exact()
    ensures one { (program : ProgramTree) (pairs : List Pair) (chains others : List (List Pair))
        → IsReport program pairs chains → IsReport program pairs others → chains ≡ others }
    ensures empty { (program : ProgramTree) (pairs : List Pair) (chains : List (List Pair))
        → IsReport program pairs chains
        → (chains ≡ []) ↔ ((chain : List Pair) → IsCircular program pairs chain → ⊥) }
    ensures lists { (program : ProgramTree) (pairs : List Pair) (before after : List (List Pair)) (chain : List Pair)
        → IsReport program pairs (before ++ chain ∷ after) → IsListed program pairs before chain }
    ensures all { (program : ProgramTree) (pairs : List Pair) (chains : List (List Pair)) (chain : List Pair)
        → IsReport program pairs chains → IsCircular program pairs chain
        → (one get : Pair) → Contains (steps_of chain) (one, get) → IsHeld one get
        → (listed : List Pair) × Contains chains listed × Contains listed get }
{}
