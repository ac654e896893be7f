//! Laws of the definitions, which hold whatever the code does. By numbers that never fall along a link, `get`s from
//! which no chain comes back are known without a search, and a search need not leave its component.
ghost use Rattle.std.specs.Prelude.{◌≡◌, ◌≤◌, ℕ, List, Contains, filter};
ghost use Rattle.abs_tree.specs.Syntax.{ProgramTree};
ghost use Rattle.circularity_test.specs.Numbers.{AreRising, Climbs, IsLevel, Numbers, RiseByCalls, is_level, entry_number};
ghost use Rattle.contract_terms.specs.Chains.{ClosesAt, IsCircular, IsReport};
ghost use Rattle.contract_terms.specs.PairLinks.{Continues};
ghost use Rattle.contract_terms.specs.declared.pair.Mode.TheVariants.{Get, Await};
ghost use Rattle.contract_terms.specs.declared.pair.Pair.{Pair};
ghost use Rattle.name_bounding.specs.declared.kind.Sign.{Sign};

/// Numbers that no part of a link lets fall. No closed chain leads back to a pair whose target has a greater number
/// than where it waits, and a `get` of which this is so is in no circular chain. Along a closed chain all numbers are
/// that of the cog where it begins. So a report of the pairs whose two numbers are the same is the report of all.
pub fn rising_numbers_rule_chains_out()
    ensures no_way_back { (program : ProgramTree) (pairs : List Pair) (numbers : Numbers)
        → AreRising program pairs numbers → (first : Pair) → Climbs numbers first → (chain : List Pair)
        → ClosesAt program pairs first chain → ⊥ }
    ensures in_no_chain { (program : ProgramTree) (pairs : List Pair) (numbers : Numbers)
        → AreRising program pairs numbers → (get : Pair) → get.mode ≡ Get → Climbs numbers get
        → (chain : List Pair) → IsCircular program pairs chain → Contains chain get → ⊥ }
    ensures level { (program : ProgramTree) (pairs : List Pair) (numbers : Numbers)
        → AreRising program pairs numbers → (first : Pair) (chain : List Pair)
        → ClosesAt program pairs first chain → (pair : Pair) → Contains chain pair
        → IsLevel numbers (entry_number numbers first) pair }
    ensures report { (program : ProgramTree) (pairs : List Pair) (numbers : Numbers)
        → AreRising program pairs numbers → (chains : List (List Pair))
        → IsReport program (filter (is_level numbers) pairs) chains → IsReport program pairs chains }
{}

/// Numbers that do not fall step by step along calls on `this` do not fall where what runs continues a target.
pub fn numbers_rise_by_calls()
    ensures { (program : ProgramTree) (pairs : List Pair) (numbers : Numbers) (method_number : Sign → ℕ → ℕ → ℕ)
        → RiseByCalls program pairs numbers method_number → (one next : Pair) → Contains pairs one
        → Contains pairs next → next.mode ≡ Await → Continues program one next
        → numbers.target one.target ≤ numbers.running next.source }
{}
