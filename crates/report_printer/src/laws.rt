//! Laws of the definitions, which hold whatever the code does.
ghost use Rattle.std.specs.Prelude.{◌≡◌, ◌↔◌, codes};
ghost use Rattle.contract_terms.specs.PairLinks.{IsHeld};
ghost use Rattle.contract_terms.specs.declared.pair.Pair.{Pair};
ghost use Rattle.report_printer.specs.ReportTexts.{link_words};

/// A report says `cog held` exactly of the links that are held, and of any other one that it goes on.
pub fn links_are_told()
    ensures held { (one other : Pair) → (link_words one other ≡ codes "cog held") ↔ IsHeld one other }
    ensures continues { (one other : Pair) → (link_words one other ≡ codes "goes on") ↔ (IsHeld one other → ⊥) }
{}
