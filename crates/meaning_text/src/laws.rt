//! What the text of a meaning says. The function does nothing, and ensures a law.
ghost use Rattle.meaning_text.specs.Laws.{EachHasItsCost};

/// In the text of a meaning each event stands behind those before it, with the cost of the start and of the labels before it.
#[tactic(auto, using(crate::proofs::Costing::each_has_its_cost))]
pub fn each_has_its_cost()
    ensures { EachHasItsCost }
{}
