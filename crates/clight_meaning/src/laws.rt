//! What the meaning of programs says of itself.
ghost use Rattle.std.specs.Prelude.{◌≡◌, ℕ, suc, List, [], Some, slice_get};
ghost use Rattle.cerco_base.specs.Events.{Stopped};
ghost use Rattle.cerco_traces.specs.Preservation.{Stops};
ghost use Rattle.cerco_base.specs.declared.events.Label.{Label};
ghost use Rattle.clight_syntax.specs.TypedTrees.{Function, TypedProgram};
ghost use Rattle.clight_meaning.specs.Budgets.{Extends};
ghost use Rattle.clight_meaning.specs.Meaning.{source};

/// A run that may pass no label tells nothing: the label of `main` is due.
#[tactic(auto, using(crate::proofs::Opening::no_budget))]
pub fn no_budget()
    ensures { (p : TypedProgram Label) → (script : List ℕ) → (f : Function Label) → slice_get p.functions p.main ≡ Some f → source p script 0 ≡ Stops [] Stopped }
{}

/// A run that may pass one more label tells the same, and more behind it where the shorter one stopped.
#[tactic(auto, using(crate::proofs::Growing::longer))]
pub fn longer_run()
    ensures { (p : TypedProgram Label) → (script : List ℕ) → (n : ℕ) → Extends (source p script n) (source p script (suc n)) }
{}
