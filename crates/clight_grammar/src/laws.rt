//! Laws of the recogniser.

ghost use Rattle.std.specs.Prelude.{◌≡◌, List, true, false, Some, None};
ghost use Rattle.clight_source.specs.Trees.{Item};
ghost use Rattle.clight_source.specs.declared.symbol.Terminal.{Terminal};
ghost use Rattle.clight_nodes.specs.Code.Postfix.{out_items};
ghost use Rattle.clight_nodes.specs.Code.Recogniser as r;
ghost use Rattle.clight_grammar.specs.Code.Machine as s;
ghost use Rattle.clight_grammar.specs.Code.Flat.{flat_state};

/// The recogniser does what the machine over trees does: it refuses the same terminals, and where the text may end it has the nodes
/// of that machine's items.
pub fn recognises()
    ensures steps { (x : s.State) (t : Terminal) → flat_state (s.step x t) ≡ r.step (flat_state x) t }
    ensures runs { (l : List Terminal) → flat_state (s.run s.start l) ≡ r.run r.start l }
    ensures refused { (l : List Terminal) → s.refused (s.run s.start l).mode ≡ r.is_refused (r.run r.start l).mode }
    ensures ended { (l : List Terminal) → r.may_end (r.run r.start l).mode ≡ true → (items : List Item) × (s.ends (s.run s.start l) ≡ Some items) × ((r.run r.start l).nodes ≡ out_items items) }
    ensures not_ended { (l : List Terminal) → r.may_end (r.run r.start l).mode ≡ false → s.ends (s.run s.start l) ≡ None }
{}
