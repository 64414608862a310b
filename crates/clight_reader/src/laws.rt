//! What the definitions of spelling and of faults say of one another.

ghost use Rattle.std.specs.Prelude.{◌≡◌, ◌⊎◌, ℕ, List};
ghost use Rattle.clight_source.specs.declared.symbol.Terminal.{Terminal};
ghost use Rattle.clight_source.specs.Trees.{Item};
ghost use Rattle.clight_source.specs.Spelling.{Spells};
ghost use Rattle.clight_source.specs.Depth.{IsShallow, IsFirstDeep};
ghost use Rattle.clight_grammar.specs.Faults.{FaultAt};

/// Terminal symbols spell at most one list of items.
pub fn one_program()
    ensures { (l : List Terminal) → (items others : List Item) → Spells items l → Spells others l → items ≡ others }
{}

/// Terminal symbols spell items or have a fault, not both, and the fault has one place.
pub fn one_fault()
    ensures either { (l : List Terminal) → ((items : List Item) × Spells items l) ⊎ ((i : ℕ) × FaultAt l i) }
    ensures not_both { (l : List Terminal) → (items : List Item) → (i : ℕ) → Spells items l → FaultAt l i → ⊥ }
    ensures one_place { (l : List Terminal) → (i j : ℕ) → FaultAt l i → FaultAt l j → i ≡ j }
{}

/// In a program no node is too deep, or one of those that are is the first, not both, and it has one place.
pub fn one_nesting()
    ensures either { (items : List Item) → IsShallow items ⊎ ((at : ℕ) × IsFirstDeep items at) }
    ensures not_both { (items : List Item) → (at : ℕ) → IsShallow items → IsFirstDeep items at → ⊥ }
    ensures one_place { (items : List Item) → (i j : ℕ) → IsFirstDeep items i → IsFirstDeep items j → i ≡ j }
{}
