//! Laws of annotated texts. The function does nothing, and ensures a law.
ghost use Rattle.annotate.specs.Laws.{CostsOfRuns};

/// The numbers of an annotated text are the costs that it was given: of a run it says what the start
/// and the labels that it passes cost.
pub fn costs_of_runs()
    ensures { CostsOfRuns }
{}
