//! Laws of costs. The function does nothing, and ensures a law.
ghost use Rattle.block_costs.specs.Sums.{CyclesAddUp};

/// At a stop of a run the cycles are the costs of the start and of the labels that it passed.
pub fn cycles_add_up()
    ensures { CyclesAddUp }
{}
