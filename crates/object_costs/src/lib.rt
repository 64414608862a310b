//! The costs of the objects of assembly programs. Each function does nothing, and ensures a law.
#![tactic(auto)]

ghost use Rattle.object_costs.specs.CostLists.{CostsOfObject};
ghost use Rattle.object_costs.specs.Costs.{ObjectsHaveCosts};
ghost use Rattle.object_costs.specs.Runs.{ObjectsKeepToSources, ObjectsTakeTheirCosts};

/// The object of a selection whose ways have ends has costs, in its relaxed layout.
pub fn objects_have_costs()
    ensures { ObjectsHaveCosts }
{}

/// Its runs follow those of the program, their returns land, and at each stop it has taken the cycles that its events cost.
pub fn objects_take_their_costs()
    ensures { ObjectsTakeTheirCosts }
{}

/// Where the program preserves a source, whatever its faults are, the object keeps to it: it makes exactly the events that the source
/// tells, and has taken the cycles that they cost at each stop.
pub fn objects_keep_to_sources<Fault>()
    ensures { ObjectsKeepToSources Fault }
{}

/// The costs of the object are a number for the start and one for each label, which is at least 1; all fit a `u32`.
pub fn costs_of_object()
    ensures { CostsOfObject }
{}
