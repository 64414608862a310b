//! Laws of graphs of ERTL without the operations that nothing needs, for the pass that drops dead operations: it gives such graphs. The
//! functions do nothing: their contracts are the laws, which are proved.
#![tactic(auto)]

ghost use Rattle.pruned_graphs.specs.Laws.{PruningPreserves, PruningRespectsConvention, PruningForms, PruningKeepsLabelled, PruningKeepsOutline, PruningIsNoLonger, PruningNeedsNoMore, NoneIsDeadAfter, PruningKeepsGraph, PruningLeavesNoneDead, PruningKeepsCarry, LiveWasStronglyLive};
ghost use Rattle.pruned_graphs.specs.Searches.{TurnsStaySound, ClosedMarksAreFound, SelectedIsPruned};

/// Without its vain operations, a program that respects the calling convention does the same on every script, within whatever bounds.
pub fn pruning_preserves()
    ensures { PruningPreserves }
{}

/// It still respects the calling convention, and the carry is live in front of no node where it was in front of none.
pub fn pruning_respects_the_convention()
    ensures convention { PruningRespectsConvention }
    ensures carry { PruningKeepsCarry }
{}

/// It is well formed and soundly labelled where it was, and its functions have the same labels and calls.
pub fn pruning_keeps_conditions()
    ensures formed { PruningForms }
    ensures labelled { PruningKeepsLabelled }
    ensures same { PruningKeepsOutline }
{}

/// Neither its length nor the need of registers of a function is raised.
pub fn pruning_raises_nothing()
    ensures length { PruningIsNoLonger }
    ensures need { PruningNeedsNoMore }
{}

/// The same of one graph.
pub fn pruning_keeps_a_graph()
    ensures { PruningKeepsGraph }
{}

/// No operation is dead in a graph without its vain operations, nor in any function of such a program.
pub fn pruning_leaves_none_dead()
    ensures graph { PruningLeavesNoneDead }
    ensures program { NoneIsDeadAfter }
{}

/// What is live in such a graph is what was strongly live.
pub fn live_was_strongly_live()
    ensures { LiveWasStronglyLive }
{}

/// Marks of needed operations stay so where each operation is marked that writes what is live after it by the marks so far; where none is
/// left to be marked, the needed operations are marked and no others. What passes a test of these is the graph without its vain
/// operations.
pub fn needed_operations_are_found()
    ensures sound { TurnsStaySound }
    ensures exact { ClosedMarksAreFound }
    ensures selected { SelectedIsPruned }
{}
