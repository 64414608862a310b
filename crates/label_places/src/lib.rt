//! Where the annotations of a source stand. The function does nothing, and ensures a law.
#![tactic(auto)]

ghost use Rattle.label_places.specs.Laws.{PlacesAscend};

/// The tokens of an accepted source's code stand in its typed tree in the order of the text, so that the
/// annotations of its labels do as well.
pub fn places_ascend()
    ensures { PlacesAscend }
{}
