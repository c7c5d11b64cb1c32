//! Rest: what look-ups answer in a rebuilt graph, and how rebuilding gets there.

ghost use Rattle.slotted_model.specs.RestClaims.{RestLaws};

/// Proves the laws of rows, listed symmetries, unions and rebuilding.
///
/// In a rebuilt graph the e-node of each class is looked up, under all names, as an id of that class with the names
/// that `find` keeps. If no listed symmetry of the class is open, the answer is what `find` maps the class to. The
/// same holds of the sides of each asserted equation.
///
/// Links, redundant slots, listed symmetries, unions and turns of rebuilding keep a graph sane. They keep equal what
/// was found equal, and lose nothing that the graph represents.
///
/// Rebuilding ends, after no more turns than there are rows, times one more than the size falls by. So new classes
/// and assertions lead from one rebuilt graph to another.
pub fn rest_laws_hold()
    ensures { RestLaws }
{}
