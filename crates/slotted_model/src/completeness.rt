//! Completeness: in a rebuilt graph, ids of derivably equal terms are found equal.

ghost use Rattle.slotted_model.specs.CompletenessClaims.{CompletenessLaws};

/// Proves the laws of values, of closed graphs and of look-ups in a rebuilt graph.
///
/// A tree has a value from the bottom up, by the look-up of its e-nodes. If all its parts are looked up, the value is
/// an id.
///
/// In a closed graph, the term of an id has the value of what `find` maps the id to. So have all trees that are
/// derivably equal to the term. Hence ids of equal terms are found equal, unless both are of marked classes. The
/// classes that an open symmetry affects are marked.
///
/// A rebuilt graph is closed. Without open symmetries, ids are found equal if and only if their terms are derivably
/// equal. A tree is looked up if and only if it is derivably equal to the term of an id, even if it was never added.
///
/// So graphs of the same terms agree, whatever e-nodes their classes were made with, whatever the order of a session,
/// and whichever classes were kept.
pub fn completeness_laws_hold()
    ensures { CompletenessLaws }
{}
