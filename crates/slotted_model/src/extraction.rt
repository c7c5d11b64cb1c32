//! Extraction: in a rebuilt graph, a tree of least cost for each id.

ghost use Rattle.slotted_theory.specs.Nameless.{DTerm};
ghost use Rattle.slotted_model.specs.State.{Row};
ghost use Rattle.slotted_model.specs.ExtractionClaims.{ExtractionLaws, PreferenceLaws};

/// Proves the laws of tables of least costs, and of the trees that they give, for costs of any type.
///
/// A table is made by a queue of rows: the least row enters for its class, and after it the rows over this class are
/// added.
///
/// If entries entered least first, until no row could enter, the table has each live class, and no row costs less
/// than its class.
///
/// What such a table extracts for an id is a tree that is looked up as what `find` maps the id to. The tree costs
/// what the table says. No tree that is looked up so costs less, and no term of an id of that class does.
///
/// If no open symmetry affects the class, no tree that is derivably equal to the id's term costs less, even if it was
/// never added.
pub fn extraction_laws_hold<C>()
    ensures { ExtractionLaws C }
{}

/// What a caller brings to an extraction beside its costs: of which nodes these speak, and which of two rows comes
/// first. Any relations serve.
pub trait Preferences {
    ghost is_known: { DTerm → Type 0 };

    ghost comes_first: { Row → Row → Type 0 };
}

/// Proves the laws of what a caller prefers.
///
/// Costs need to be lawful on known nodes alone, if each filed e-node is known, and with it all that differ from it
/// in names and children alone.
///
/// Let each entry come first among the rows of its class that could enter at no higher cost over cheaper children.
/// Then it comes first in the whole table.
pub fn preference_laws_hold<C, P: Preferences>()
    ensures { PreferenceLaws C P.is_known P.comes_first }
{}
