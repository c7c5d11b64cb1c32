//! Substitution: each topmost part that is one term becomes another, and nothing is captured.

ghost use Rattle.slotted_model_rules.specs.ReplacedIdsClaims.{ReplacedIdLaws};
ghost use Rattle.slotted_model_rules.specs.SubstitutionClaims.{SubstitutionLaws};

/// Proves the laws of substitution.
///
/// Substitution compares from the top, before it looks inside, and never looks into what it put in. If nothing is to
/// be replaced, nothing changes. Substitution moves with the names of all three terms.
///
/// Each free name of what is put in stays free, whatever binders it comes to stand under.
///
/// On terms with names, substitution replaces as it is written, once the binders have names that are free in neither
/// of the two terms.
pub fn substitution_laws_hold()
    ensures { SubstitutionLaws }
{}

/// Proves the laws of substitution over ids.
///
/// What stands in the term of an id is the id itself, or is of an older class and has no name that the id lacks. So
/// an id of an older class, or one that lacks a name, is left alone without a look at it.
///
/// The id itself is replaced. Of any other id the syntactic e-node is searched: over what comes of its children it
/// stands for what comes of the id.
///
/// Under binders with names of their own, children need no other names.
pub fn replaced_id_laws_hold()
    ensures { ReplacedIdLaws }
{}
