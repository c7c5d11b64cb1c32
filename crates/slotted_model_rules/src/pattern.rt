//! Patterns: what they are looked up as, and the terms that are instances of them.

ghost use Rattle.slotted_model_rules.specs.PatternClaims.{PatternLaws};
ghost use Rattle.slotted_model_rules.specs.RepresentingClaims.{RepresentingLaws};

/// Proves the laws of look-ups and instances of patterns.
///
/// In a rebuilt graph a pattern is looked up as what `find` maps an id to if and only if it matches this id by rows
/// of its class. This holds even if symmetries are open.
///
/// Instances move with names and stay as the graph grows. There is one, and if no value omits a name just one.
///
/// A node over ids that answer for the child patterns stands for an instance, and so does what a substitution makes.
/// So building a pattern from the bottom up builds an instance.
pub fn pattern_laws_hold()
    ensures { PatternLaws }
{}

/// Proves the laws of what represents the body of a substitution: the second terms of a list of pairs for the first.
///
/// Just the pairs of the list are listed, with any names, and each term represents itself besides. Without a pair it
/// is the only one that does. With more pairs all instances and answers stay.
pub fn representing_laws_hold()
    ensures { RepresentingLaws }
{}
