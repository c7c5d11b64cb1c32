//! The matcher, which goes through a pattern side by side with the e-nodes of a class.

ghost use Rattle.slotted_model_rules.specs.MatcherClaims.{MatcherLaws};
ghost use Rattle.slotted_model_rules.specs.GoalClaims.{GoalLaws};

/// Proves the laws of the matcher.
///
/// The matcher has a run for each pattern at each class. Under each reading of a state that it finds, the pattern is
/// looked up as the id at which it was found. This holds whichever names are chosen for those that the pattern does
/// not name. Each variable has a value then, which is a valid id.
///
/// If no class has a redundant slot, the matcher finds all: each substitution whose look-up is an id is a reading of
/// such a state. For this, each binder of the pattern has a name of its own, which stands in its scope alone.
///
/// Two readings of a state differ by a renaming that leaves the pattern's slots.
pub fn matcher_laws_hold()
    ensures { MatcherLaws }
{}

/// Proves the laws of goals: patterns, each to be found at an id, one after another.
///
/// What the matcher finds state by state is what is found goal by goal, by going on from each state alone. A variable
/// in front is compared or takes its value. A node in front makes its child patterns goals, beside each row in turn.
///
/// So a machine that goes depth first, and takes back what it did, finds the same. Rows of other outlines can be
/// passed over.
///
/// A node is one of the matcher's if the names that stand in it are new, since all other names of its id can be
/// chosen. The matcher walks it by pairing two flat lists of names.
pub fn goal_laws_hold()
    ensures { GoalLaws }
{}
