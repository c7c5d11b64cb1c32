//! Why the answers of the machine are what the matcher finds.

ghost use Rattle.slotted_match_machine.specs.MachineClaims.{MachineLaws};

/// Proves the laws of the machine.
///
/// Take a rebuilt graph, an index of it, and the program of a pattern. At each live class the answers are, one by
/// one, the states in which the matcher finds the pattern there.
///
/// An answer has an id for each variable of the pattern, which is valid under any different names for its numbers,
/// and pairs numbers with slots one to one. So substitutions that read all answers are what the search of a rule
/// finds.
///
/// The machine finds nothing if a node of the pattern has the outline of no row.
pub fn machine_laws_hold()
    ensures { MachineLaws }
{}
