//! The parts of a rule's text.

/// A condition on a match: that a slot occurs in the value of a variable, or that it does not.
#[derive(Debug, Drop)]
pub struct SlotCondition<'a> {
    /// The name of the slot, without its `$`.
    pub slot: &'a str,
    /// The name of the variable, without its `?`.
    pub variable: &'a str,
    /// Whether the slot has to occur: `in`, and not `not in`.
    pub occurs: bool,
}

/// The parts of a rule's text.
#[derive(Debug, Drop)]
pub struct RuleText<'a> {
    /// The name.
    pub name: &'a str,
    /// The text of the left pattern.
    pub left: &'a str,
    /// The text of the right pattern.
    pub right: &'a str,
    /// Whether the rule goes both ways: `<=>`, and not `=>`.
    pub both: bool,
    /// The conditions, all of which have to hold.
    pub conditions: Vec<SlotCondition<'a>>,
}
