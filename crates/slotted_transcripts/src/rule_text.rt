//! Lines that write rules, as texts.

/// The condition that a slot does not occur in the value of a variable, or that it does.
#[derive(Drop)]
pub struct Asked<'a> {
    pub is_free: bool,
    pub slot: &'a str,
    pub variable: &'a str,
}

/// The parts of a line `rule N: L => R`, which may end in ` if free $x v` or ` if not free $x v`.
#[derive(Drop)]
pub struct RuleText<'a> {
    pub name: &'a str,
    pub left: &'a str,
    pub right: &'a str,
    pub condition: Option<Asked<'a>>,
}

// Returns the condition of a text behind ` if `.
fn read_condition(text: &str) -> Option<Asked> {
    let (is_free, asked) = match text.strip_prefix("not ") {
        Some(rest) => (false, rest),
        None => (true, text),
    };
    let (slot, variable) = asked.strip_prefix("free $")?.split_once(" ")?;
    Some(Asked {
        is_free,
        slot,
        variable,
    })
}

// Returns the parts of a rule, from its name and the text behind the colon.
fn read_sides<'a>(name: &'a str, sides: &'a str) -> Option<RuleText<'a>> {
    let (left, rest) = sides.split_once(" => ")?;
    let (right, condition) = match rest.split_once(" if ") {
        Some((right, text)) => (right, Some(read_condition(text)?)),
        None => (rest, None),
    };
    Some(RuleText {
        name,
        left,
        right,
        condition,
    })
}

/// Returns the parts of a line that writes a rule, or `None` if the line writes none.
pub fn read_rule(line: &str) -> Option<RuleText> {
    let (name, sides) = line.strip_prefix("rule ")?.split_once(": ")?;
    read_sides(name, sides)
}
