//! Names of slots and variables.
ghost use Rattle.std.specs.Prelude.{◌≡◌};
ghost use Rattle.slotted_rule_texts.specs.Names.{is_of_name, is_name};

// Returns whether a character may stand in a name: white space and brackets may not.
fn is_of_name(c: char) -> bool
    ensures { result ≡ is_of_name c }
{
    !(c.is_whitespace() || c == '(' || c == ')' || c == '[' || c == ']')
}

/// Returns whether a text is one name, as a token has it.
pub(crate) fn is_name(text: &str) -> bool
    ensures { result ≡ is_name text.now }
{
    !text.is_empty() && text.chars().all(|c| is_of_name(c))
}
