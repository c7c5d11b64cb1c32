//! Columns of tokens and of words, in characters from 1.
ghost use Rattle.std.specs.Prelude.{◌≡◌, length, slice_get};
ghost use Rattle.std.specs.Str.{chars};
ghost use Rattle.slotted_patterns.specs.Tokens.{is_of_run};
ghost use Rattle.slotted_messages.specs.Parsed.{CountsTokens, IsColumnBehind, IsColumnOfWord, IsNonePastWords};
ghost use Rattle.slotted_messages.specs.Columns.{is_bracket, begins, behind, shows_word, shown_at, token_columns, word_columns};

/// What stands in front of a character, as far as tokens depend on it.
#[derive(Clone, Copy, Debug, PartialEq, Eq)]
pub(crate) enum Before {
    /// A token may begin here.
    Free,
    /// A `:` with which a run begins.
    Colon,
    /// A part of a run.
    Run,
}

fn is_bracket(c: char) -> bool
    ensures { result ≡ is_bracket c }
{
    c == '(' || c == ')' || c == '[' || c == ']'
}

/// Returns whether a character is of a run: neither white space nor a bracket.
pub(crate) fn is_of_run(c: char) -> bool
    ensures { result ≡ is_of_run c }
{
    !(c.is_whitespace() || is_bracket(c))
}

impl Before {
    // Returns whether a token begins with this character.
    fn begins(self, c: char) -> bool
        ensures { result ≡ begins self c }
    {
        is_bracket(c) || (is_of_run(c) && self == Before::Free)
    }

    // Returns what stands in front of the next character.
    fn behind(self, c: char) -> Before
        ensures { result ≡ behind self c }
    {
        if !is_of_run(c) {
            return Before::Free;
        }
        match self {
            Before::Free if c == ':' => Before::Colon,
            Before::Colon if c == '=' => Before::Free,
            _ => Before::Run,
        }
    }
}

/// Returns how many tokens a text has, by the rules of the parser.
pub fn token_count(text: &str) -> usize
    ensures count { result ≡ length (token_columns text.now) }
    ensures parsed { CountsTokens text.now result }
{
    let mut count = 0;
    let mut before = Before::Free;
    for c in text.chars() {
        let begins = before.begins(c);
        before = before.behind(c);
        if begins {
            count += 1;
        }
    }
    count
}

/// Returns the column at which a token begins, by its number from 0. `None` if the text has fewer tokens.
pub fn token_column(text: &str, number: usize) -> Option<usize>
    ensures column { result ≡ slice_get (token_columns text.now) number }
    ensures parsed { IsColumnBehind text.now number result }
{
    let mut left = number;
    let mut column = 0;
    let mut before = Before::Free;
    for c in text.chars() {
        let begins = before.begins(c);
        before = before.behind(c);
        column += 1;
        if begins {
            if left == 0 {
                return Some(column);
            }
            left -= 1;
        }
    }
    None
}

// Returns whether a character shows that a word began: at it, or at the `:` in front of it.
fn shows_word(before: Before, c: char) -> bool
    ensures { result ≡ shows_word before c }
{
    match before {
        Before::Free => is_of_run(c) && c != '?' && c != '$' && c != ':',
        Before::Colon => c != '=',
        Before::Run => false,
    }
}

// Returns where the word began that a character at this column shows.
fn shown_at(before: Before, column: usize) -> usize
    ensures { result ≡ shown_at before column }
{
    match before {
        Before::Colon => column.saturating_sub(1),
        _ => column,
    }
}

/// Returns the column at which a word begins, by its number from 0. `None` if the text has fewer words.
///
/// A word is a token that is neither a variable, a slot, a bracket nor `:=`.
pub fn word_column(text: &str, number: usize) -> Option<usize>
    ensures column { result ≡ slice_get (word_columns text.now) number }
    ensures parsed { IsColumnOfWord text.now number result }
    ensures past { IsNonePastWords text.now number result }
{
    let mut left = number;
    let mut column = 0;
    let mut before = Before::Free;
    for c in text.chars() {
        let shows = shows_word(before, c);
        column += 1;
        let begun = shown_at(before, column);
        before = before.behind(c);
        if shows {
            if left == 0 {
                return Some(begun);
            }
            left -= 1;
        }
    }
    if left > 0 {
        return None;
    }
    match before {
        Before::Colon => Some(column),
        _ => None,
    }
}
