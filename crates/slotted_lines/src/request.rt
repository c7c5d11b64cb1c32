//! What a line asks of a session.
ghost use Rattle.std.specs.Prelude.{◌≡◌};
ghost use Rattle.slotted_lines.specs.Asked.{requested};
ghost use Rattle.slotted_lines.specs.Requests.{rule_of, run_of, session_command_of};

/// What one line asks, with the texts that it names.
#[derive(Drop)]
pub enum Request<'a> {
    /// Keeps a rule: its name, its left text and its right text.
    Rule(&'a str, &'a str, &'a str),
    /// Runs the rules of the lines before, with this limit of turns.
    Run(u32),
    /// Asks the graph alone.
    Plain(&'a str),
    /// Asks nothing that is known.
    Unknown,
}

impl<'a> Request<'a> {
    /// Returns what a line without a line feed asks.
    pub fn read(line: &'a str) -> Request<'a>
        ensures { requested result ≡ session_command_of line.now }
    {
        if let Some(text) = line.strip_prefix("rule ") {
            return Request::read_rule(text);
        }
        match line.strip_prefix("run ") {
            Some(text) => Request::read_run(text),
            None => Request::Plain(line),
        }
    }

    // Returns what is asked by the text behind the word `rule`.
    fn read_rule(text: &'a str) -> Request<'a>
        ensures { requested result ≡ rule_of text.now }
    {
        let Some((name, sides)) = text.split_once(": ") else {
            return Request::Unknown;
        };
        match sides.split_once(" => ") {
            Some((left, right)) => Request::Rule(name, left, right),
            None => Request::Unknown,
        }
    }

    // Returns what is asked by the text behind the word `run`.
    fn read_run(text: &'a str) -> Request<'a>
        ensures { requested result ≡ run_of text.now }
    {
        match text.parse::<u32>() {
            Ok(limit) => Request::Run(limit),
            Err(_) => Request::Unknown,
        }
    }
}
