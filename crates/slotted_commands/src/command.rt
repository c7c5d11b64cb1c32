//! Commands, as lines write them.
ghost use Rattle.std.specs.Prelude.{◌≡◌};
ghost use Rattle.slotted_commands.specs.Commands.{command_of, asked_of_text, asked_of_pair};
ghost use Rattle.slotted_commands.specs.Asked.{asked};

/// What one line asks, with the texts that it names.
#[derive(Drop)]
pub enum Command<'a> {
    /// Adds a text.
    Add(&'a str),
    /// Compares two texts.
    Eq(&'a str, &'a str),
    /// Unites two texts.
    Union(&'a str, &'a str),
    /// Explains why two texts are equal.
    Explain(&'a str, &'a str),
    /// Extracts a term of least cost that is equal to a text.
    Extract(&'a str),
    /// Counts the symmetries that were met, and the open ones.
    Symmetries,
    /// Asks nothing that is known.
    Unknown,
}

impl<'a> Command<'a> {
    /// Returns what a line without a line feed asks.
    pub fn read(line: &'a str) -> Command<'a>
        ensures { asked result ≡ command_of line.now }
    {
        if line == "symmetries" {
            return Command::Symmetries;
        }
        Command::read_text(line)
    }

    // Returns what a line asks of one text, or else of two.
    fn read_text(line: &'a str) -> Command<'a>
        ensures { asked result ≡ asked_of_text line.now }
    {
        if let Some(text) = line.strip_prefix("add ") {
            return Command::Add(text);
        }
        match line.strip_prefix("extract ") {
            Some(text) => Command::Extract(text),
            None => Command::read_pair(line),
        }
    }

    // Returns what a line asks of two texts.
    fn read_pair(line: &'a str) -> Command<'a>
        ensures { asked result ≡ asked_of_pair line.now }
    {
        if let Some(texts) = line.strip_prefix("eq ") {
            return match texts.split_once(" == ") {
                Some((left, right)) => Command::Eq(left, right),
                None => Command::Unknown,
            };
        }
        if let Some(texts) = line.strip_prefix("union ") {
            return match texts.split_once(" == ") {
                Some((left, right)) => Command::Union(left, right),
                None => Command::Unknown,
            };
        }
        let Some(texts) = line.strip_prefix("explain ") else {
            return Command::Unknown;
        };
        match texts.split_once(" == ") {
            Some((left, right)) => Command::Explain(left, right),
            None => Command::Unknown,
        }
    }
}
