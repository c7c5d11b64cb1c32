//! Why a line is refused.
use slotted_messages::Message;
use slotted_rule_texts::RuleTextError;
use slotted_slots::Error;
use slotted_workspace::WorkspaceError;
use std::alloc::{AllocError, AllocFailed, Global};
use std::fmt;

/// Why a line is refused: the number and the name of an error, and what is wrong.
#[derive(Drop)]
pub struct Trouble {
    number: u8,
    name: &'static str,
    // None if there was no memory for the text.
    text: Option<String>,
}

impl Trouble {
    /// Returns the trouble with a text of its own.
    pub fn said(number: u8, name: &'static str, text: String) -> Trouble {
        Trouble {
            number,
            name,
            text: Some(text),
        }
    }

    /// Returns the trouble of a line that is outside the form of its command.
    pub fn form(text: String) -> Trouble {
        Trouble::said(14, "Text", text)
    }

    fn memory() -> Trouble {
        Trouble {
            number: Error::OutOfMemory.number(),
            name: Error::OutOfMemory.name(),
            text: None,
        }
    }

    /// Returns the trouble of an error that a call returned for a text.
    pub fn of_text(alloc: Global, error: &Error, text: &str) -> Trouble {
        let said = match error {
            Error::Failed => String::from_str(alloc, "`reset` begins anew"),
            Error::NotEqual => String::from_str(alloc, "not found equal; `run` may help"),
            Error::SubstInSearch => {
                String::from_str(alloc, "a substitution may stand on the right side alone")
            }
            Error::MissingVariable(name) => {
                format!(in alloc; "?{name} stands on the right side alone")
            }
            _ => {
                let message = Message::of_text(error, text);
                format!(in alloc; "{message}")
            }
        };
        match said {
            Ok(said) => Trouble::said(error.number(), error.name(), said),
            Err(_) => Trouble::memory(),
        }
    }

    /// Returns the trouble of a call of the workspace for a text.
    pub fn of_call(alloc: Global, error: &WorkspaceError, text: &str) -> Trouble {
        match error {
            WorkspaceError::Graph(error) => Trouble::of_text(alloc, error, text),
            _ => match format!(in alloc; "{error}") {
                Ok(said) => Trouble::form(said),
                Err(_) => Trouble::memory(),
            },
        }
    }

    /// Returns the trouble of a rule's text.
    pub fn of_rule(alloc: Global, error: &RuleTextError) -> Trouble {
        match format!(in alloc; "{error}") {
            Ok(said) => Trouble::form(said),
            Err(_) => Trouble::memory(),
        }
    }
}

impl fmt::Display for Trouble {
    fn fmt<W: fmt::Write>(&self, f: &mut fmt::Formatter<W>) -> fmt::Result {
        let number = self.number;
        let name = self.name;
        match &self.text {
            Some(text) => write!(f, "error: {number} {name}: {text}"),
            None => write!(f, "error: {number} {name}"),
        }
    }
}

impl From<AllocError> for Trouble {
    fn from(_e: AllocError) -> Trouble {
        Trouble::memory()
    }
}

impl<T: Drop> From<AllocFailed<T>> for Trouble {
    fn from(_e: AllocFailed<T>) -> Trouble {
        Trouble::memory()
    }
}
