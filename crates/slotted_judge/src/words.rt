//! Numbers for texts.
use std::alloc::{AllocError, Global};
use std::collections::HashMap;

/// Texts, numbered in the order in which they first came.
#[derive(Drop)]
pub struct Words {
    /// The texts by their numbers.
    pub texts: Vec<String>,
    numbers: HashMap<String, usize>,
}

impl Words {
    /// Returns the list that has no text.
    pub fn new(alloc: Global) -> Self {
        Words {
            texts: Vec::new(alloc),
            numbers: HashMap::new(alloc),
        }
    }

    /// Returns the texts.
    pub fn into_texts(self) -> Vec<String> {
        self.texts
    }

    /// Returns the number of a text, which is added if it has none.
    pub fn number(&mut self, alloc: Global, text: &str) -> Result<usize, AllocError> {
        if let Some(number) = self.numbers.get(text) {
            return Ok(*number);
        }
        let number = self.texts.len();
        self.texts.push(String::from_str(alloc, text)?)?;
        self.numbers.insert(String::from_str(alloc, text)?, number)?;
        Ok(number)
    }
}
