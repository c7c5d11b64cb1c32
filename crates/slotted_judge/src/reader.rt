//! A text that is read from the front.

/// A text of which a part was read.
#[derive(Drop)]
pub struct Reader<'a> {
    text: &'a str,
    at: usize,
}

fn is_space(byte: u8) -> bool {
    byte == b' ' || byte == b'\t' || byte == b'\r'
}

/// Returns whether a byte ends a word.
pub fn ends_word(byte: u8) -> bool {
    is_space(byte) || byte == b'(' || byte == b')' || byte == b'[' || byte == b']'
}

impl<'a> Reader<'a> {
    /// Returns a text of which nothing was read.
    pub fn new(text: &'a str) -> Self {
        Reader { text, at: 0 }
    }

    /// Returns the byte that is next.
    pub fn peek(&self) -> Option<u8> {
        self.text.as_bytes().get(self.at).copied()
    }

    /// Goes past white space.
    pub fn skip_spaces(&mut self) {
        let bytes = self.text.as_bytes();
        for k in self.at..bytes.len() {
            if !is_space(bytes[k]) {
                self.at = k;
                return;
            }
        }
        self.at = bytes.len();
    }

    /// Goes past one byte.
    pub fn skip_byte(&mut self) {
        self.at = self.at.saturating_add(1);
    }

    /// Goes past a text, if it is next.
    pub fn take(&mut self, word: &str) -> bool {
        if !self.rest().starts_with(word) {
            return false;
        }
        self.at = self.at.saturating_add(word.len());
        true
    }

    /// Returns what is left.
    pub fn rest(&self) -> &'a str {
        self.text.get(self.at..).unwrap_or("")
    }

    /// Returns whether only white space is left.
    pub fn is_done(&mut self) -> bool {
        self.skip_spaces();
        self.rest().is_empty()
    }

    // Goes on to a place, and returns what stands before it.
    fn take_up_to(&mut self, end: usize) -> &'a str {
        let begin = self.at;
        self.at = end;
        self.text.get(begin..end).unwrap_or("")
    }

    /// Returns the word that is next, which may be empty.
    pub fn word(&mut self) -> &'a str {
        let bytes = self.text.as_bytes();
        for k in self.at..bytes.len() {
            if ends_word(bytes[k]) {
                return self.take_up_to(k);
            }
        }
        self.take_up_to(bytes.len())
    }

    /// Returns the number that is next.
    pub fn number(&mut self) -> Option<usize> {
        let bytes = self.text.as_bytes();
        for k in self.at..bytes.len() {
            if !bytes[k].is_ascii_digit() {
                return self.take_up_to(k).parse::<usize>().ok();
            }
        }
        self.take_up_to(bytes.len()).parse::<usize>().ok()
    }
}
