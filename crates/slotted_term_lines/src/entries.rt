//! Proof lists, and the answers of calls on them.
//!
//! An entry is written as its equation, what its line in a printed proof says behind `by`, its number, and the length
//! of the list.
use crate::steps::{entered, number};
use crate::writing::{write_derived, write_shown, write_test};
use slotted_proofs::{ProofLines, ProofList, ProvenEq, reasons};
use slotted_slots::{Error, SlotTable};
use std::alloc::Global;

// A proof list, and the numbers that it or an earlier one answered.
#[derive(Drop)]
pub(crate) struct Entries {
    list: ProofList,
    numbers: Vec<ProvenEq>,
}

// Returns the lines of the proof of an entry.
fn lines_of(alloc: Global, list: &ProofList, p: ProvenEq) -> Result<ProofLines, Error> {
    if list.is_valid(p) && list.has_earlier_parts() {
        list.lines(alloc, p)
    } else {
        Err(Error::BadStep)
    }
}

// Returns whether a copy of an entry, and a copy of that, have the entry's equation.
fn is_copied(alloc: Global, list: &ProofList, p: ProvenEq) -> Result<bool, Error> {
    if !list.is_valid(p) {
        return Err(Error::BadStep);
    }
    let entry = list.entry(alloc, p)?;
    Ok(entry.equ == *list.equ(p) && entry.copy(alloc)? == entry)
}

// Returns what a line of an entry says behind `by`.
fn reason(alloc: Global, list: &ProofList, p: ProvenEq) -> Result<String, Error> {
    let lines = lines_of(alloc, list, p)?;
    if list.is_valid(p) {
        reasons::reason(alloc, list.proof(p), &lines)
    } else {
        Err(Error::BadStep)
    }
}

// Writes an entry with its reason and its number.
fn write_entry(
    alloc: Global,
    list: &ProofList,
    p: ProvenEq,
    table: &SlotTable,
    text: &mut String,
) -> Result<(), Error> {
    if !is_copied(alloc, list, p)? || !list.is_valid(p) {
        return Err(Error::BadStep);
    }
    write_shown(list.equ(p), table, text)?;
    let reason = reason(alloc, list, p)?;
    let number = p.number();
    Ok(write!(text, "by {reason} at {number}")?)
}

// Writes which of the numbers have lines, and how many lines there are.
fn write_lines(lines: &ProofLines, numbers: &[ProvenEq], text: &mut String) -> Result<(), Error> {
    for p in numbers {
        let line = lines.line_of(*p).unwrap_or(0);
        if lines.has(*p) && lines.get(line) == Some(*p) {
            let number = p.number();
            write!(text, "{number} at {line}, ")?;
        }
    }
    let count = lines.len();
    Ok(write!(text, "of {count}")?)
}

impl Entries {
    pub(crate) fn new(alloc: Global) -> Entries {
        Entries {
            list: ProofList::new(alloc),
            numbers: Vec::new(alloc),
        }
    }

    // Begins a list without entries. The numbers are kept.
    pub(crate) fn begin_anew(&mut self, alloc: Global) {
        self.list = ProofList::new(alloc);
    }

    // Writes an entry that was answered, and keeps its number if that is the next one.
    fn keep(
        &mut self,
        alloc: Global,
        p: ProvenEq,
        table: &SlotTable,
        text: &mut String,
    ) -> Result<(), Error> {
        if p.number() == self.numbers.len() {
            self.numbers.push(p)?;
        }
        write_entry(alloc, &self.list, p, table, text)
    }

    // Writes the entry or the error that a call answers.
    fn write_entered(
        &mut self,
        alloc: Global,
        call: &str,
        words: &str,
        table: &mut SlotTable,
        text: &mut String,
    ) -> Result<(), Error> {
        match entered(alloc, &mut self.list, &self.numbers, call, words, table) {
            Ok(p) => self.keep(alloc, p, table, text),
            Err(error) => write_derived(alloc, &error, text),
        }
    }

    // Writes the entry or the error that a call answers, and how many entries there are then.
    fn write_call(
        &mut self,
        alloc: Global,
        call: &str,
        words: &str,
        table: &mut SlotTable,
        text: &mut String,
    ) -> Result<(), Error> {
        self.write_entered(alloc, call, words, table, text)?;
        let count = self.list.len();
        Ok(write!(text, " of {count}")?)
    }

    // Writes the lines of the proof of the entry of a number.
    fn write_proof(&self, alloc: Global, words: &str, text: &mut String) -> Result<(), Error> {
        let p = number(&self.numbers, words)?;
        let lines = lines_of(alloc, &self.list, p)?;
        write_lines(&lines, &self.numbers, text)
    }

    // Writes the answer of a call on the list.
    pub(crate) fn write_answer(
        &mut self,
        alloc: Global,
        call: &str,
        words: &str,
        table: &mut SlotTable,
        text: &mut String,
    ) -> Result<(), Error> {
        match call {
            "is_empty" => write_test(Ok(self.list.is_empty()), text),
            "asserted" => write_derived(alloc, &self.list.asserted(), text),
            "lines" => self.write_proof(alloc, words, text),
            _ => self.write_call(alloc, call, words, table, text),
        }
    }
}
