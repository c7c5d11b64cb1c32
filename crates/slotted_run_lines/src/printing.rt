//! What rules and reports print.
use slotted_rules::{Always, Report, Rewrite, StopReason};
use slotted_slots::{Error, Show, SlotTable};
use slotted_small::Small;
use std::alloc::Global;

// Returns the reason of a word.
fn reason(alloc: Global, word: &str) -> Result<StopReason, Error> {
    match word {
        "Saturated" => Ok(StopReason::Saturated),
        "IterationLimit" => Ok(StopReason::IterationLimit),
        "TimeLimit" => Ok(StopReason::TimeLimit),
        "NodeLimit" => Ok(StopReason::NodeLimit),
        _ => Ok(StopReason::Other(String::from_str(alloc, word)?)),
    }
}

// Returns the number of a word, or 0 for any other word.
fn number(word: Option<&str>) -> usize {
    word.and_then(|word| word.parse().ok()).unwrap_or(0)
}

// Returns the report of these words: turns, e-nodes, classes, and why the run stopped.
fn report(alloc: Global, words: &str) -> Result<Report, Error> {
    let mut words = words.split_whitespace();
    let iterations = number(words.next());
    let egraph_nodes = number(words.next());
    let egraph_classes = number(words.next());
    let stop_reason = reason(alloc, words.next().unwrap_or(""))?;
    Ok(Report {
        iterations,
        stop_reason,
        egraph_nodes,
        egraph_classes,
        total_time: 0,
    })
}

// Writes a report.
fn write_report(alloc: Global, words: &str, text: &mut String) -> Result<(), Error> {
    let report = report(alloc, words)?;
    Ok(write!(text, "{report}")?)
}

// Writes the rule of a text.
fn write_rule(alloc: Global, words: &str, text: &mut String) -> Result<(), Error> {
    let (name, sides) = words.split_once(": ").unwrap_or((words, ""));
    let (left, right) = sides.split_once(" => ").unwrap_or((sides, ""));
    let mut table = SlotTable::new(alloc);
    let rule: Rewrite<Small, Always> = Rewrite::new(alloc, name, left, right, &mut table)?;
    Ok(write!(text, "{}", rule.show(&table))?)
}

/// Writes what the words print as: a report, or a rule.
pub fn write_printed(
    alloc: Global,
    word: &str,
    words: &str,
    text: &mut String,
) -> Result<(), Error> {
    match word {
        "report" => write_report(alloc, words, text),
        _ => write_rule(alloc, words, text),
    }
}
