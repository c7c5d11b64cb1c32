//! The program `slotted_judge`: checks the proofs of a certificate, and answers each claim that has one.
#![tactic(auto)]

mod judge;
mod known;
mod lines;
mod matching;
mod reader;
mod reading;
mod reasons;
mod words;

use anyhow::Result;
use judge::{Answer, Judge};
use std::process::ExitCode;

// Writes what is said of a claim. Returns whether its proof was right.
fn show(rt: &HostRuntime, answer: Option<Answer>) -> Result<bool> {
    let Some(Answer { claim, fault }) = answer else {
        return Ok(true);
    };
    match fault {
        Some(fault) => {
            println!(rt; "line {} fails, {}: {claim}", fault.line, fault.why)?;
            Ok(false)
        }
        None => {
            println!(rt; "checked: {claim}")?;
            Ok(true)
        }
    }
}

// Reads a certificate. Returns whether each claim that had a proof was checked.
fn judge_lines(rt: &HostRuntime) -> Result<bool> {
    let mut judge = Judge::new(rt.alloc());
    let mut is_right = true;
    for line in rt.lines(rt.alloc()) {
        let line = line?;
        is_right = show(rt, judge.read(&line)?)? && is_right;
    }
    is_right = show(rt, judge.conclude()?)? && is_right;
    if judge.unread > 0 {
        println!(rt; "lines that could not be read: {}", judge.unread)?;
    }
    Ok(is_right)
}

fn main(rt: HostRuntime) -> ExitCode {
    match judge_lines(&rt) {
        Ok(true) => ExitCode::SUCCESS,
        Ok(false) => ExitCode::from(2),
        Err(error) => {
            let _ = eprintln!(rt; "{error}");
            ExitCode::FAILURE
        }
    }
}
