//! The program `slotted_uses`: an equation checker for lambda terms. Assertions, rules and questions in, an answer to
//! each out.
#![tactic(auto)]

mod lines;
pub mod question;

use anyhow::Result;
use lines::{Answer, carry_out};
use question::Verdict;
use slotted_small::Small;
use slotted_workspace::{Workspace, WorkspaceError};
use std::alloc::Global;
use std::mem::replace;

// Writes a yes, with the lines of its proof below.
fn show_proof(rt: &impl Print, proof: &str) -> Result<()> {
    println!(rt; "yes")?;
    for line in proof.lines() {
        println!(rt; "  {line}")?;
    }
    Ok(())
}

fn show_answer(rt: &impl Print, answer: &Answer) -> Result<()> {
    match answer {
        Answer::Kept => println!(rt; "ok")?,
        Answer::Judged(Verdict::Yes(proof)) => show_proof(rt, proof)?,
        Answer::Judged(Verdict::No) => println!(rt;
            "no: it does not follow from the assertions and the instances that the rules made"
        )?,
        Answer::Judged(Verdict::Stopped) => println!(rt; "not decided: a limit stopped the rules")?,
        Answer::Judged(Verdict::Open) => println!(rt;
            "not decided: the graph has too many symmetries"
        )?,
        Answer::Refused(fault) => println!(rt; "error: {fault}")?,
        Answer::Unknown => println!(rt; "error: this is no assertion, no rule and no question")?,
    }
    Ok(())
}

// Answers a line.
fn answer_line(rt: &HostRuntime, workspace: &mut Workspace<Small>, line: &str) -> Result<()> {
    match carry_out(rt.alloc(), workspace, line) {
        Ok(answer) => show_answer(rt, &answer)?,
        Err(error) => println!(rt; "error: {error}")?,
    }
    Ok(())
}

// Puts a new workspace in the place of a former one.
fn begin_anew(alloc: Global, workspace: &mut Workspace<Small>) -> Result<(), WorkspaceError> {
    let former = replace(workspace, Workspace::new(alloc)?);
    let _ = former.into_table();
    Ok(())
}

// Answers a line, or repeats it if it asks nothing. A line `---` begins anew.
fn answer_or_repeat(rt: &HostRuntime, workspace: &mut Workspace<Small>, line: &str) -> Result<()> {
    if line == "---" {
        begin_anew(rt.alloc(), workspace)?;
    } else if !line.is_empty() && !line.starts_with('#') {
        return answer_line(rt, workspace, line);
    }
    println!(rt; "{line}")?;
    Ok(())
}

fn answer_lines(rt: &HostRuntime, workspace: &mut Workspace<Small>) -> Result<()> {
    for line in rt.lines(rt.alloc()) {
        let line = line?;
        answer_or_repeat(rt, workspace, &line)?;
    }
    Ok(())
}

fn main(rt: HostRuntime) -> Result<()> {
    let mut workspace: Workspace<Small> = Workspace::new(rt.alloc())?;
    let answered = answer_lines(&rt, &mut workspace);
    let _ = workspace.into_table();
    answered
}
