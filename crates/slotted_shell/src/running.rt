//! Runs of a session's rules, one turn after another.
use crate::commands::VARIANTS;
use crate::shell::Shell;
use crate::trouble::Trouble;
use anyhow::Result;
use slotted_rules::TurnCounts;
use std::time::{Duration, Instant};

/// The limits of a run: its turns, its e-nodes, and its seconds, if they are limited.
#[derive(Clone, Copy)]
pub struct RunLimits {
    turns: u32,
    nodes: usize,
    seconds: Option<u64>,
}

impl RunLimits {
    /// Returns the limits of a text: `TURNS`, `TURNS nodes N` or `TURNS seconds S`. 30 turns and 10,000 e-nodes if nothing
    /// is said.
    pub fn read(text: &str) -> Option<RunLimits> {
        let usual = RunLimits {
            turns: 30,
            nodes: 10_000,
            seconds: None,
        };
        if text.is_empty() {
            return Some(usual);
        }
        let Some((turns, rest)) = text.split_once(' ') else {
            let turns = text.parse::<u32>().ok()?;
            return Some(RunLimits { turns, ..usual });
        };
        let turns = turns.parse::<u32>().ok()?;
        match rest.split_once(' ') {
            Some(("nodes", count)) => {
                let nodes = count.parse::<usize>().ok()?;
                Some(RunLimits {
                    turns,
                    nodes,
                    seconds: None,
                })
            }
            Some(("seconds", count)) => Some(RunLimits {
                turns,
                nodes: usize::MAX,
                seconds: Some(count.parse::<u64>().ok()?),
            }),
            _ => None,
        }
    }
}

// Writes what a turn did: e-nodes, classes, unions, and each rule that found something.
fn show_turn(rt: &HostRuntime, shell: &Shell, number: u32, counts: &TurnCounts) -> Result<()> {
    let nodes = shell.workspace.graph().total_number_of_nodes();
    let classes = shell.workspace.graph().progress().number_of_live_classes;
    let mut unions = 0usize;
    for rule in &counts.rules {
        unions = unions.saturating_add(rule.united);
    }
    print!(rt; "  turn {number}: {nodes} e-nodes, {classes} classes, {unions} united")?;
    for (line, rule) in shell.rules.iter().zip(&counts.rules) {
        if rule.found > 0 {
            let name = &line.name;
            let found = rule.found;
            let united = rule.united;
            print!(rt; ", {name} {united} of {found}")?;
        }
    }
    println!(rt; "")?;
    Ok(())
}

// Adds what a turn did to what each rule did so far.
fn note_turn(shell: &mut Shell, counts: &TurnCounts) {
    for (line, rule) in shell.rules.iter_mut().zip(&counts.rules) {
        line.found = line.found.saturating_add(rule.found);
        line.united = line.united.saturating_add(rule.united);
    }
}

// Returns why a run stops after a turn, or `None` if it goes on.
fn reason(
    shell: &Shell,
    limits: &RunLimits,
    changed: bool,
    passed: Option<Duration>,
) -> Option<&'static str> {
    if !changed {
        return Some("Saturated");
    }
    if shell.workspace.graph().total_number_of_nodes() > limits.nodes {
        return Some("NodeLimit");
    }
    match (limits.seconds, passed) {
        (Some(seconds), Some(passed)) if passed.as_secs() >= seconds => Some("TimeLimit"),
        _ => None,
    }
}

fn show_end(rt: &HostRuntime, shell: &Shell, turns: u32, reason: &str) -> Result<()> {
    let nodes = shell.workspace.graph().total_number_of_nodes();
    println!(rt; "{turns} {reason} {nodes}")?;
    Ok(())
}

// Decides the graph. Returns whether it is decided.
fn decide(shell: &mut Shell) -> Result<bool, Trouble> {
    match shell.workspace.decide(VARIANTS) {
        Ok(is_decided) => Ok(is_decided),
        Err(error) => Err(Trouble::of_call(shell.alloc, &error, "run")),
    }
}

// Applies the rules once, and decides the graph. Returns what each rule did, and whether a class or a symmetry changed.
fn take_turn(shell: &mut Shell) -> Result<(TurnCounts, bool), Trouble> {
    let listed = shell.workspace.graph().symmetries_met().len();
    let counts = match shell.workspace.turn() {
        Ok(counts) => counts,
        Err(error) => return Err(Trouble::of_call(shell.alloc, &error, "run")),
    };
    let is_more = shell.workspace.graph().symmetries_met().len() > listed;
    let changed = counts.changed || is_more;
    Ok((counts, changed))
}

// Takes a turn, writes what it did, and returns why the run stops after it, if it does.
fn run_turn(
    rt: &HostRuntime,
    shell: &mut Shell,
    number: u32,
    limits: &RunLimits,
    begin: &Instant,
) -> Result<Result<Option<&'static str>, Trouble>> {
    let (counts, changed) = match take_turn(shell) {
        Ok(taken) => taken,
        Err(trouble) => return Ok(Err(trouble)),
    };
    let is_decided = match decide(shell) {
        Ok(is_decided) => is_decided,
        Err(trouble) => return Ok(Err(trouble)),
    };
    note_turn(shell, &counts);
    show_turn(rt, shell, number, &counts)?;
    if !is_decided {
        return Ok(Ok(Some("NotDecided")));
    }
    Ok(Ok(reason(shell, limits, changed, begin.elapsed(rt).ok())))
}

/// Runs the rules, and writes a line for each turn before the next one begins. Then it writes the number of turns, why
/// the run stopped, and the number of e-nodes.
///
/// The graph is decided before the first turn and after each turn, so that a turn finds the matches that need a symmetry.
pub fn run(rt: &HostRuntime, shell: &mut Shell, limits: RunLimits) -> Result<Result<(), Trouble>> {
    let begin = Instant::now(rt)?;
    if let Err(trouble) = decide(shell) {
        return Ok(Err(trouble));
    }
    for number in 1..=limits.turns {
        match run_turn(rt, shell, number, &limits, &begin)? {
            Ok(None) => {}
            Ok(Some(reason)) => {
                show_end(rt, shell, number, reason)?;
                return Ok(Ok(()));
            }
            Err(trouble) => return Ok(Err(trouble)),
        }
    }
    show_end(rt, shell, limits.turns, "IterationLimit")?;
    Ok(Ok(()))
}
