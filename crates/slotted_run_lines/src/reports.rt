//! Reports of runs, under a rule that adds an e-node in each turn.
use crate::counting::Counting;
use crate::doubles::{Enough, Times};
use slotted_graph::EGraph;
use slotted_rules::{Hook, NoHook, Report, Runner, run_eqsat};
use slotted_slots::{Error, SlotTable};
use slotted_small::Small;
use std::alloc::Global;
use std::collections::VecDeque;

type Counted<H> = Runner<Small, (), (), String, H, Times>;

// Returns the clock of these times.
fn times(alloc: Global, words: &str) -> Result<Times, Error> {
    let mut left = VecDeque::new(alloc);
    for word in words.split_whitespace() {
        left.push_back(word.parse::<u64>().unwrap_or(0))?;
    }
    Ok(Times { left })
}

// The numbers of a line. Without a number there is the usual limit.
#[derive(Clone, Copy)]
struct Given {
    first: Option<u64>,
    second: Option<u64>,
    third: Option<u64>,
    fourth: Option<u64>,
}

// Returns a limit of turns or e-nodes.
fn limit(number: Option<u64>) -> usize {
    usize::try_from(number.unwrap_or(0)).unwrap_or(usize::MAX)
}

// Returns how many e-nodes the rule makes at most.
fn most(number: Option<u64>) -> u32 {
    u32::try_from(number.unwrap_or(0)).unwrap_or(u32::MAX)
}

// Returns the numbers of words.
fn numbers(words: &str) -> Given {
    let mut numbers = words
        .split_whitespace()
        .map(|word| word.parse::<u64>().ok());
    Given {
        first: numbers.next().flatten(),
        second: numbers.next().flatten(),
        third: numbers.next().flatten(),
        fourth: numbers.next().flatten(),
    }
}

// Returns a runner with the limits that are given.
fn limited(mut runner: Counted<NoHook>, numbers: Given) -> Counted<NoHook> {
    if numbers.second.is_some() {
        runner = runner.with_iter_limit(limit(numbers.second));
    }
    if numbers.third.is_some() {
        runner = runner.with_node_limit(limit(numbers.third));
    }
    match numbers.fourth {
        Some(time) => runner.with_time_limit(time),
        None => runner,
    }
}

// Writes a report.
fn write_report(report: &Report, text: &mut String) -> Result<(), Error> {
    let Report {
        iterations,
        stop_reason,
        egraph_nodes,
        egraph_classes,
        total_time,
    } = report;
    Ok(write!(
        text,
        "{iterations} {stop_reason:?}, {egraph_nodes} e-nodes, {egraph_classes} classes, time {total_time}"
    )?)
}

// Runs a runner twice, and writes both reports, of which the second one repeats the first.
fn write_run<H: Hook<Small, (), String>>(
    runner: &mut Counted<H>,
    most: u32,
    text: &mut String,
) -> Result<(), Error> {
    let report = runner.run(&[Counting { most }])?;
    write_report(&report, text)?;
    text.push_str("; again ")?;
    let report = runner.run(&[Counting { most }])?;
    write_report(&report, text)
}

// Lets a runner go, and its graph by its table.
fn let_go<H: Hook<Small, (), String>>(runner: Counted<H>) {
    let _ = runner.egraph.into_table();
}

// Writes the reports of a new runner.
fn write_runner(
    alloc: Global,
    numbers: Given,
    clock: Times,
    text: &mut String,
) -> Result<(), Error> {
    let runner = Runner::new(alloc, SlotTable::new(alloc), (), clock)?;
    let mut runner = limited(runner, numbers);
    let written = write_run(&mut runner, most(numbers.first), text);
    let_go(runner);
    written
}

// Resumes a runner after its first run, and writes its report.
fn write_more(
    runner: &mut Counted<NoHook>,
    written: Result<(), Error>,
    most: u32,
    text: &mut String,
) -> Result<(), Error> {
    written?;
    text.push_str("; resumed ")?;
    runner.resume();
    write_run(runner, most, text)
}

// Writes the report of a new runner, and that of the same runner after it went on to another limit of turns.
fn write_resumed(
    alloc: Global,
    numbers: Given,
    clock: Times,
    text: &mut String,
) -> Result<(), Error> {
    let runner: Counted<NoHook> = Runner::new(alloc, SlotTable::new(alloc), (), clock)?;
    let mut runner = runner.with_iter_limit(limit(numbers.second));
    let most = most(numbers.first);
    let written = write_run(&mut runner, most, text);
    let mut runner = runner.with_iter_limit(limit(numbers.third));
    let written = write_more(&mut runner, written, most, text);
    let_go(runner);
    written
}

// Writes the reports of a new runner with a hook.
fn write_hooked(
    alloc: Global,
    at: usize,
    numbers: Given,
    clock: Times,
    text: &mut String,
) -> Result<(), Error> {
    let runner = Runner::new(alloc, SlotTable::new(alloc), (), clock)?;
    let mut runner = limited(runner, numbers).with_hook(Enough { at });
    let written = write_run(&mut runner, most(numbers.first), text);
    let_go(runner);
    written
}

// Returns the report of a run without a runner.
fn counted_at_once(
    alloc: Global,
    graph: &mut EGraph<Small>,
    numbers: Given,
    clock: &mut Times,
) -> Result<Report, Error> {
    let rules = [Counting {
        most: most(numbers.first),
    }];
    let seconds = numbers.third.unwrap_or(0);
    let turns = limit(numbers.second);
    run_eqsat(alloc, graph, &rules, turns, seconds, &mut NoHook, clock)
}

// Writes the report of a run without a runner, from the empty graph.
fn write_at_once(
    alloc: Global,
    numbers: Given,
    clock: &mut Times,
    text: &mut String,
) -> Result<(), Error> {
    let mut graph: EGraph<Small> = EGraph::new(alloc, SlotTable::new(alloc), ())?;
    let report = counted_at_once(alloc, &mut graph, numbers, clock);
    let _ = graph.into_table();
    write_report(&report?, text)
}

/// Writes the report or the reports of a line.
pub fn write_reports(
    alloc: Global,
    word: &str,
    words: &str,
    text: &mut String,
) -> Result<(), Error> {
    let (words, clock) = words.split_once(":").unwrap_or((words, ""));
    let mut clock = times(alloc, clock)?;
    match word {
        "eqsat" => write_at_once(alloc, numbers(words), &mut clock, text),
        "resumed" => write_resumed(alloc, numbers(words), clock, text),
        "hook" => {
            let (at, words) = words.split_once(' ').unwrap_or((words, ""));
            let at = at.parse().unwrap_or(0);
            write_hooked(alloc, at, numbers(words), clock, text)
        }
        _ => write_runner(alloc, numbers(words), clock, text),
    }
}
