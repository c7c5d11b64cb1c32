//! The program `slotted_shell`: commands over a graph of any operators, for people.
#![tactic(auto)]

mod binders;
mod commands;
mod examples;
mod files;
mod help;
mod rules;
mod running;
mod shell;
mod trouble;

use anyhow::Result;
use commands::answer;
use files::{Step, open_file};
use running::{RunLimits, run};
use shell::Shell;
use std::process::ExitCode;
use std::{env, fs, io};
use trouble::Trouble;

// What follows a line.
#[derive(Clone, Copy, PartialEq, Eq)]
enum Next {
    GoesOn,
    Ends,
}

fn show(rt: &HostRuntime, answered: Result<String, Trouble>) -> Result<()> {
    match answered {
        Ok(text) if text.is_empty() => {}
        Ok(text) => println!(rt; "{text}")?,
        Err(trouble) => println!(rt; "{trouble}")?,
    }
    Ok(())
}

fn run_rules(rt: &HostRuntime, shell: &mut Shell, text: &str) -> Result<()> {
    let Some(limits) = RunLimits::read(text) else {
        let wanted = String::from_str(
            rt.alloc(),
            "`run`, `run TURNS`, `run TURNS nodes N` or `run TURNS seconds S` is wanted",
        )?;
        return show(rt, Err(Trouble::form(wanted)));
    };
    match run(rt, shell, limits)? {
        Ok(()) => Ok(()),
        Err(trouble) => show(rt, Err(trouble)),
    }
}

fn write_picture(rt: &HostRuntime, shell: &mut Shell, path: &str) -> Result<()> {
    match answer(shell, "dot", "") {
        Ok(text) => {
            fs::write(rt, path, text.as_str())?;
            println!(rt; "ok")?;
            Ok(())
        }
        Err(trouble) => show(rt, Err(trouble)),
    }
}

// Answers a line that loads no file.
fn answer_line(rt: &HostRuntime, shell: &mut Shell, word: &str, rest: &str) -> Result<Next> {
    match word {
        "quit" => return Ok(Next::Ends),
        "run" => run_rules(rt, shell, rest)?,
        "dot" if !rest.is_empty() => write_picture(rt, shell, rest)?,
        "reset" => {
            shell.reset()?;
            println!(rt; "ok")?;
        }
        _ => {
            let answered = answer(shell, word, rest);
            show(rt, answered)?;
        }
    }
    Ok(Next::GoesOn)
}

// Answers one line, or opens the file that it names.
fn take_step(
    rt: &HostRuntime,
    shell: &mut Shell,
    steps: &mut Vec<Step>,
    step: &Step,
) -> Result<Next> {
    let text = match step {
        Step::Line(text) => text.trim(),
        Step::Shown(text) => {
            println!(rt; "> {text}")?;
            text.trim()
        }
        Step::Close => return Ok(Next::GoesOn),
    };
    if text.is_empty() || text.starts_with('#') {
        return Ok(Next::GoesOn);
    }
    let (word, rest) = parted(text);
    if word != "load" {
        return answer_line(rt, shell, word, rest);
    }
    if let Err(trouble) = open_file(rt, rest, steps)? {
        show(rt, Err(trouble))?;
    }
    Ok(Next::GoesOn)
}

// Returns the first word of a line, and what follows it.
fn parted(line: &str) -> (&str, &str) {
    match line.split_once(' ') {
        Some((word, rest)) => (word, rest.trim()),
        None => (line, ""),
    }
}

// Answers a line, and the lines of the files that it loads.
fn line(rt: &HostRuntime, shell: &mut Shell, text: &str) -> Result<Next> {
    let mut steps = Vec::new(rt.alloc());
    steps.push(Step::Line(String::from_str(rt.alloc(), text)?))?;
    for _ in 0..u64::MAX {
        match steps.pop() {
            Some(step) => {
                if take_step(rt, shell, &mut steps, &step)? == Next::Ends {
                    return Ok(Next::Ends);
                }
            }
            None => return Ok(Next::GoesOn),
        }
    }
    Ok(Next::GoesOn)
}

fn prompt(rt: &HostRuntime, quiet: bool) -> Result<()> {
    if !quiet {
        eprint!(rt; "> ")?;
    }
    Ok(())
}

// Answers what was read. Bytes that are no text are an error, and the next line is read.
fn answer_read(rt: &HostRuntime, shell: &mut Shell, read: io::Result<String>) -> Result<Next> {
    match read {
        Ok(text) => line(rt, shell, text.as_str()),
        Err(error) if error.kind() == io::ErrorKind::InvalidData => {
            let text = String::from_str(rt.alloc(), "the line is not UTF-8")?;
            show(rt, Err(Trouble::form(text)))?;
            Ok(Next::GoesOn)
        }
        Err(error) => Err(error.into()),
    }
}

fn read_lines(rt: &HostRuntime, shell: &mut Shell, quiet: bool) -> Result<()> {
    prompt(rt, quiet)?;
    for read in rt.lines(rt.alloc()) {
        if answer_read(rt, shell, read)? == Next::Ends {
            return Ok(());
        }
        prompt(rt, quiet)?;
    }
    Ok(())
}

// Answers the files that the arguments name, or else the lines of the standard input.
fn answer_all(rt: &HostRuntime, shell: &mut Shell) -> Result<()> {
    let mut quiet = false;
    let mut files = 0usize;
    for word in env::args(rt)?.skip(1) {
        if word.as_str() == "-q" {
            quiet = true;
        } else {
            files = files.saturating_add(1);
            let text = format!(in rt.alloc(); "load {word}")?;
            if line(rt, shell, text.as_str())? == Next::Ends {
                return Ok(());
            }
        }
    }
    if files == 0 {
        read_lines(rt, shell, quiet)?;
    }
    Ok(())
}

// Returns whether each check was answered `ok`.
fn session(rt: &HostRuntime) -> Result<bool> {
    let mut shell = Shell::new(rt.alloc())?;
    let answered = answer_all(rt, &mut shell);
    let holds = shell.failed_checks == 0;
    shell.let_go();
    answered?;
    Ok(holds)
}

fn main(rt: HostRuntime) -> ExitCode {
    match session(&rt) {
        Ok(true) => ExitCode::SUCCESS,
        _ => ExitCode::FAILURE,
    }
}
