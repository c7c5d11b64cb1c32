//! The program `slotted_dot`: lines of the program `slotted` in, and a picture of the graph that they leave out. The
//! picture is in the DOT language.
#![tactic(auto)]

ghost use Rattle.slotted_lines.specs.States.{AreSearchable, state_of};

use slotted_lines::{Session, answer_line};
use slotted_pictures::graph_to_dot;
use slotted_slots::Error;
use slotted_small::Small;
use slotted_terms::expr::printing::Printable;
use std::alloc::Global;
use std::io::{BufRead, BufReader, BufWriter, ErrorKind, Write};
use std::process::ExitCode;
use std::{io, mem};

// Answers each line over a session, and writes no answer.
fn read_lines<L: Printable, R: BufRead>(
    alloc: Global,
    session: &mut Session<L>,
    input: &mut R,
) -> io::Result<()>
    requires { AreSearchable L.form (state_of session.old) }
{
    let mut unread = io::sink();
    let mut line = Vec::new(alloc);
    for _ in 0..u64::MAX {
        line.clear();
        if input.read_until(b'\n', &mut line)? == 0 {
            return Ok(());
        }
        answer_line(alloc, session, &line, &mut unread)?;
    }
    Err(io::Error::from(ErrorKind::FileTooLarge))
}

// Returns the picture of a graph, or the name of the error.
fn picture<L: Printable>(alloc: Global, session: &mut Session<L>) -> Result<String, Error> {
    let mut text = String::new(alloc);
    graph_to_dot(alloc, &mut session.graph, &mut text)?;
    Ok(text)
}

// Writes the picture of the graph that the lines leave, or a line with the name of the error.
fn draw_session<L: Printable, R: BufRead, W: Write>(
    alloc: Global,
    session: &mut Session<L>,
    input: &mut R,
    output: &mut W,
) -> io::Result<()>
    requires { AreSearchable L.form (state_of session.old) }
{
    read_lines(alloc, session, input)?;
    match picture(alloc, session) {
        Ok(text) => output.write_all(text.as_bytes())?,
        Err(error) => writeln!(output, "{}", error.name())?,
    }
    output.flush()
}

/// Draws the graph that the lines of `input` leave. For a graph that has failed, a line with the name of the error is
/// written.
///
/// The session is not taken apart, and its memory goes with the process.
pub fn draw_lines<L: Printable, R: BufRead, W: Write>(
    alloc: Global,
    input: &mut R,
    output: &mut W,
) -> io::Result<()> {
    match Session::<L>::new(alloc) {
        Ok(mut session) => {
            let outcome = draw_session(alloc, &mut session, input, output);
            mem::forget(session);
            outcome
        }
        Err(_) => Err(io::Error::from(ErrorKind::OutOfMemory)),
    }
}

fn draw_streams(rt: &HostRuntime) -> io::Result<()> {
    let alloc = rt.alloc();
    let mut input = BufReader::new(alloc, rt.reader())?;
    let mut output = BufWriter::new(alloc, io::writer(rt))?;
    draw_lines::<Small, _, _>(alloc, &mut input, &mut output)
}

fn main(rt: HostRuntime) -> ExitCode {
    match draw_streams(&rt) {
        Ok(()) => ExitCode::SUCCESS,
        Err(_) => ExitCode::FAILURE,
    }
}
