// The program `slotted`: one line in, one answer out.
#![tactic(auto)]

#[cfg(test)]
mod deep;
#[cfg(test)]
mod large;
#[cfg(test)]
mod lines;
#[cfg(test)]
mod messages;
#[cfg(test)]
mod permutations;
#[cfg(test)]
mod streams;

ghost use Rattle.std.specs.Prelude.{◌≡◌, IfOk, IfErr, IfSome, OnSome, OnOk};
ghost use Rattle.std.specs.Io.KnownBytes.{Appends, IsAtEnd};
ghost use Rattle.slotted_small.specs.Small.{small_form, small_read};
ghost use Rattle.slotted_small.specs.SmallWritten.{small_written};
ghost use Rattle.slotted_lines.specs.Streams.{SessionWrites};

use slotted_lines::answer_last_session;
use slotted_small::Small;
use std::alloc::Global;
use std::io;
use std::io::{BufRead, BufReader, BufWriter, Write};
use std::process::ExitCode;

/// Answers each line of `input` on `output`, up to the end of the input. The lines share one graph over the language of
/// `slotted_small`, and its rules.
///
/// Each answer is written out before the next line is read. A read or a write that fails ends the session, and so do
/// bytes that are not UTF-8 and want of memory for a line. What was answered before stands.
pub fn answer_lines<R: BufRead, W: Write>(
    alloc: Global,
    input: &mut R,
    output: &mut W,
) -> io::Result<()>
    ensures answers { OnOk result (IfSome (R.remaining input.old) (λ bytes. SessionWrites small_read small_written small_form bytes
        (Appends (W.contents output.old) (W.contents output.new)))) }
    ensures end { OnOk result (OnSome (R.remaining input.old) (IsAtEnd (R.remaining input.new))) }
{
    answer_last_session::<Small, R, W>(alloc, input, output)
}

fn answer_streams(rt: &HostRuntime) -> io::Result<()> {
    let alloc = rt.alloc();
    let mut input = BufReader::new(alloc, rt.reader())?;
    let mut output = BufWriter::new(alloc, io::writer(rt))?;
    answer_lines(alloc, &mut input, &mut output)
}

// Returns the status at the end of a run: 0 if the run ended well, else 1.
fn status_of(outcome: &io::Result<()>) -> ExitCode
    ensures ok { IfOk outcome.now (λ _. result.status ≡ 0) }
    ensures err { IfErr outcome.now (λ _. result.status ≡ 1) }
{
    match outcome {
        Ok(()) => ExitCode::SUCCESS,
        Err(_) => ExitCode::FAILURE,
    }
}

fn main(rt: HostRuntime) -> ExitCode {
    status_of(&answer_streams(&rt))
}
