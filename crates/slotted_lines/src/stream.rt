//! Streams: lines in, answers out.
ghost use Rattle.std.specs.Prelude.{◌≡◌, ℕ, List, IfSome, OnSome, IsErr, OnOk};
ghost use Rattle.std.specs.Str.{IsUtf8};
ghost use Rattle.std.specs.Io.BufRead.{strip_last};
ghost use Rattle.std.specs.Io.KnownBytes.{Appends, IsAtEnd, Keeps};
ghost use Rattle.slotted_lines.specs.States.{AreSearchable, state_of};
ghost use Rattle.slotted_lines.specs.Streams.{LineLeaves, LineWrites, SessionWrites, WritesFrom};

use crate::answering::answer_in;
use crate::session::Session;
use slotted_terms::expr::printing::Printable;
use std::alloc::Global;
use std::io::{BufRead, ErrorKind, Write};
use std::{io, mem};

/// Answers each line of `input` on `output`, over a new graph without rules. Each answer is written out before the next
/// line is read.
///
/// A read or a write that fails ends the session, and so do bytes that are not UTF-8 and want of memory for a line.
/// What was answered before stands.
pub fn answer_session<L: Printable, R: BufRead, W: Write>(
    alloc: Global,
    input: &mut R,
    output: &mut W,
) -> io::Result<()>
    ensures answers { OnOk result (IfSome (R.remaining input.old) (λ bytes. SessionWrites L.read L.written L.form bytes
        (Appends (W.contents output.old) (W.contents output.new)))) }
    ensures end { OnOk result (OnSome (R.remaining input.old) (IsAtEnd (R.remaining input.new))) }
{
    match Session::<L>::new(alloc) {
        Ok(mut session) => {
            let outcome = answer_each(alloc, &mut session, input, output);
            let _ = session.into_table();
            outcome
        }
        Err(_) => Err(io::Error::from(ErrorKind::OutOfMemory)),
    }
}

/// Answers each line as `answer_session` does, for a process that ends afterwards: the session is not taken apart, and
/// the process gives its memory back.
pub fn answer_last_session<L: Printable, R: BufRead, W: Write>(
    alloc: Global,
    input: &mut R,
    output: &mut W,
) -> io::Result<()>
    ensures answers { OnOk result (IfSome (R.remaining input.old) (λ bytes. SessionWrites L.read L.written L.form bytes
        (Appends (W.contents output.old) (W.contents output.new)))) }
    ensures end { OnOk result (OnSome (R.remaining input.old) (IsAtEnd (R.remaining input.new))) }
{
    match Session::<L>::new(alloc) {
        Ok(mut session) => {
            let outcome = answer_each(alloc, &mut session, input, output);
            mem::forget(session);
            outcome
        }
        Err(_) => Err(io::Error::from(ErrorKind::OutOfMemory)),
    }
}

// Answers each line over a session.
fn answer_each<L: Printable, R: BufRead, W: Write>(
    alloc: Global,
    session: &mut Session<L>,
    input: &mut R,
    output: &mut W,
) -> io::Result<()>
    requires { AreSearchable L.form (state_of session.old) }
    ensures answers { OnOk result (IfSome (R.remaining input.old) (λ bytes. WritesFrom L.read L.written L.form (state_of session.old) bytes
        (Appends (W.contents output.old) (W.contents output.new)))) }
    ensures end { OnOk result (OnSome (R.remaining input.old) (IsAtEnd (R.remaining input.new))) }
{
    let mut line = Vec::new(alloc);
    for _ in 0..u64::MAX {
        line.clear();
        if input.read_until(b'\n', &mut line)? == 0 {
            return Ok(());
        }
        answer_line(alloc, session, &line, output)?;
    }
    Err(io::Error::from(ErrorKind::FileTooLarge))
}

/// Answers one line, which may end in a line feed, on `output`, and writes the answer out. An empty line has no answer.
///
/// If the answer cannot be written, the line has been asked all the same.
pub fn answer_line<L: Printable, W: Write>(
    alloc: Global,
    session: &mut Session<L>,
    line: &[u8],
    output: &mut W,
) -> io::Result<()>
    requires { AreSearchable L.form (state_of session.old) }
    ensures valid { AreSearchable L.form (state_of session.new) }
    ensures answers { OnOk result
        ((bs : List ℕ) × LineWrites L.read L.written L.form (state_of session.old) (strip_last 10 line.now) bs (state_of session.new)
        × Appends (W.contents output.old) (W.contents output.new) bs) }
    ensures leaves { IsUtf8 (strip_last 10 line.now)
        → LineLeaves L.read L.written L.form (state_of session.old) (strip_last 10 line.now) (state_of session.new) }
    ensures not_text { ¬ (IsUtf8 (strip_last 10 line.now)) → IsErr result × (session.new ≡ session.old)
        × Keeps (W.contents output.old) (W.contents output.new) }
{
    let Ok(text) = str::from_utf8(without_line_feed(line)) else {
        return Err(io::Error::from(ErrorKind::InvalidData));
    };
    if text.is_empty() {
        return Ok(());
    }
    let told = answer_in(alloc, session, text);
    writeln!(output, "{told}")?;
    output.flush()
}

// Returns the line without the line feed at its end, if there is one.
fn without_line_feed(line: &[u8]) -> &[u8]
    ensures { result.now ≡ strip_last 10 line.now }
{
    line.strip_suffix(b"\n").unwrap_or(line)
}
