//! Readers and writers that fail, that give or take little at once, and writers that wait.
use slotted_lines::answer_session;
use slotted_small::Small;
use std::alloc::Global;
use std::io;
use std::io::{BufReader, ErrorKind, Read, Write};
use std::process::Abort;
use std::test::Fail;

// Answers lines in the language of the program.
pub fn answer<W: Write>(alloc: Global, mut lines: &[u8], output: &mut W) -> io::Result<()> {
    answer_session::<Small, &[u8], W>(alloc, &mut lines, output)
}

// Three lines, of which the last one has no line feed, and their answers.
const LINES: &[u8] = b"add a\neq a == b\nadd b";

const ANSWERS: &[u8] = b"ok\nno\nok\n";

// A writer that takes so many writes, of so many bytes at most, and so many flushes. Then it fails. The bytes up to
// each flush are counted.
#[derive(Drop)]
struct Pipe {
    taken: Vec<u8>,
    writes: usize,
    at_once: usize,
    flushes: usize,
    flushed: Vec<usize>,
}

impl Pipe {
    fn new(alloc: Global, writes: usize, at_once: usize, flushes: usize) -> Pipe {
        Pipe {
            taken: Vec::new(alloc),
            writes,
            at_once,
            flushes,
            flushed: Vec::new(alloc),
        }
    }
}

impl Write for Pipe {
    fn write(&mut self, bytes: &[u8]) -> io::Result<usize> {
        if self.writes == 0 {
            return Err(io::Error::from(ErrorKind::BrokenPipe));
        }
        self.writes -= 1;
        let taken = bytes.get(..self.at_once).unwrap_or(bytes);
        self.taken.extend_from_slice(taken)?;
        Ok(taken.len())
    }

    fn flush(&mut self) -> io::Result<()> {
        if self.flushes == 0 {
            return Err(io::Error::from(ErrorKind::BrokenPipe));
        }
        self.flushes -= 1;
        self.flushed.push(self.taken.len())?;
        Ok(())
    }
}

// A reader that gives its bytes for so many reads, and then fails.
#[derive(Drop)]
struct Broken<'a> {
    bytes: &'a [u8],
    reads: usize,
}

impl Read for Broken<'_> {
    fn read(&mut self, buf: &mut [u8]) -> io::Result<usize> {
        if self.reads == 0 {
            return Err(io::Error::from(ErrorKind::BrokenPipe));
        }
        self.reads -= 1;
        self.bytes.read(buf)
    }
}

#[test]
fn bytes_that_are_no_text_end_it(rt: HostRuntime) {
    let mut output = Vec::new(rt.alloc());
    assert!(rt; answer(rt.alloc(), b"add a\n\xff\nadd a\n", &mut output).is_err());
    assert_eq!(rt; output.as_slice(), b"ok\n".as_slice());
}

// Answers the lines on a pipe. Returns whether all ended well: then the pipe took all answers, and else a beginning of
// them.
fn ends_well(rt: &impl Abort, alloc: Global, pipe: &mut Pipe) -> bool {
    let ends = answer(alloc, LINES, pipe).is_ok();
    assert!(rt; ANSWERS.starts_with(pipe.taken.as_slice()));
    assert!(rt; !ends || pipe.taken.as_slice() == ANSWERS);
    ends
}

// Returns how many writes are needed, if sixteen are enough.
fn writes_needed(rt: &impl Abort, alloc: Global) -> Option<usize> {
    for writes in 0..16usize {
        let mut output = Pipe::new(alloc, writes, usize::MAX, usize::MAX);
        if ends_well(rt, alloc, &mut output) {
            return Some(writes);
        }
    }
    None
}

// An answer takes one write or more.
#[test]
fn each_write_that_fails_ends_it(rt: HostRuntime) {
    assert!(rt; matches!(writes_needed(&rt, rt.alloc()), Some(3..=16)));
}

// If a write takes one byte, the others are written again. No byte is lost before a write fails.
#[test]
fn short_writes_go_on(rt: HostRuntime) {
    for writes in 0..ANSWERS.len() {
        let mut output = Pipe::new(rt.alloc(), writes, 1, usize::MAX);
        assert!(rt; !ends_well(&rt, rt.alloc(), &mut output), "at {writes}");
        assert!(rt; output.taken.len() == writes, "at {writes}");
    }
    let mut output = Pipe::new(rt.alloc(), ANSWERS.len(), 1, usize::MAX);
    assert!(rt; ends_well(&rt, rt.alloc(), &mut output));
}

// A write that takes nothing fails.
#[test]
fn a_write_that_takes_nothing_ends_it(rt: HostRuntime) {
    let mut output = Pipe::new(rt.alloc(), usize::MAX, 0, usize::MAX);
    assert!(rt; !ends_well(&rt, rt.alloc(), &mut output));
}

// Each answer is written before it is flushed.
#[test]
fn each_flush_that_fails_ends_it(rt: HostRuntime) {
    for flushes in 0..3usize {
        let mut output = Pipe::new(rt.alloc(), usize::MAX, usize::MAX, flushes);
        assert!(rt; !ends_well(&rt, rt.alloc(), &mut output), "at {flushes}");
        assert!(rt; output.taken.len() == 3 * (flushes + 1), "at {flushes}");
    }
    let mut output = Pipe::new(rt.alloc(), usize::MAX, usize::MAX, 3);
    assert!(rt; ends_well(&rt, rt.alloc(), &mut output));
}

// Answers the lines from a reader that gives one byte a read, for so many reads.
fn answer_of_reads(alloc: Global, reads: usize, output: &mut Vec<u8>) -> io::Result<()> {
    let broken = Broken {
        bytes: LINES,
        reads,
    };
    let mut input = BufReader::with_capacity(alloc, 1, broken)?;
    answer_session::<Small, _, _>(alloc, &mut input, output)
}

// Returns how many of these bytes are line feeds.
fn line_feeds(bytes: &[u8]) -> usize {
    bytes.iter().filter(|byte| **byte == b'\n').count()
}

// The lines that were read whole are answered. At the end of the bytes a read gives none: one such read ends the last
// line, and another one the session.
#[test]
fn each_read_that_fails_ends_it(rt: HostRuntime) {
    for reads in 0..LINES.len() + 2 {
        let mut output = Vec::new(rt.alloc());
        assert!(rt;
            answer_of_reads(rt.alloc(), reads, &mut output).is_err(),
            "at {reads}"
        );
        let whole = line_feeds(LINES.get(..reads).unwrap_or(LINES));
        let answered = if reads > LINES.len() { 3 } else { whole };
        assert!(rt;
            ANSWERS.get(..answered.saturating_mul(3)) == Some(output.as_slice()),
            "at {reads}"
        );
    }
    let mut output = Vec::new(rt.alloc());
    assert!(rt; answer_of_reads(rt.alloc(), LINES.len() + 2, &mut output).is_ok());
    assert_eq!(rt; output.as_slice(), ANSWERS);
}

// The reads of a reader that gives all at once.
#[test]
fn reads_that_fail_end_it(rt: HostRuntime) -> Result<(), Fail> {
    let mut output = Vec::new(rt.alloc());
    let broken = Broken {
        bytes: LINES,
        reads: 1,
    };
    let mut input = BufReader::new(rt.alloc(), broken)?;
    assert!(rt; answer_session::<Small, _, _>(rt.alloc(), &mut input, &mut output).is_err());
    assert_eq!(rt; output.as_slice(), b"ok\nno\n".as_slice());
    Ok(())
}

// If an answer is not written out, the one who asked over a pipe is kept waiting. The last line has no line feed.
#[test]
fn each_answer_is_written_out(rt: HostRuntime) {
    let mut output = Pipe::new(rt.alloc(), usize::MAX, usize::MAX, usize::MAX);
    assert!(rt; answer(rt.alloc(), b"add a\n\neq a == b", &mut output).is_ok());
    assert_eq!(rt; output.flushed.as_slice(), [3usize, 6].as_slice());
}
