//! The words of questions, and how they are answered.
use crate::found::{make_side, stays};
use crate::graphs::{parted, slot, yes};
use crate::ids::{are_counted, holds, related, sides_related, turn, unite_because};
use crate::nodes::is_known;
use crate::reported::{are_its, has_each_once, has_left_size, is_within_bounds, number_of};
use crate::steps;
use crate::terms::{canonical, dumped, is_null_inside, printed};
use slotted_graph::EGraph;
use slotted_languages::Language;
use slotted_proofs::{Equation, ProvenEq};
use slotted_slots::{AppliedId, Error};
use slotted_terms::expr::printing::Printable;
use std::alloc::Global;

// What each question stands for: words that are asked in turn, up to the first that is not answered by yes. What
// follows the question is their argument.
const MEANINGS: &str = "ids = make put, make put right, related
found = make put, make put right, turn find, turn find right, is same
own = make put, turn own, is valid
kept = make put, is alive
union = make put, make put right, unite
unite found = make put, make put right, turn find, join
unite = make put, make put right, turn change, join
full = make put, make put right, turn change, is full
valid = make put, make put right, turn change, is valid
changed = make put, make put right, turn change, related
assert = make put, make put right, step
reflexive = make put, make put right, step
symmetric = make put, make put right, step
transitive = make put, make put right, step
congruent = make put, make put right, step
short = make put, make put right, turn shorten, step
explain = explain
number = listed
graph = graph
node found = make put, make sought right, sought, related
node added = make node, make put right, is same, make sought right, is same
node syn = make syn, make put right, is same
node first = make node, is first
node valid = known node
node term = known term
class met = make put, make add right, turn find, is same
class alive = make put, is alive
class settled = make put, make put right, turn find, is alive, is narrow, is equal, turn find right, turn find, is same
class kept = make sought, stays, is same
print canonical = make put, text canonical
print found = make put, turn find, text canonical
print nulls = make put, nulls
print = text written
count children = make put, number children
count slots = make put, number slots
count = number counted
report nodes = make put, number nodes
report set = make put, number members
report found set = make put, turn find, number members
report all sets = number sets
report applied = make put, turn find, applied
report check = is checked
report = number filed
dump = text dumped";

/// A question, its argument, and the two texts that it is about.
#[derive(Clone, Copy)]
pub struct Question<'a> {
    /// The name of a proof step and its parts, if the question is about one.
    pub step: &'a str,
    /// What follows the name of the question.
    pub argument: &'a str,
    /// The left text.
    pub left: &'a str,
    /// The right text, or the left one once more.
    pub right: &'a str,
}

/// Returns the words that a question stands for, and their argument.
pub fn meaning(ask: &str) -> (&'static str, &str) {
    for line in MEANINGS.lines() {
        let (name, words) = parted(line, " = ");
        if let Some(argument) = ask.strip_prefix(name) {
            return (words, argument.trim_start());
        }
    }
    ("none", ask)
}

// Returns the answer to a test, or the refusal.
fn told(holds: Result<bool, Error>) -> Result<&'static str, Error> {
    match holds {
        Ok(holds) => Ok(yes(holds)),
        Err(e) => Err(e),
    }
}

// Returns yes for what was done, or the refusal.
fn done(outcome: Result<(), Error>) -> Result<&'static str, Error> {
    match outcome {
        Ok(()) => Ok("yes"),
        Err(e) => Err(e),
    }
}

// Writes a text as the answer.
fn write(out: &mut String, text: Result<String, Error>) -> Result<&'static str, Error> {
    let text = text?;
    out.push_str(text.as_str())?;
    Ok("")
}

// Writes a number as the answer.
fn write_number(
    alloc: Global,
    out: &mut String,
    number: Result<usize, Error>,
) -> Result<&'static str, Error> {
    let number = number?;
    write(out, text_of_number(alloc, number))
}

// Returns a number as a text.
fn text_of_number(alloc: Global, number: usize) -> Result<String, Error> {
    Ok(format!(in alloc; "{number}")?)
}

// Returns whether the graph knows the slot of this name without having read it.
fn knows<L: Language>(alloc: Global, graph: &EGraph<L>, name: &str) -> Result<bool, Error> {
    let slot = slot(alloc, name)?;
    Ok(graph.table().knows(slot))
}

// Answers a question on the graph itself.
fn asked_of_graph<L: Language>(
    alloc: Global,
    graph: &EGraph<L>,
    ask: &str,
) -> Result<&'static str, Error> {
    match parted(ask, " ") {
        ("knows", name) => told(knows(alloc, graph, name)),
        ("null", _) => Ok(yes(graph.is_valid(&AppliedId::null(alloc)))),
        ("counted", _) => told(are_counted(graph)),
        ("once", _) => told(has_each_once(graph)),
        ("turned", _) => Ok(yes(graph.last_rebuild().turns > 0)),
        ("within", _) => Ok(yes(is_within_bounds(graph))),
        ("left", _) => Ok(yes(has_left_size(graph))),
        ("sides", number) => sides_related(graph, number.parse::<usize>().unwrap_or(0)),
        _ => Ok(yes(graph.is_failed())),
    }
}

// Returns whether a look-up found an id.
fn found(alloc: Global, id: &AppliedId) -> &'static str {
    if *id == AppliedId::null(alloc) {
        "none"
    } else {
        "yes"
    }
}

// Answers a question on the two ids alone.
fn asked_of_ids<L: Language>(
    alloc: Global,
    graph: &mut EGraph<L>,
    sides: &mut Equation,
    question: &Question,
    word: &str,
) -> Result<&'static str, Error> {
    match word {
        "related" => related(graph, &sides.l, &sides.r),
        "unite" => told(unite_because(alloc, graph, sides, question.argument)),
        "join" => told(unite_because(alloc, graph, sides, "")),
        "stays" => told(stays(alloc, graph, &mut sides.r, question.right)),
        "sought" => Ok(found(alloc, &sides.r)),
        "nulls" => told(is_null_inside(alloc, graph, &sides.l)),
        "applied" => told(are_its(alloc, graph, &sides.l)),
        _ => asked_of_graph(alloc, graph, question.argument),
    }
}

// Returns what is written of an id, or of a text.
fn text<L: Printable>(
    alloc: Global,
    graph: &mut EGraph<L>,
    id: &AppliedId,
    question: &Question,
    word: &str,
) -> Result<String, Error> {
    match word {
        "canonical" => canonical(alloc, graph, id),
        "dumped" => dumped(alloc, graph),
        _ => printed(alloc, graph, question.argument, question.left),
    }
}

// Asks a word that changes the ids, or that is answered by a number or a text.
fn asked_of_words<L: Printable>(
    alloc: Global,
    graph: &mut EGraph<L>,
    sides: &mut Equation,
    question: &Question,
    word: &str,
    out: &mut String,
) -> Result<&'static str, Error> {
    match parted(word, " ") {
        ("make", how) => done(make_side(alloc, graph, sides, how, question)),
        ("turn", how) => done(turn(alloc, graph, sides, how, question.argument)),
        ("is", how) => told(holds(alloc, graph, sides, how, question.argument)),
        ("text", how) => write(out, text(alloc, graph, &sides.l, question, how)),
        ("number", of) => {
            write_number(
                alloc,
                out,
                number_of(graph, &sides.l, of, question.argument),
            )
        }
        _ => asked_of_ids(alloc, graph, sides, question, word),
    }
}

/// Asks a word. Returns the answer, which is empty if it was written.
pub fn asked<L: Printable>(
    alloc: Global,
    graph: &mut EGraph<L>,
    other: &mut EGraph<L>,
    known: &mut Vec<ProvenEq>,
    sides: &mut Equation,
    question: &Question,
    word: &str,
    out: &mut String,
) -> Result<&'static str, Error> {
    match parted(word, " ") {
        ("explain", _) => steps::explained(graph, known, question.left, question.right),
        ("step", _) => steps::answer(alloc, graph, known, question.step, sides),
        ("listed", _) => steps::numbered(graph, known, question.argument),
        ("known", what) => told(is_known(alloc, graph, other, what, question)),
        _ => asked_of_words(alloc, graph, sides, question, word, out),
    }
}
