//! The script: its steps in order, and what each refusal leaves.
use crate::steps::{
    add, apply, count_costs, explain, give_term, list_nodes, name_last, run, unite,
};
use slotted_graph::EGraph;
use slotted_languages::Language;
use slotted_rules::{Rewrite, SlotFreeIn, slot_free_in};
use slotted_slots::{AppliedId, Error, SlotTable};
use slotted_terms::expr::RecExpr;
use std::alloc::Global;

// The term that is added, the sides of the union, and the terms whose equality is explained.
const TERMS: [&str; 5] = [
    "(lam $x (app (f $x $y) (g $x)))",
    "(f $x $y)",
    "(g $x)",
    "(f $a $b)",
    "(f $a $c)",
];

/// The steps, in order.
pub const STEPS: [&str; 9] = [
    "name", "add", "unite", "explain", "nodes", "term", "costs", "apply", "run",
];

// Returns whether a step writes. If a write is refused, the graph has failed.
fn is_write(step: &str) -> bool {
    matches!(step, "add" | "unite" | "explain" | "apply" | "run")
}

// The terms and rules that the steps are about.
#[derive(Drop)]
struct Asked<L: Language> {
    terms: Vec<RecExpr<L>>,
    rules: Vec<Rewrite<L, SlotFreeIn>>,
}

fn read_terms<L: Language>(alloc: Global, table: &mut SlotTable) -> Result<Vec<RecExpr<L>>, Error> {
    let mut terms = Vec::new(alloc);
    for text in TERMS {
        terms.push(RecExpr::parse(alloc, text, table)?)?;
    }
    Ok(terms)
}

// Returns the rule that takes the lambda from a function.
fn read_rules<L: Language>(
    alloc: Global,
    table: &mut SlotTable,
) -> Result<Vec<Rewrite<L, SlotFreeIn>>, Error> {
    let slot = table.named("x")?;
    let condition = slot_free_in(alloc, slot, "f")?;
    let rule = Rewrite::new_if(
        alloc,
        "eta",
        "(lam $x (app ?f (var $x)))",
        "?f",
        condition,
        table,
    )?;
    let mut rules = Vec::new(alloc);
    rules.push(rule)?;
    Ok(rules)
}

// Returns the terms and rules of the steps. The first name that is read is `x`.
fn read<L: Language>(alloc: Global, table: &mut SlotTable) -> Result<Asked<L>, Error> {
    let terms = read_terms(alloc, table)?;
    let rules = read_rules(alloc, table)?;
    Ok(Asked { terms, rules })
}

// Returns the answer of a step over two terms.
fn ask_of_terms<L: Language>(
    alloc: Global,
    graph: &mut EGraph<L>,
    terms: &[RecExpr<L>],
    id: &mut AppliedId,
    step: &str,
) -> Result<bool, Error> {
    let [whole, left, right, first, second] = terms else {
        return Err(Error::NotATerm);
    };
    match step {
        "add" => add(graph, whole, id),
        "unite" => unite(graph, left, right),
        "explain" => explain(graph, first, second),
        "nodes" => list_nodes(graph, id, whole),
        "term" => give_term(alloc, graph, id, whole),
        _ => count_costs(alloc, graph, id),
    }
}

// Takes a step. Returns whether the answer is the one for ample memory and slots.
fn take<L: Language>(
    alloc: Global,
    graph: &mut EGraph<L>,
    asked: &Asked<L>,
    id: &mut AppliedId,
    last: &str,
    step: &str,
) -> Result<bool, Error> {
    match step {
        "name" => name_last(graph, last),
        "apply" => apply(alloc, graph, &asked.rules),
        "run" => run(alloc, graph, &asked.rules),
        _ => ask_of_terms(alloc, graph, &asked.terms, id, step),
    }
}

/// The ending of the script.
#[derive(Clone, Copy)]
pub struct Ending {
    /// The first step that was refused, if any was.
    pub refused: Option<&'static str>,
    /// How many steps were refused before the graph failed.
    pub refusals: usize,
    /// Whether the graph has failed.
    pub failed: bool,
    /// Whether each step was answered or refused as it has to be.
    pub right: bool,
}

// Returns the number of the error, or 0 if a step has the answer for ample memory and slots.
fn refusal(outcome: &Result<bool, Error>) -> u8 {
    match outcome {
        Ok(true) => 0,
        Ok(false) => u8::MAX,
        Err(e) => e.number(),
    }
}

// Returns whether a step that was refused, and left the graph as it was, is answered as it has to be if it is asked
// again. One growth at most is refused, but no slot comes back.
fn is_answered_again<L: Language>(
    alloc: Global,
    graph: &mut EGraph<L>,
    asked: &Asked<L>,
    id: &mut AppliedId,
    step: &str,
    ended: u8,
) -> bool {
    let again = refusal(&take(alloc, graph, asked, id, "0", step));
    again == (if ended == 1 { 0 } else { ended }) && !graph.is_failed()
}

// Takes a step, and once more if the step was refused and the graph has not failed, since nothing was asserted then.
// Returns whether all is as it has to be.
fn goes_on<L: Language>(
    alloc: Global,
    graph: &mut EGraph<L>,
    asked: &Asked<L>,
    id: &mut AppliedId,
    last: &str,
    step: &'static str,
    ended: u8,
    ending: &mut Ending,
) -> bool {
    let asserted = graph.asserted().len();
    let number = refusal(&take(alloc, graph, asked, id, last, step));
    ending.failed = graph.is_failed();
    if number == 0 {
        return !ending.failed;
    }
    ending.refusals = ending.refusals.saturating_add(1);
    if ending.refused.is_none() {
        ending.refused = Some(step);
    }
    if ending.failed {
        return number == ended && is_write(step);
    }
    number == ended
        && !is_write(step)
        && graph.asserted().len() == asserted
        && is_answered_again(alloc, graph, asked, id, step, ended)
}

// Returns whether a failed graph refuses each step, also those that were answered before.
fn refuses_all<L: Language>(
    alloc: Global,
    graph: &mut EGraph<L>,
    asked: &Asked<L>,
    id: &mut AppliedId,
) -> bool {
    for step in STEPS {
        let number = refusal(&take(alloc, graph, asked, id, "0", step));
        if number != 3 || !graph.is_failed() {
            return false;
        }
    }
    true
}

// Takes the steps in order, up to one after which the graph has failed, or that is not as it has to be.
fn walk<L: Language>(
    alloc: Global,
    graph: &mut EGraph<L>,
    asked: &Asked<L>,
    id: &mut AppliedId,
    last: &str,
    ended: u8,
    ending: &mut Ending,
) {
    for step in STEPS {
        ending.right = goes_on(alloc, graph, asked, id, last, step, ended, ending);
        if ending.failed || !ending.right {
            return;
        }
    }
}

// Takes the steps over a graph from a null id on, and then over the graph that has failed.
fn walk_from_null<L: Language>(
    alloc: Global,
    graph: &mut EGraph<L>,
    asked: &Asked<L>,
    last: &str,
    ended: u8,
) -> Ending {
    let mut id = AppliedId::null(alloc);
    let mut ending = Ending {
        refused: None,
        refusals: 0,
        failed: false,
        right: true,
    };
    walk(alloc, graph, asked, &mut id, last, ended, &mut ending);
    if ending.failed {
        ending.right = ending.right && refuses_all(alloc, graph, asked, &mut id);
    }
    ending
}

// The names that are read, in their order.
const NAMES: [(&str, u32); 5] = [("x", 2), ("y", 6), ("a", 10), ("b", 14), ("c", 18)];

// Returns whether the table has the names that were read.
fn has_names(table: &mut SlotTable) -> Result<bool, Error> {
    for (name, raw) in NAMES {
        if table.named(name)?.raw() != raw {
            return Ok(false);
        }
    }
    Ok(true)
}

// Takes the steps over a graph with this table, which comes out in the end.
fn walk_with<L: Language>(
    alloc: Global,
    table: SlotTable,
    asked: &Asked<L>,
    last: &str,
    ended: u8,
) -> Result<Ending, Error> {
    let mut graph: EGraph<L> = EGraph::new(alloc, table, ())?;
    let mut ending = walk_from_null(alloc, &mut graph, asked, last, ended);
    let mut table = graph.into_table();
    ending.right = ending.right && has_names(&mut table)?;
    Ok(ending)
}

// Reads the terms and rules of the steps, once more if a growth is refused.
fn read_again<L: Language>(
    alloc: Global,
    table: &mut SlotTable,
    ended: u8,
) -> Result<Asked<L>, Error> {
    match read(alloc, table) {
        Ok(asked) => Ok(asked),
        Err(e) if e.number() == ended => read(alloc, table),
        Err(e) => Err(e),
    }
}

/// Takes the steps over a graph with a new table, in which a slot is named first. Returns how the script ended. `ended`
/// is the number of the error that may come.
pub fn walk_over<L: Language>(alloc: Global, last: &str, ended: u8) -> Result<Ending, Error> {
    let mut table = SlotTable::new(alloc);
    let asked: Asked<L> = read_again(alloc, &mut table, ended)?;
    walk_with(alloc, table, &asked, last, ended)
}
