//! What `help` answers.
use crate::trouble::Trouble;
use std::alloc::Global;

const ALL: &str =
    "op TERM                  declares an operator by an example, as `op (sum n $i body)`; then others are refused
rule NAME: L => R        keeps a rule; `<=>` keeps both directions; ` if $x not in ?v and $y in ?w` may follow
sparing on, sparing off  whether the rules that follow pass over matches whose sides are found equal already
add T                    adds a term
union T == U             asserts an equation; ` because NAME` may follow
eq T == U                yes or no; `not decided` if the graph has too many symmetries
check T == U             as eq; a no is an error, and the status at the end is 1
explain T == U           a proof
chain T == U             the same as a chain of terms, with what each step changes between `[` and `]`
run [TURNS]              runs the rules, 30 turns and 10000 e-nodes if nothing is said; ` nodes N` or ` seconds S` may follow
cost OPERATOR N          what extract counts for an operator; 1 if nothing is said
extract T                the least cost of an equal term, and such a term
matches L                how many matches a pattern has
ops, rules, costs        what was declared; what the rules found and united
classes, stats           the e-classes as text; how many there are
symmetries               how many symmetries were met, and how many are open
dot [FILE]               a picture for Graphviz
load FILE                reads lines from a file
reset, quit              begins anew; ends
help WORD                an example";

// Returns an example of a command.
fn example(word: &str) -> Option<&'static str> {
    match word {
        "op" => Some(
            "op (sum n $i body)
  slots in front of a child bind in that child alone: here $i is bound in body, and not in n
  slots behind the last child are free: write (at a $i), and not (at $i a)
  op (row ..) takes any number of children",
        ),
        "rule" => Some(
            "rule eta: (lam $x (app ?f (var $x))) => ?f if $x not in ?f
  $x not in ?f: the slot $x does not occur in what stands for ?f
rule assoc: (add ?a (add ?b ?c)) <=> (add (add ?a ?b) ?c)
rule beta: (app (lam $x ?b) ?t) => ?b[(var $x) := ?t]",
        ),
        "sparing" => Some(
            "sparing on
  rules kept from then on add nothing for a match whose sides are found equal already, so a run makes fewer classes",
        ),
        "union" => Some("union (f a) == b because assumption"),
        "run" => Some(
            "run 10 nodes 5000
  one line a turn: e-nodes, classes, unions, and for each rule how many matches were united of those found",
        ),
        "cost" => Some("cost map 100"),
        "check" => Some("check (add a b) == (add b a)"),
        _ => None,
    }
}

/// Returns all commands, or an example of one.
pub fn told_help(alloc: Global, word: &str) -> Result<String, Trouble> {
    Ok(String::from_str(alloc, example(word).unwrap_or(ALL))?)
}
