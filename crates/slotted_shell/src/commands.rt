//! The commands that answer by a text.
use crate::help::told_help;
use crate::rules::keep_rule;
use crate::shell::Shell;
use crate::trouble::Trouble;
use slotted_deciding::Verdict;
use slotted_slots::Error;
use slotted_workspace::ExplainedText;
use std::alloc::Global;

/// How many e-nodes a decision adds at most.
pub const VARIANTS: usize = 1_000;

/// Returns the answer to a line, by its first word and what follows.
pub fn answer(shell: &mut Shell, word: &str, rest: &str) -> Result<String, Trouble> {
    match word {
        "op" => shell.declare(rest),
        "rule" => keep_rule(shell, rest),
        "sparing" => set_sparing(shell, rest),
        "add" => {
            shell.add(rest)?;
            ok(shell.alloc)
        }
        "union" => unite(shell, rest),
        "eq" => Ok(String::from_str(shell.alloc, told(judged(shell, rest)?))?),
        "check" => check(shell, rest),
        "explain" => explain(shell, rest),
        "chain" => chain(shell, rest),
        "cost" => set_cost(shell, rest),
        "extract" => extract(shell, rest),
        "matches" => count_matches(shell, rest),
        _ => show(shell, word, rest),
    }
}

fn ok(alloc: Global) -> Result<String, Trouble> {
    Ok(String::from_str(alloc, "ok")?)
}

// Answers a line that only shows what there is.
fn show(shell: &mut Shell, word: &str, rest: &str) -> Result<String, Trouble> {
    match word {
        "ops" => told_ops(shell),
        "rules" => told_rules(shell),
        "costs" => told_costs(shell),
        "symmetries" => told_symmetries(shell),
        "stats" => told_stats(shell),
        "classes" => match shell.workspace.dump() {
            Ok(text) => Ok(String::from_str(shell.alloc, text.trim())?),
            Err(error) => Err(Trouble::of_call(shell.alloc, &error, rest)),
        },
        "dot" => picture(shell),
        "help" => told_help(shell.alloc, rest),
        _ => Err(Trouble::said(
            0,
            "Command",
            format!(in shell.alloc; "`{word}` is none; `help` lists all")?,
        )),
    }
}

// Makes the rules sparing that are kept from now on, or no longer.
fn set_sparing(shell: &mut Shell, text: &str) -> Result<String, Trouble> {
    let alloc = shell.alloc;
    let sparing = match text {
        "on" => true,
        "off" => false,
        _ => {
            let wanted = String::from_str(alloc, "`sparing on` or `sparing off` is wanted")?;
            return Err(Trouble::form(wanted));
        }
    };
    shell.workspace.set_sparing(sparing);
    ok(alloc)
}

fn unite(shell: &mut Shell, text: &str) -> Result<String, Trouble> {
    let (equation, because) = match text.split_once(" because ") {
        Some((equation, because)) => (equation, Some(because)),
        None => (text, None),
    };
    let (left, right) = shell.add_both(equation)?;
    let united = match because {
        Some(because) => shell.workspace.union_because(left, right, because),
        None => shell.workspace.union(left, right),
    };
    match united {
        Ok(united) => Ok(String::from_str(shell.alloc, if united { "true" } else { "false" })?),
        Err(error) => Err(Trouble::of_call(shell.alloc, &error, text)),
    }
}

fn judged(shell: &mut Shell, text: &str) -> Result<Verdict, Trouble> {
    let (left, right) = shell.add_both(text)?;
    match shell.workspace.decided_eq(left, right, VARIANTS) {
        Ok(verdict) => Ok(verdict),
        Err(error) => Err(Trouble::of_call(shell.alloc, &error, text)),
    }
}

fn told(verdict: Verdict) -> &'static str {
    match verdict {
        Verdict::Yes => "yes",
        Verdict::No => "no",
        Verdict::Open => "not decided",
    }
}

fn check(shell: &mut Shell, text: &str) -> Result<String, Trouble> {
    let verdict = judged(shell, text)?;
    if verdict == Verdict::Yes {
        return ok(shell.alloc);
    }
    shell.failed_checks = shell.failed_checks.saturating_add(1);
    if verdict == Verdict::Open {
        return Err(undecided(shell.alloc, text)?);
    }
    let told = format!(in shell.alloc; "not found equal: {text}")?;
    Err(Trouble::said(12, "NotFound", told))
}

fn undecided(alloc: Global, text: &str) -> Result<Trouble, Trouble> {
    Ok(Trouble::said(
        15,
        "NotDecided",
        format!(in alloc; "the graph has too many symmetries to decide: {text}")?,
    ))
}

fn explain(shell: &mut Shell, text: &str) -> Result<String, Trouble> {
    let alloc = shell.alloc;
    let (left, right) = shell.add_both(text)?;
    match shell.workspace.decided_explain(left, right, VARIANTS) {
        Ok(ExplainedText::Proved(proof)) => Ok(String::from_str(alloc, proof.trim_end())?),
        Ok(ExplainedText::Unequal) => Err(Trouble::of_text(alloc, &Error::NotEqual, text)),
        Ok(ExplainedText::Undecided) => Err(undecided(alloc, text)?),
        Err(error) => Err(Trouble::of_call(alloc, &error, text)),
    }
}

// Answers by a proof as a chain of terms. The graph is decided if need be, as for `explain`. Terms that are equal by a symmetry
// alone have no chain, and are answered as `explain` does.
fn chain(shell: &mut Shell, text: &str) -> Result<String, Trouble> {
    let alloc = shell.alloc;
    let (left, right) = shell.add_both(text)?;
    match shell.workspace.decided_eq(left, right, VARIANTS) {
        Ok(Verdict::Open) => return Err(undecided(alloc, text)?),
        Ok(_) => {}
        Err(error) => return Err(Trouble::of_call(alloc, &error, text)),
    }
    match shell.workspace.explain_marked(left, right) {
        Ok(chain) => Ok(chain),
        Err(_) => explain(shell, text),
    }
}

fn set_cost(shell: &mut Shell, text: &str) -> Result<String, Trouble> {
    let alloc = shell.alloc;
    if let Some((word, number)) = text.split_once(' ')
        && let Ok(weight) = number.parse::<u64>()
    {
        return match shell.weights.set(alloc, word, weight) {
            Ok(()) => ok(alloc),
            Err(error) => Err(Trouble::of_text(alloc, &error, text)),
        };
    }
    Err(Trouble::form(String::from_str(
        alloc,
        "an operator and a number are wanted, as in `cost map 100`",
    )?))
}

fn extract(shell: &mut Shell, text: &str) -> Result<String, Trouble> {
    let alloc = shell.alloc;
    let handle = shell.add(text)?;
    let weights = match shell.weights.copy(alloc) {
        Ok(weights) => weights,
        Err(error) => return Err(Trouble::of_text(alloc, &error, text)),
    };
    match shell.workspace.extract_decided(handle, weights, VARIANTS) {
        Ok(found) => {
            let cost = found.cost;
            let term = &found.text;
            let note = if found.is_decided {
                ""
            } else {
                " (not decided)"
            };
            Ok(format!(in alloc; "{cost} {term}{note}")?)
        }
        Err(error) => Err(Trouble::of_call(alloc, &error, text)),
    }
}

fn count_matches(shell: &mut Shell, text: &str) -> Result<String, Trouble> {
    let alloc = shell.alloc;
    shell.checked(text)?;
    match shell.workspace.count_matches(text) {
        Ok(count) => Ok(format!(in alloc; "{count}")?),
        Err(error) => Err(Trouble::of_call(alloc, &error, text)),
    }
}

fn picture(shell: &mut Shell) -> Result<String, Trouble> {
    match shell.workspace.picture() {
        Ok(text) => Ok(String::from_str(shell.alloc, text.trim_end())?),
        Err(error) => Err(Trouble::of_call(shell.alloc, &error, "dot")),
    }
}

fn told_ops(shell: &Shell) -> Result<String, Trouble> {
    let mut told = String::new(shell.alloc);
    for signature in shell.signatures.all() {
        told.push_str(if told.is_empty() { "op " } else { "\nop " })?;
        told.push_str(signature.example())?;
    }
    Ok(told)
}

// Returns each rule as it was written, and what it found and united so far.
fn told_rules(shell: &Shell) -> Result<String, Trouble> {
    let alloc = shell.alloc;
    let mut told = String::new(alloc);
    for rule in &shell.rules {
        let name = &rule.name;
        let united = rule.united;
        let found = rule.found;
        let text = &rule.text;
        let line = if text.is_empty() {
            format!(in alloc; "  {name}: {united} of {found}")?
        } else {
            format!(in alloc; "rule {text}\n  {name}: {united} of {found}")?
        };
        told.push_str(if told.is_empty() { "" } else { "\n" })?;
        told.push_str(line.as_str())?;
    }
    Ok(told)
}

fn told_costs(shell: &Shell) -> Result<String, Trouble> {
    let alloc = shell.alloc;
    let mut told = String::new(alloc);
    for (word, weight) in shell.weights.as_slice() {
        let word = word.as_str();
        let line = format!(in alloc; "cost {word} {weight}")?;
        told.push_str(if told.is_empty() { "" } else { "\n" })?;
        told.push_str(line.as_str())?;
    }
    Ok(told)
}

fn told_symmetries(shell: &Shell) -> Result<String, Trouble> {
    match shell.workspace.symmetries() {
        Ok(count) => {
            let met = count.met;
            let open = count.open;
            Ok(format!(in shell.alloc; "{met} {open}")?)
        }
        Err(error) => Err(Trouble::of_call(shell.alloc, &error, "symmetries")),
    }
}

fn told_stats(shell: &Shell) -> Result<String, Trouble> {
    let graph = shell.workspace.graph();
    let nodes = graph.total_number_of_nodes();
    let progress = graph.progress();
    let live = progress.number_of_live_classes;
    let made = progress.number_of_classes;
    let proofs = graph.proof_count();
    let rules = shell.rules.len();
    Ok(format!(in shell.alloc;
        "{nodes} e-nodes, {live} classes of {made} made, {proofs} steps of proofs, {rules} rules"
    )?)
}
