//! A first program over a workspace: operators of one's own, a rule that fuses two maps, and a proof that is printed.
#![tactic(auto)]

use anyhow::Result;
use slotted_symbols::SymbolLang;
use slotted_workspace::{Limits, Workspace};

fn show(rt: &impl Print, workspace: &mut Workspace<SymbolLang>) -> Result<()> {
    workspace.rule_text("fuse: (map $x ?b (map $y ?c ?l)) => (map $y ?b[(var $x) := ?c] ?l)")?;
    let twice = workspace.add("(map $i (double (var $i)) (map $j (next (var $j)) xs))")?;
    let once = workspace.add("(map $k (double (next (var $k))) xs)")?;
    workspace.run(Limits::usual())?;
    let equal = workspace.eq(twice, once)?;
    println!(rt; "{equal}")?;
    print!(rt; "{}", workspace.explain(twice, once)?)?;
    let smallest = workspace.extract(twice)?;
    println!(rt; "{} nodes: {}", smallest.cost, smallest.text)?;
    Ok(())
}

fn main(rt: HostRuntime) -> Result<()> {
    let mut workspace: Workspace<SymbolLang> = Workspace::new(rt.alloc())?;
    let shown = show(&rt, &mut workspace);
    let _ = workspace.into_table();
    shown
}
