//! The rules of a turn, edits of classes, and the hook after them.
ghost use Rattle.std.specs.Prelude.{◌≡◌, ◌⊎◌, false, not, All, IsTrue, IsErrAnd, IfOk, IfErr};
ghost use Rattle.slotted_slots.specs.Error.{IsShortage};
ghost use Rattle.slotted_graph.specs.Analysed.{LowersData};
ghost use Rattle.slotted_graph.specs.Extension.{ExtendsTo};
ghost use Rattle.slotted_rules.specs.Applying.{AreModified, AreRefusedBy, RefusesRules};
ghost use Rattle.slotted_rules.specs.RunLoops.{HasCalled};
ghost use Rattle.slotted_rules.specs.Turning.{Calls, RefusesTurn, RulesOnce};

use crate::hook::{Hook, HookStop};
use crate::{RewriteT, apply_rewrites};
use slotted_data::Analysis;
use slotted_graph::EGraph;
use slotted_languages::Language;
use slotted_slots::Error;
use std::alloc::Global;

// What the rules and the hook of a turn did.
#[derive(Drop)]
pub(crate) struct Called<T> {
    // Whether the rules and the edits after them changed the progress measure.
    pub(crate) changed: bool,
    // Why the hook stops the run, if it does.
    pub(crate) stop: Option<T>,
}

// Calls the hook. Returns why the hook stops the run, if it does.
fn call_hook<L: Language, N: Analysis<L>, T: Drop, H: Hook<L, N, T>>(
    alloc: Global,
    graph: &mut EGraph<L, N>,
    hook: &mut H,
    iterations: usize,
) -> Result<Option<T>, Error>
    requires { graph.old.failed ≡ false }
    ensures ok { IfOk result (λ o. H.leaves hook.old graph.old iterations hook.new graph.new o) }
    ensures refused { IfErr result
        (λ e. IsShortage e ⊎ H.gives_up hook.old graph.old iterations hook.new graph.new e) }
    ensures extends { IsTrue graph.new.failed ⊎ ExtendsTo graph.old graph.new }
    ensures lowers { IsTrue graph.new.failed ⊎ LowersData N.codes N.meaning graph.old graph.new }
    ensures fails { IsTrue graph.new.failed → IsErrAnd result IsShortage }
    ensures err { IfErr result (λ e. IsShortage e ⊎ H.refuses e) }
{
    match hook.call(alloc, graph, iterations) {
        Ok(()) => Ok(None),
        Err(HookStop::Stop(reason)) => Ok(Some(reason)),
        Err(HookStop::Refused(refusal)) => Err(refusal),
    }
}

// Applies the rules once, modifies classes, and then calls the hook.
pub(crate) fn apply_and_call<
    L: Language,
    N: Analysis<L>,
    T: Drop,
    H: Hook<L, N, T>,
    Q: RewriteT<L, N>,
>(
    alloc: Global,
    graph: &mut EGraph<L, N>,
    rules: &[Q],
    hook: &mut H,
    iterations: usize,
) -> Result<Called<T>, Error>
    requires well { graph.old.failed ≡ false }
    requires valid { All (λ r. Q.valid r graph.old) rules.now }
    ensures ok { IfOk result
        (λ c. HasCalled
        (RulesOnce Q.searches Q.applies (AreModified N.codes N.meaning N.may_ask N.modifies) rules.now)
        (Calls H.leaves)
        (graph.old, hook.old) iterations (graph.new, hook.new) (not c.changed) c.stop) }
    ensures refused { IfErr result
        (RefusesTurn (RefusesRules Q.searches Q.gives_up Q.applies Q.breaks_off rules.now)
        (RulesOnce Q.searches Q.applies (AreModified N.codes N.meaning N.may_ask N.modifies) rules.now)
        H.gives_up (Calls H.leaves) (λ _. ⊥) (graph.old, hook.old) iterations (graph.new, hook.new)) }
    ensures extends { IsTrue graph.new.failed ⊎ ExtendsTo graph.old graph.new }
    ensures lowers { IsTrue graph.new.failed ⊎ LowersData N.codes N.meaning graph.old graph.new }
    ensures fails { IsTrue graph.new.failed → IsErrAnd result IsShortage }
    ensures err { IfErr result (λ e. IsShortage e ⊎ AreRefusedBy Q.refuses rules.now e ⊎ H.refuses e) }
{
    let changed = apply_rewrites(alloc, graph, rules)?;
    let stop = call_hook(alloc, graph, hook, iterations)?;
    Ok(Called { changed, stop })
}
