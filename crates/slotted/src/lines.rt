//! Refused memory while lines are answered. `rt try --test --fail-alloc N` refuses the Nth growth.
use crate::streams::answer;
use std::alloc::Global;
use std::process::Abort;

// Answers four lines. Returns whether all ended well. A refusal changes no other answer.
fn ends_well(rt: &impl Abort, alloc: Global) -> bool {
    let mut output = Vec::new(alloc);
    let lines =
        b"add (lam $x (app (f $x $y) (g $x)))\nadd a\neq (lam $x a) == (lam $y a)\nexplain (lam $x a) == (lam $y a)\n";
    let is_read = answer(alloc, lines, &mut output).is_ok();
    assert!(rt; !output.contains(&b'n'));
    is_read && output.as_slice() == b"ok\nok\nyes\n0: (lam $0 a) = (lam $0 a) by refl\n".as_slice()
}

// One growth at most is refused. So the lines are answered when they are asked once more.
#[test]
fn refused_memory_is_answered(rt: HostRuntime) {
    assert!(rt; ends_well(&rt, rt.alloc()) || ends_well(&rt, rt.alloc()));
}
