//! Patterns are compared and hashed along lists of the patterns inside them. Only where memory for these is refused, a call goes down a pattern by
//! calls of itself.
ghost use Rattle.std.specs.Prelude.{◌≡◌, ◌↔◌, IsTrue, map, fold, flat_map};
ghost use Rattle.std.specs.Cmp.Lexicographic.{pointwise};
ghost use Rattle.slotted_patterns.specs.Compared.{head_eq, head_input, pattern_eq, pattern_equiv, pattern_input, pattern_per, patterns_alike};
ghost use Rattle.slotted_patterns.specs.Shape.{head, shape};
ghost use Rattle.slotted_patterns.specs.View.{tree_of};

use super::{Pattern, all_inside};
use slotted_languages::language::Language;
use std::hash::{Hash, Hasher};

// Whether two patterns are equal but for what stands inside them.
fn same_heads<L: Language>(one: &Pattern<L>, two: &Pattern<L>) -> bool
    ensures { result ≡ head_eq L.eq (head (shape one.now)) (head (shape two.now)) }
{
    match (one, two) {
        (Pattern::ENode(one, ones), Pattern::ENode(two, twos)) => {
            one == two && ones.len() == twos.len()
        }
        (Pattern::PVar(one), Pattern::PVar(two)) => one.as_str() == two.as_str(),
        (Pattern::Subst(_, _, _), Pattern::Subst(_, _, _)) => true,
        _ => false,
    }
}

// Whether the patterns of two lists are equal in pairs but for what stands inside them.
fn same_lists<L: Language>(ones: &[&Pattern<L>], twos: &[&Pattern<L>]) -> bool
    ensures { result ≡ pointwise (head_eq L.eq) (map (λ p. head (shape p.now)) ones.now) (map (λ p. head (shape p.now)) twos.now) }
{
    if ones.len() != twos.len() {
        return false;
    }
    for k in 0..ones.len() {
        if !same_heads(ones[k], twos[k]) {
            return false;
        }
    }
    true
}

// Whether two patterns are equal, by calls of itself.
fn equal_by_calls<L: Language>(one: &Pattern<L>, two: &Pattern<L>) -> bool
    ensures { result ≡ pattern_eq L.eq one.now two.now }
{
    if !same_heads(one, two) {
        return false;
    }
    match (one, two) {
        (Pattern::ENode(_, ones), Pattern::ENode(_, twos)) => {
            for k in 0..ones.len() {
                if !equal_by_calls(&ones[k], &twos[k]) {
                    return false;
                }
            }
            true
        }
        (
            Pattern::Subst(body, place, value),
            Pattern::Subst(other_body, other_place, other_value),
        ) => {
            if !equal_by_calls(body, other_body) {
                return false;
            }
            if !equal_by_calls(place, other_place) {
                return false;
            }
            equal_by_calls(value, other_value)
        }
        _ => true,
    }
}

// Whether two patterns are equal.
fn equal<L: Language>(one: &Pattern<L>, two: &Pattern<L>) -> bool
    ensures { result ≡ pattern_eq L.eq one.now two.now }
{
    let alloc = one.allocator();
    match (all_inside(alloc, one), all_inside(alloc, two)) {
        (Ok(ones), Ok(twos)) => same_lists(&ones, &twos),
        _ => equal_by_calls(one, two),
    }
}

impl<L: Language> PartialEq for Pattern<L> {
    ghost eq = { pattern_eq L.eq };

    ghost laws = { pattern_per L.PartialEq.laws };

    fn eq(&self, other: &Self) -> bool
        ensures value { result ≡ pattern_eq L.eq self.now other.now }
        ensures means { IsTrue result ↔ tree_of L.form self.now ≡ tree_of L.form other.now }
    {
        equal(self, other)
    }
}

impl<L: Language> Eq for Pattern<L> {
    ghost laws = { pattern_equiv L.Eq.laws };
}

// Feeds a pattern without what stands inside it.
fn hash_head<L: Language, H: Hasher>(pattern: &Pattern<L>, state: &mut H)
    ensures { state.new ≡ fold H.write state.old (head_input L.hash_input (head (shape pattern.now))) }
{
    match pattern {
        Pattern::ENode(node, children) => {
            state.write_u8(0);
            node.hash(state);
            state.write_usize(children.len());
        }
        Pattern::PVar(name) => {
            state.write_u8(1);
            name.as_str().hash(state);
        }
        Pattern::Subst(_, _, _) => state.write_u8(2),
    }
}

// Feeds the patterns of a list, each without what stands inside it.
fn hash_list<L: Language, H: Hasher>(patterns: &[&Pattern<L>], state: &mut H)
    ensures { state.new ≡ fold H.write state.old (flat_map (head_input L.hash_input) (map (λ p. head (shape p.now)) patterns.now)) }
{
    for pattern in patterns {
        hash_head(pattern, state);
    }
}

// Feeds a pattern, by calls of itself.
fn hash_by_calls<L: Language, H: Hasher>(pattern: &Pattern<L>, state: &mut H)
    ensures { state.new ≡ fold H.write state.old (pattern_input L.hash_input pattern.now) }
{
    hash_head(pattern, state);
    match pattern {
        Pattern::ENode(_, children) => {
            let mut k = children.len();
            while k > 0 {
                k -= 1;
                hash_by_calls(&children[k], state);
            }
        }
        Pattern::PVar(_) => {}
        Pattern::Subst(body, place, value) => {
            hash_by_calls(value, state);
            hash_by_calls(place, state);
            hash_by_calls(body, state);
        }
    }
}

impl<L: Language> Hash for Pattern<L> {
    ghost hash_input = { pattern_input L.hash_input };

    ghost respects_eq = { patterns_alike L.hash_input L.respects_eq };

    fn hash<H: Hasher>(&self, state: &mut H) {
        match all_inside(self.allocator(), self) {
            Ok(all) => hash_list(&all, state),
            Err(_) => hash_by_calls(self, state),
        }
    }
}
