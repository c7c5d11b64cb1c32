//! Written rules: a pattern, another pattern that becomes equal to it, and a condition.
ghost use Rattle.std.specs.Prelude.{◌≡◌, ◌⊎◌, [], None, Some, false, string_bytes, IfOk, IfErr, IsTrue};
ghost use Rattle.slotted_slots.specs.Table.{KnowsMore};
ghost use Rattle.slotted_patterns.specs.Known.{HasKnownNames};
ghost use Rattle.slotted_patterns.specs.View.{tree_of};
ghost use Rattle.slotted_rule_patterns.specs.Variables.{first_lacking, has_substitution};
ghost use Rattle.slotted_rules.specs.Written.{AreRead, AreRefused, CanBeSearched, IsRule, IsRefusedRule};
ghost use Rattle.slotted_rules.specs.Reading.{first_unread};

use crate::condition::Always;
use crate::reading::{ReadsNames, missing};
use slotted_languages::Language;
use slotted_patterns::Pattern;
use slotted_rule_patterns::pattern::{first_lacking, has_substitution};
use slotted_slots::{Error, Show, SlotTable};
use std::alloc::Global;
use std::fmt;

/// A written rule. If its left side is found and its condition holds, the right side becomes equal to what was found.
#[derive(Drop, Debug)]
pub struct Rewrite<L: Language, C> {
    pub name: String,
    pub left: Pattern<L>,
    pub right: Pattern<L>,
    pub condition: C,
}

impl<L: Language, C: ReadsNames> Rewrite<L, C> {
    /// Returns the rule of two patterns. Three things are refused: a substitution on the left side, a variable of the
    /// right side that the left one lacks, and a slot or a variable of the condition that the left one lacks.
    pub fn from_patterns(
        alloc: Global,
        name: &str,
        left: Pattern<L>,
        right: Pattern<L>,
        condition: C,
    ) -> Result<Self, Error>
        ensures rule { IfOk result (λ r. IsRule r name.now left right condition) }
        ensures searched { IfOk result (λ r. has_substitution (tree_of L.form left) ≡ false) }
        ensures known { IfOk result (λ r. first_lacking (tree_of L.form right) (tree_of L.form left) ≡ None) }
        ensures asked { IfOk result (λ r. first_unread (tree_of L.form left) (C.reads condition) ≡ None) }
        ensures err { IfErr result (IsRefusedRule (tree_of L.form left) (tree_of L.form right) (C.reads condition)) }
    {
        if has_substitution(&left) {
            return Err(Error::SubstInSearch);
        }
        if let Some(variable) = first_lacking(&right, &left) {
            return Err(missing(alloc, variable));
        }
        condition.test_names(alloc, &left)?;
        let name = String::from_str(alloc, name)?;
        Ok(Rewrite {
            name,
            left,
            right,
            condition,
        })
    }

    /// Returns the rule of two texts, which are read one after the other over a table of slots. Names that were read
    /// before a refusal stay in the table.
    pub fn new_if(
        alloc: Global,
        name: &str,
        left: &str,
        right: &str,
        condition: C,
        table: &mut SlotTable,
    ) -> Result<Self, Error>
        ensures read { IfOk result (AreRead L.form L.read table.old table.new left.now right.now) }
        ensures name { IfOk result (λ r. string_bytes r.name ≡ name.now) }
        ensures condition { IfOk result (λ r. r.condition ≡ condition) }
        ensures searched { IfOk result (CanBeSearched L.form table.new) }
        ensures asked { IfOk result (λ r. first_unread (tree_of L.form r.left) (C.reads condition) ≡ None) }
        ensures more { KnowsMore table.old table.new }
        ensures err { IfErr result
            (AreRefused L.form L.read table.old table.new left.now right.now (C.reads condition)) }
    {
        let searched = Pattern::parse(alloc, left, table)?;
        let made = Pattern::parse(alloc, right, table)?;
        Self::from_patterns(alloc, name, searched, made, condition)
    }
}

impl<L: Language> Rewrite<L, Always> {
    /// Returns the rule of two texts without a condition, as `new_if` does.
    pub fn new(
        alloc: Global,
        name: &str,
        left: &str,
        right: &str,
        table: &mut SlotTable,
    ) -> Result<Self, Error>
        ensures read { IfOk result (AreRead L.form L.read table.old table.new left.now right.now) }
        ensures name { IfOk result (λ r. string_bytes r.name ≡ name.now) }
        ensures searched { IfOk result (CanBeSearched L.form table.new) }
        ensures more { KnowsMore table.old table.new }
        ensures err { IfErr result (AreRefused L.form L.read table.old table.new left.now right.now []) }
    {
        Rewrite::new_if(alloc, name, left, right, Always, table)
    }
}

/// Prints the name and both sides, as `fuse: (map ?f (map ?g ?x)) => (map (both ?f ?g) ?x)`. `fmt::Error` if memory is
/// refused.
impl<L: Language, C> Show for Rewrite<L, C> {
    ghost use Rattle.slotted_patterns.specs.Shown.{pattern_text};
    ghost use Rattle.slotted_rules.specs.Texts.{rule_text};

    ghost shown = { λ t r. Some (rule_text (pattern_text L.shown) t r) };

    fn write_shown<W: fmt::Write>(
        &self,
        table: &SlotTable,
        f: &mut fmt::Formatter<W>,
    ) -> fmt::Result {
        let name = &self.name;
        let left = self.left.show(table);
        let right = self.right.show(table);
        write!(f, "{name}: {left} => {right}")
    }
}
