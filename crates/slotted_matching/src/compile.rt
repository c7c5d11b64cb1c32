//! Patterns as programs of the machine, with their variables by number.
ghost use Rattle.std.specs.Prelude.{◌≡◌, ◌∷◌, ◌++◌, List, [], false, length, map, string_bytes, IsSome, IfOk, IfErr, IsErrOf, OnOk};
ghost use Rattle.slotted_slots.specs.Error.{IsOutOfMemory, IsShortage};
ghost use Rattle.slotted_slots.specs.Table.{Table};
ghost use Rattle.slotted_patterns.specs.Known.{HasKnownNames};
ghost use Rattle.slotted_nodes.specs.Form.{Form, IsSmall};
ghost use Rattle.slotted_model_rules.specs.Patterns.{variable};
ghost use Rattle.slotted_patterns.specs.Tree.{row_of};
ghost use Rattle.slotted_patterns.specs.View.{tree_of};
ghost use Rattle.slotted_rule_patterns.specs.PatternCode.{pattern_in};
ghost use Rattle.slotted_rule_patterns.specs.Variables.{has_substitution};
ghost use Rattle.slotted_matching.specs.Compiled.{Adds, AddsPattern, AddsSlots, BeginsWith, Compiling, Enters, HasWideNode, HoldsSlots};
ghost use Rattle.slotted_matching.specs.Compiled.{IsCompiled, IsNumber, KnowsEach, Numbers, common_names, nothing, pattern_names};
ghost use Rattle.slotted_matching.specs.Wanted.{Opens, placed_in, wanted};
ghost use Rattle.slotted_matching.specs.Skeletons.{HasFewPlaces, HasManyPlaces};

use crate::skeletons::{Skeletons, has_many_places};
use slotted_languages::Language;
use slotted_languages::outline::outline;
use slotted_match_machine::{Source, Step};
use slotted_patterns::Pattern;
use slotted_slots::{Error, Slot};
use std::alloc::Global;
use std::marker::Model;

/// A pattern as a list of steps.
#[derive(Drop)]
pub struct Program {
    /// The steps, in order.
    pub steps: Vec<Step>,
    /// The name of each variable, at its number.
    pub variables: Vec<String>,
    /// The slots of the pattern, which the steps know by their raw numbers.
    pub slots: Vec<Slot>,
}

// The state of a compilation: what was compiled so far, and the register that the next node fills.
#[derive(Drop)]
struct Compiler {
    steps: Vec<Step>,
    variables: Vec<String>,
    slots: Vec<Slot>,
    next: usize,
}

impl Model for Compiler {
    ghost use Rattle.std.specs.Prelude.{length, map, string_bytes};
    ghost use Rattle.slotted_matching.specs.Compiled.{AreFewer, Compiling, HoldsSlots};

    ghost Value = { Compiling };

    ghost view = { λ c. record { steps = c.steps.items; seen = map string_bytes c.variables.items; slots = c.slots.items; next = c.next } };

    ghost invariant = { λ c. AreFewer c.next (length c.steps.items) × HoldsSlots c.steps.items c.slots.items };
}

// A pattern that is still to be compiled, and where it is found.
#[derive(Drop)]
struct Wanted<'a, L: Language> {
    pattern: &'a Pattern<L>,
    from: Source,
}

// Adds the child patterns of the node that the register holds, the last one first.
fn push_children<'a, L: Language>(
    register: usize,
    children: &'a [Pattern<L>],
    left: &mut Vec<Wanted<'a, L>>,
) -> Result<(), Error>
    ensures ok { OnOk result (wanted L.form left.new.items
        ≡ placed_in register 0 (row_of (map (tree_of L.form) children.now)) ++ wanted L.form left.old.items) }
    ensures err { IfErr result IsOutOfMemory }
{
    let mut child = children.len();
    while child > 0 {
        child -= 1;
        left.push(Wanted {
            pattern: &children[child],
            from: Source { register, child },
        })?;
    }
    Ok(())
}

// Returns the slots at the places where both nodes have the same one.
fn common_slots<L: Language>(alloc: Global, first: &L, second: &L) -> Result<Vec<Slot>, Error>
    requires small { IsSmall (L.form first.now) }
    requires same { length (L.form first.now).names ≡ length (L.form second.now).names }
    ensures ok { IfOk result (λ v. v.items ≡ common_names (L.form first.now).names (L.form second.now).names) }
    ensures err { IfErr result IsOutOfMemory }
{
    let mut slots = Vec::new(alloc);
    for i in 0..first.slot_count() {
        let slot = first.slot(i);
        if slot == second.slot(i) {
            slots.push(slot)?;
        }
    }
    Ok(slots)
}

// Returns the own names and binders of a node.
fn own_slots<L: Language>(alloc: Global, node: &L) -> Result<Vec<Slot>, Error>
    requires { HasFewPlaces (L.form node.now) }
    ensures ok { IfOk result (λ v. v.items ≡ pattern_names (L.form node.now)) }
    ensures err { IfErr result IsOutOfMemory }
{
    let zero = outline(alloc, node, Slot::numeric_at(0))?;
    let one = outline(alloc, node, Slot::numeric_at(1))?;
    common_slots(alloc, &zero, &one)
}

// Adds the slots to those of a pattern, and returns their raw numbers.
fn raw_slots(alloc: Global, slots: &[Slot], all: &mut Vec<Slot>) -> Result<Vec<usize>, Error>
    ensures ok { IfOk result (λ v. v.items ≡ slots.now) }
    ensures all { OnOk result (all.new.items ≡ all.old.items ++ slots.now) }
    ensures begins { BeginsWith all.old.items all.new.items }
    ensures err { IfErr result IsOutOfMemory }
{
    let mut numbers = Vec::new(alloc);
    for slot in slots {
        all.push(*slot)?;
        numbers.push(slot.raw() as usize)?;
    }
    Ok(numbers)
}

// Returns the number of a variable that was seen.
fn number_of(variables: &[String], name: &str) -> Option<usize>
    ensures { IsNumber (map string_bytes variables.now) name.now result }
{
    for k in 0..variables.len() {
        if variables[k].as_str() == name {
            return Some(k);
        }
    }
    None
}

impl Compiler {
    // Returns the state in which nothing is compiled, and the first register holds the class.
    fn new(alloc: Global) -> Self
        ensures { result ≡ nothing }
    {
        Compiler {
            steps: Vec::new(alloc),
            variables: Vec::new(alloc),
            slots: Vec::new(alloc),
            next: 1,
        }
    }

    // Returns the number of a variable, which is the next one if it is new.
    fn number(&mut self, alloc: Global, name: &str) -> Result<usize, Error>
        ensures ok { IfOk result (Numbers self.old.seen self.new.seen name.now) }
        ensures steps { self.new.steps ≡ self.old.steps }
        ensures next { self.new.next ≡ self.old.next }
        ensures slots { self.new.slots ≡ self.old.slots }
        ensures err { IfErr result IsOutOfMemory }
    {
        if let Some(number) = number_of(&self.variables, name) {
            return Ok(number);
        }
        let number = self.variables.len();
        let name = String::from_str(alloc, name)?;
        self.variables.push(name)?;
        Ok(number)
    }

    // Adds the step of a variable.
    fn add_variable(&mut self, alloc: Global, name: &str, from: Source) -> Result<(), Error>
        ensures ok { (S : List Form) → OnOk result (Adds S self.old self.new ((variable name.now, from) ∷ [])) }
        ensures slots { self.new.slots ≡ self.old.slots }
        ensures err { IfErr result IsOutOfMemory }
    {
        let number = self.number(alloc, name)?;
        self.steps.push(Step::Variable { number, from })?;
        Ok(())
    }

    // Adds the step of a node, and returns the register that the node fills.
    fn enter<L: Language>(
        &mut self,
        alloc: Global,
        node: &L,
        from: Source,
        skeletons: &Skeletons<L>,
    ) -> Result<usize, Error>
        ensures ok { IfOk result (Enters skeletons.now self.old self.new (L.form node.now) from) }
        ensures slots { OnOk result (self.new.slots ≡ self.old.slots ++ pattern_names (L.form node.now)) }
        ensures full { IsErrOf result Error.OutOfSlots → HasManyPlaces (L.form node.now) }
        ensures err { IfErr result IsShortage }
    {
        if has_many_places(node) {
            return Err(Error::OutOfSlots);
        }
        let outline = skeletons.find(alloc, node)?;
        let owns = own_slots(alloc, node)?;
        let slots = raw_slots(alloc, &owns, &mut self.slots)?;
        self.steps.push(Step::Node {
            outline,
            slots,
            from,
        })?;
        let register = self.next;
        self.next = register + 1;
        Ok(register)
    }

    // Adds the step of a pattern without those of its child patterns, which are added to what is left.
    fn step<'a, L: Language>(
        &mut self,
        alloc: Global,
        pattern: &'a Pattern<L>,
        from: Source,
        skeletons: &Skeletons<L>,
        left: &mut Vec<Wanted<'a, L>>,
    ) -> Result<(), Error>
        requires { has_substitution (tree_of L.form pattern.now) ≡ false }
        ensures ok { OnOk result (Opens skeletons.now self.old self.new (tree_of L.form pattern.now) from
            (wanted L.form left.old.items) (wanted L.form left.new.items)) }
        ensures slots { OnOk result (AddsSlots self.old.slots self.new.slots (tree_of L.form pattern.now)) }
        ensures full { IsErrOf result Error.OutOfSlots → HasWideNode (tree_of L.form pattern.now) }
        ensures err { IfErr result IsShortage }
    {
        match pattern {
            Pattern::ENode(node, children) => {
                let register = self.enter(alloc, node, from, skeletons)?;
                push_children(register, children, left)
            }
            Pattern::PVar(name) => self.add_variable(alloc, name.as_str(), from),
            Pattern::Subst(_, _, _) => unreachable!(),
        }
    }

    // Adds the steps of a pattern: of a node first, and then those of its child patterns from the left.
    fn add<L: Language>(
        &mut self,
        alloc: Global,
        pattern: &Pattern<L>,
        from: Source,
        skeletons: &Skeletons<L>,
    ) -> Result<(), Error>
        requires { has_substitution (tree_of L.form pattern.now) ≡ false }
        ensures ok { OnOk result (AddsPattern skeletons.now self.old self.new (tree_of L.form pattern.now) from) }
        ensures slots { OnOk result (AddsSlots self.old.slots self.new.slots (tree_of L.form pattern.now)) }
        ensures full { IsErrOf result Error.OutOfSlots → HasWideNode (tree_of L.form pattern.now) }
        ensures err { IfErr result IsShortage }
    {
        let mut left = Vec::new(alloc);
        left.push(Wanted { pattern, from })?;
        while let Some(next) = left.pop() {
            let Wanted { pattern, from } = next;
            self.step(alloc, pattern, from, skeletons, &mut left)?;
        }
        Ok(())
    }
}

/// Returns the program that finds a pattern.
///
/// The outline of each node is the number of its skeleton. If the skeleton is none of these, the outline is the
/// number of all skeletons.
pub fn compile<L: Language>(
    alloc: Global,
    pattern: &Pattern<L>,
    skeletons: &Skeletons<L>,
) -> Result<Program, Error>
    requires { has_substitution (tree_of L.form pattern.now) ≡ false }
    ensures ok { IfOk result
        (λ c. IsCompiled skeletons.now (tree_of L.form pattern.now) c.steps.items (map string_bytes c.variables.items)) }
    ensures slots { IfOk result (λ c. HoldsSlots c.steps.items c.slots.items) }
    ensures known { IfOk result (λ c. (t : Table) → HasKnownNames t (tree_of L.form pattern.now) → KnowsEach t c.slots.items) }
    ensures full { IsErrOf result Error.OutOfSlots → HasWideNode (tree_of L.form pattern.now) }
    ensures err { IfErr result IsShortage }
{
    let mut compiler = Compiler::new(alloc);
    let root = Source {
        register: 0,
        child: 0,
    };
    compiler.add(alloc, pattern, root, skeletons)?;
    Ok(Program {
        steps: compiler.steps,
        variables: compiler.variables,
        slots: compiler.slots,
    })
}
