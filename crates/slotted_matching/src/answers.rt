//! The answers of the machine as matches: slots take the place of numbers.
ghost use Rattle.std.specs.Prelude.{◌≡◌, ◌<◌, ◌++◌, ℕ, List, [], length, map, Contains, string_bytes, slice_index_or};
ghost use Rattle.std.specs.Prelude.{IfErr, IfOk, IsErrOf, IsTrue, OnOk};
ghost use Rattle.slotted_slots.specs.Error.{IsOutOfMemory, IsShortage};
ghost use Rattle.slotted_slots.specs.Table.{KnowsMore, is_known, AllKnown};
ghost use Rattle.slotted_model.specs.Applied.{values};
ghost use Rattle.slotted_match_machine.specs.Machine.{no_occurrence};
ghost use Rattle.slotted_match_machine.specs.Readings.{IsWholeId, read_id};
ghost use Rattle.slotted_match_machine.specs.Answers.{answer_of, answers_in, occurrence_in};
ghost use Rattle.slotted_proofs.specs.Equations.{to_applied};
ghost use Rattle.slotted_classes.specs.Finding.{HasFinds};
ghost use Rattle.slotted_classes.specs.StateOf.{state_of};
ghost use Rattle.slotted_lookup.specs.Filling.{MakesAtMost, RunsOut};
ghost use Rattle.slotted_matching.specs.Naming.{Covers, numbers_of, slot_in};
ghost use Rattle.slotted_matching.specs.Answered.{AddsIds, AreWholeAnswers, HasDifferentPairs, HasWholeIds, InTurn, IsNamedAnswer};
ghost use Rattle.slotted_matching.specs.Answered.{NumbersByName, PairSlotsIn, PairSlotsOf, StandOnce, ids_at, number_count};

use crate::compile::Program;
use crate::matches::Matches;
use crate::naming::{name_of, name_values};
use slotted_classes::Store;
use slotted_languages::Language;
use slotted_match_machine::{Answer, Occurrence};
use slotted_slots::{AppliedId, Error, Id, Slot, SlotTable};
use std::alloc::Global;
use std::collections::BTreeMap;

// Variables.

// Returns the number of each variable by its name.
fn numbers_by_name(alloc: Global, variables: &[String]) -> Result<BTreeMap<String, usize>, Error>
    requires { StandOnce (map string_bytes variables.now) }
    ensures ok { IfOk result (λ m. NumbersByName (map string_bytes variables.now) (map (λ e. (string_bytes e.0, e.1)) m.entries)) }
    ensures err { IfErr result IsOutOfMemory }
{
    let mut numbers = BTreeMap::new(alloc);
    for number in 0..variables.len() {
        let name = String::from_str(alloc, variables[number].as_str())?;
        numbers.insert(name, number)?;
    }
    Ok(numbers)
}

// Returns the numbers in the order of their names.
fn numbers_in_order(alloc: Global, numbers: &BTreeMap<String, usize>) -> Result<Vec<usize>, Error>
    ensures ok { IfOk result (λ order. order.items ≡ map (λ e. e.1) numbers.now.entries) }
    ensures err { IfErr result IsOutOfMemory }
{
    let mut order = Vec::new(alloc);
    for number in numbers.values() {
        order.push(*number)?;
    }
    Ok(order)
}

// Returns the names in order.
fn names_in_order(alloc: Global, numbers: &BTreeMap<String, usize>) -> Result<Vec<String>, Error>
    ensures ok { IfOk result (λ names. map string_bytes names.items ≡ map (λ e. string_bytes e.0) numbers.now.entries) }
    ensures err { IfErr result IsOutOfMemory }
{
    let mut names = Vec::new(alloc);
    for name in numbers.keys() {
        names.push(String::from_str(alloc, name.as_str())?)?;
    }
    Ok(names)
}

// Answers.

// Returns the slot with this raw number among some slots.
fn slot_with(slots: &[Slot], raw: usize) -> Slot
    requires { Contains slots.now raw }
    ensures { result ≡ raw }
{
    for slot in slots {
        if slot.raw() as usize == raw {
            return *slot;
        }
    }
    // This is not reached.
    Slot::numeric_at(0)
}

// Returns the pairs, with slots by their raw numbers.
fn paired_names(
    alloc: Global,
    slots: &[Slot],
    pairs: &[(usize, usize)],
) -> Result<Vec<(usize, Slot)>, Error>
    requires { (y : ℕ) → Contains (values pairs.now) y → Contains slots.now y }
    ensures ok { IfOk result (λ names. names.items ≡ pairs.now) }
    ensures err { IfErr result IsOutOfMemory }
{
    let mut names = Vec::new(alloc);
    for pair in pairs {
        names.push((pair.0, slot_with(slots, pair.1)))?;
    }
    Ok(names)
}

// Returns the slot that names a number.
fn slot_of(names: &[(usize, Slot)], number: usize) -> Slot
    ensures { result ≡ slot_in names.now number }
{
    name_of(names, number).unwrap_or(Slot::numeric_at(0))
}

// Returns the class of an occurrence with the names of its numbers.
fn named_id<L: Language>(
    alloc: Global,
    store: &Store<L>,
    names: &[(usize, Slot)],
    value: &Occurrence,
) -> Result<AppliedId, Error>
    requires good { HasFinds store.now }
    requires whole { IsWholeId (state_of store.now) (occurrence_in value.now) }
    ensures ok { IfOk result (λ a. to_applied a ≡ read_id (state_of store.now) (slot_in names.now) (occurrence_in value.now)) }
    ensures err { IfErr result IsOutOfMemory }
{
    let numbers = value.names.as_slice();
    let mut m = store.entry(value.class).m.copy(alloc)?;
    for position in 0..numbers.len() {
        m.set_value_at(position, slot_of(names, numbers[position]));
    }
    Ok(AppliedId {
        id: Id(value.class),
        m,
    })
}

// Adds the ids of these numbers of an answer.
fn push_ids<L: Language>(
    alloc: Global,
    store: &Store<L>,
    names: &[(usize, Slot)],
    order: &[usize],
    answer: &Answer,
    ids: &mut Vec<AppliedId>,
) -> Result<(), Error>
    requires good { HasFinds store.now }
    requires whole { HasWholeIds store.now (answer_of answer.now) order.now }
    ensures ok { OnOk result (map to_applied ids.new.items
        ≡ map to_applied ids.old.items ++ ids_at store.now names.now order.now (answer_of answer.now).values) }
    ensures err { IfErr result IsOutOfMemory }
{
    let values = answer.values.as_slice();
    for number in order {
        ids.push(named_id(alloc, store, names, &values[*number])?)?;
    }
    Ok(())
}

// Adds the ids of one more answer.
fn answer_ids<L: Language>(
    alloc: Global,
    table: &mut SlotTable,
    store: &Store<L>,
    slots: &[Slot],
    order: &[usize],
    answer: &Answer,
    ids: &mut Vec<AppliedId>,
) -> Result<(), Error>
    requires good { HasFinds store.now }
    requires known { (y : ℕ) → Contains slots.now y → IsTrue (is_known table.old y) }
    requires slots { PairSlotsOf slots.now (answer_of answer.now) }
    requires whole { HasWholeIds store.now (answer_of answer.now) order.now }
    requires pairs { HasDifferentPairs (answer_of answer.now) }
    ensures ok { OnOk result (AddsIds store.now order.now table.old table.new (answer_of answer.now)
        (map to_applied ids.old.items) (map to_applied ids.new.items)) }
    ensures takes { MakesAtMost (length (numbers_of answer.now.values.items)) table.old table.new }
    ensures more { KnowsMore table.old table.new }
    ensures full { IsErrOf result Error.OutOfSlots → RunsOut (length (numbers_of answer.now.values.items)) table.old table.new }
    ensures err { IfErr result IsShortage }
{
    let mut names = paired_names(alloc, slots, &answer.pairs)?;
    name_values(&mut names, table, &answer.values)?;
    push_ids(alloc, store, &names, order, answer, ids)?;
    Ok(())
}

/// Returns the answers with slots for numbers.
///
/// A number that an answer pairs with a slot of the pattern has this slot for a name. Each other number gets a fresh
/// slot, which all values of the answer share, and no other answer has.
pub fn answers_with_slots<L: Language>(
    alloc: Global,
    table: &mut SlotTable,
    store: &Store<L>,
    program: &Program,
    answers: &[Answer],
) -> Result<Matches, Error>
    requires good { HasFinds store.now }
    requires once { StandOnce (map string_bytes program.now.variables.items) }
    requires known { (y : ℕ) → Contains program.now.slots.items y → IsTrue (is_known table.old y) }
    requires slots { PairSlotsIn program.now.slots.items (answers_in answers.now) }
    requires whole { AreWholeAnswers store.now (map string_bytes program.now.variables.items) (answers_in answers.now) }
    ensures ok { IfOk result (λ m. InTurn (IsNamedAnswer store.now (map string_bytes program.now.variables.items))
        table.old table.new m (answers_in answers.now)) }

    // Only fresh slots are made, at most as many as there are numbers.
    ensures takes { MakesAtMost (number_count (answers_in answers.now)) table.old table.new }
    ensures more { KnowsMore table.old table.new }
    ensures full { IsErrOf result Error.OutOfSlots → RunsOut (number_count (answers_in answers.now)) table.old table.new }
    ensures err { IfErr result IsShortage }
{
    let numbers = numbers_by_name(alloc, &program.variables)?;
    let order = numbers_in_order(alloc, &numbers)?;
    let mut ids = Vec::new(alloc);
    for answer in answers {
        answer_ids(
            alloc,
            table,
            store,
            &program.slots,
            &order,
            answer,
            &mut ids,
        )?;
    }
    let variables = names_in_order(alloc, &numbers)?;
    Ok(Matches::new(variables, ids, answers.len()))
}
