//! An analysis by which 1 equals 2 once a class has a variable.
ghost use Rattle.std.specs.Prelude.{◌≡◌};
ghost use Rattle.slotted_const_fold.specs.ConstFold.{number_term};

use slotted_data::{Analysis, Edit};
use slotted_slots::{Error, Slot};
use slotted_small::Small;
use slotted_terms::RecExpr;
use std::alloc::Global;

/// The analysis by which a class with a variable asks that 1 equals 2.
#[derive(Drop, Default)]
pub struct Marking;

impl Analysis<Small> for Marking {
    ghost use Rattle.std.specs.Prelude.{◌≡◌, true};
    ghost use Rattle.slotted_slots.specs.Error.{IsOutOfMemory};
    ghost use Rattle.slotted_run_lines.specs.Marking.{AsksOneIsTwo, marking, marking_codes, marking_merges};
    ghost use Rattle.std.proofs.Common.{inl, rules};

    type Data = bool;

    ghost codes = { marking_codes };

    ghost meaning = { λ _. marking };

    ghost may_ask = { λ _ x _ e. AsksOneIsTwo x e };

    ghost modifies = { true };

    ghost refuses = { IsOutOfMemory };

    ghost is_merge = { λ _. marking_merges };

    ghost equal_is_same = { Prim.search rules };

    ghost only_shortages = { λ _ h. inl h };

    fn copy(&self, alloc: Global, data: &bool) -> Result<bool, Error> {
        Ok(*data)
    }

    fn make(&self, alloc: Global, node: &Small, child: &[bool]) -> Result<bool, Error> {
        match node {
            Small::Var(_) => Ok(true),
            _ => Ok(false),
        }
    }

    fn merge(&self, alloc: Global, l: &bool, r: &bool) -> Result<bool, Error> {
        Ok(*l || *r)
    }

    fn height(&self, data: &bool) -> u32 {
        if *data { 0 } else { 1 }
    }

    fn modifies() -> bool {
        true
    }

    fn modify(
        &self,
        alloc: Global,
        data: &bool,
        slots: &[Slot],
    ) -> Result<Vec<Edit<Small>>, Error> {
        let mut edits = Vec::new(alloc);
        if *data {
            edits.push(Edit::Equate(number(alloc, 1), number(alloc, 2)))?;
        }
        Ok(edits)
    }
}

// Returns the term of a number.
fn number(alloc: Global, n: u32) -> RecExpr<Small>
    ensures { result ≡ number_term n }
{
    RecExpr {
        node: Small::Number(n),
        children: Vec::new(alloc),
    }
}
