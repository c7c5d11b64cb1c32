//! Constant folding over the language of `slotted_small`.
ghost use Rattle.std.specs.Prelude.{◌≡◌, ◌+◌, ◌*◌, ℕ, List, Option};
ghost use Rattle.std.proofs.Common.{inl};
ghost use Rattle.slotted_slots.specs.Error.{IsOutOfMemory};
ghost use Rattle.slotted_const_fold.specs.ConstFold.{both, fold_merged, known_of};

use slotted_data::{Analysis, Edit};
use slotted_slots::{Error, Slot};
use slotted_small::Small;
use slotted_terms::RecExpr;
use std::alloc::Global;

/// What is known of the value of a class.
#[derive(Clone, Copy, Debug, PartialEq, Eq)]
pub enum Fold {
    /// Nothing is known.
    None,
    /// The value is this number.
    Number(u32),
    /// The class has two different numbers as its value.
    Conflict,
}

/// An analysis by which a sum or a product of two known numbers makes its class equal to the result.
#[derive(Drop, Default)]
pub struct ConstFold;

impl Analysis<Small> for ConstFold {
    ghost use Rattle.slotted_const_fold.specs.ConstFold.{AsksNumber, fold, fold_codes};
    ghost use Rattle.slotted_const_fold.specs.FoldLaws.{fold_merges};
    ghost use Rattle.std.specs.Prelude.{true};
    ghost use Rattle.std.proofs.Common.{rules};

    type Data = Fold;

    ghost codes = { fold_codes };

    ghost meaning = { λ _. fold };

    ghost may_ask = { λ _ x _ e. AsksNumber x e };

    ghost modifies = { true };

    ghost refuses = { IsOutOfMemory };

    ghost is_merge = { λ _. fold_merges };

    ghost equal_is_same = { Prim.search rules };

    ghost only_shortages = { λ _ h. inl h };

    fn copy(&self, alloc: Global, data: &Fold) -> Result<Fold, Error> {
        Ok(*data)
    }

    fn make(&self, alloc: Global, node: &Small, child: &[Fold]) -> Result<Fold, Error> {
        match node {
            Small::Number(n) => Ok(Fold::Number(*n)),
            Small::Add(_, _) => Ok(sum(child[0], child[1])),
            Small::Mul(_, _) => Ok(product(child[0], child[1])),
            _ => Ok(Fold::None),
        }
    }

    fn merge(&self, alloc: Global, l: &Fold, r: &Fold) -> Result<Fold, Error> {
        Ok(merged(*l, *r))
    }

    fn height(&self, data: &Fold) -> u32 {
        match data {
            Fold::None => 2,
            Fold::Number(_) => 1,
            Fold::Conflict => 0,
        }
    }

    fn modifies() -> bool {
        true
    }

    fn modify(
        &self,
        alloc: Global,
        data: &Fold,
        slots: &[Slot],
    ) -> Result<Vec<Edit<Small>>, Error> {
        let mut edits = Vec::new(alloc);
        if let Fold::Number(n) = data {
            edits.push(Edit::Equal(RecExpr {
                node: Small::Number(*n),
                children: Vec::new(alloc),
            }))?;
        }
        Ok(edits)
    }
}

// Returns the merge of two data. Equal numbers are one, and two different ones are in conflict.
fn merged(l: Fold, r: Fold) -> Fold
    ensures { result ≡ fold_merged l r }
{
    match (l, r) {
        (Fold::None, other) => other,
        (other, Fold::None) => other,
        (Fold::Number(m), Fold::Number(n)) if m == n => Fold::Number(m),
        (_, _) => Fold::Conflict,
    }
}

// Returns that the value is the number, or `None` if there is no number.
fn known(n: Option<u32>) -> Fold
    ensures { result ≡ known_of n }
{
    match n {
        Some(n) => Fold::Number(n),
        None => Fold::None,
    }
}

// Returns the sum of two children's data, if it fits.
fn sum(l: Fold, r: Fold) -> Fold
    ensures { result ≡ both (λ m n. m + n) l r }
{
    match (l, r) {
        (Fold::Conflict, _) => Fold::Conflict,
        (_, Fold::Conflict) => Fold::Conflict,
        (Fold::Number(m), Fold::Number(n)) => known(m.checked_add(n)),
        (_, _) => Fold::None,
    }
}

// Returns the product of two children's data, if it fits.
fn product(l: Fold, r: Fold) -> Fold
    ensures { result ≡ both (λ m n. m * n) l r }
{
    match (l, r) {
        (Fold::Conflict, _) => Fold::Conflict,
        (_, Fold::Conflict) => Fold::Conflict,
        (Fold::Number(m), Fold::Number(n)) => known(m.checked_mul(n)),
        (_, _) => Fold::None,
    }
}
