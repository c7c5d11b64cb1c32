//! Data that is read from text and written as text.
ghost use Rattle.std.specs.Prelude.{◌≡◌};

use slotted_const_fold::Fold;
use slotted_rules::DataTest;
use slotted_slots::Error;

/// Data of a class, of a small number of cases.
pub trait Datum: Sized + Drop {
    ghost use Rattle.std.specs.Prelude.{Bool};

    ghost one: { Self → Bool };

    /// Returns the data of a text.
    fn read(text: &str) -> Self;

    /// Writes the data as text.
    fn write(&self, text: &mut String) -> Result<(), Error>;

    /// Returns whether the class is known to be the number 1.
    fn is_one(&self) -> bool
        ensures { result ≡ one self.now };
}

impl Datum for () {
    ghost use Rattle.std.specs.Prelude.{false};

    ghost one = { λ _. false };

    fn read(text: &str) {}

    fn write(&self, text: &mut String) -> Result<(), Error> {
        Ok(text.push_str("nothing")?)
    }

    fn is_one(&self) -> bool {
        false
    }
}

impl Datum for bool {
    ghost use Rattle.std.specs.Prelude.{false};

    ghost one = { λ _. false };

    fn read(text: &str) -> bool {
        text == "yes"
    }

    fn write(&self, text: &mut String) -> Result<(), Error> {
        Ok(text.push_str(if *self { "yes" } else { "no" })?)
    }

    fn is_one(&self) -> bool {
        false
    }
}

impl Datum for u32 {
    ghost use Rattle.std.specs.Prelude.{false};

    ghost one = { λ _. false };

    fn read(text: &str) -> u32 {
        text.parse().unwrap_or(0)
    }

    fn write(&self, text: &mut String) -> Result<(), Error> {
        Ok(write!(text, "{self}")?)
    }

    fn is_one(&self) -> bool {
        false
    }
}

impl Datum for Fold {
    ghost use Rattle.slotted_run_lines.specs.ComesTo.{comes_to};

    ghost one = { comes_to 1 };

    fn read(text: &str) -> Fold {
        match text {
            "none" => Fold::None,
            "conflict" => Fold::Conflict,
            _ => Fold::Number(text.parse().unwrap_or(0)),
        }
    }

    fn write(&self, text: &mut String) -> Result<(), Error> {
        match self {
            Fold::None => Ok(text.push_str("none")?),
            Fold::Conflict => Ok(text.push_str("conflict")?),
            Fold::Number(number) => Ok(write!(text, "{number}")?),
        }
    }

    fn is_one(&self) -> bool {
        match self {
            Fold::Number(number) => *number == 1,
            Fold::None | Fold::Conflict => false,
        }
    }
}

/// The test whether the value of a class is known to be 1, by which the condition of a rule reads data.
#[derive(Drop, Debug)]
pub struct IsOne;

impl<D: Datum> DataTest<D> for IsOne {
    ghost passes = { λ _ x. D.one x };

    fn test(&self, datum: &D) -> bool {
        datum.is_one()
    }
}
