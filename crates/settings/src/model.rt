//! The standing models, chosen when the program runs.

ghost use Rattle.std.specs.Prelude.{◌≡◌, Some, None, MatchResult};
ghost use Rattle.settings.specs.Models.{base_leakage, layered, model_named, base_words, layer_words, model_words};
ghost use Rattle.settings.specs.LayeredModelLemmas.{base_honest, layered_honest};

use leakage::{Baseline, CacheLine, LeakageModel, ProgramCounter, TimeVariable};
use rules::{Operator, Region, Side};
use std::fmt;
use std::str::FromStr;

/// One of the standing models.
#[derive(Clone, Copy, Debug, PartialEq, Eq)]
pub enum Base {
    Counter,
    Cells,
    Lines(CacheLine),
}

// The model is chosen when the program runs, so each question is passed on to the one that was chosen.

impl LeakageModel for Base {
    ghost leakage = { base_leakage };

    ghost honest = { base_honest };

    fn watches_operand(self, operator: Operator, side: Side) -> bool {
        match self {
            Base::Counter => ProgramCounter.watches_operand(operator, side),
            Base::Cells => Baseline.watches_operand(operator, side),
            Base::Lines(line) => line.watches_operand(operator, side),
        }
    }

    fn operator_mark(self, operator: Operator, left: u32, right: u32) -> u32 {
        match self {
            Base::Counter => ProgramCounter.operator_mark(operator, left, right),
            Base::Cells => Baseline.operator_mark(operator, left, right),
            Base::Lines(line) => line.operator_mark(operator, left, right),
        }
    }

    fn watches_index(self, region: Region) -> bool {
        match self {
            Base::Counter => ProgramCounter.watches_index(region),
            Base::Cells => Baseline.watches_index(region),
            Base::Lines(line) => line.watches_index(region),
        }
    }

    fn access_mark(self, region: Region, index: u32) -> u32 {
        match self {
            Base::Counter => ProgramCounter.access_mark(region, index),
            Base::Cells => Baseline.access_mark(region, index),
            Base::Lines(line) => line.access_mark(region, index),
        }
    }
}

// Base and layer are chosen apart, each with each: the flag does not say whether there is a base.

/// A standing model, with or without the time-variable layer over it.
#[derive(Clone, Copy, Debug, PartialEq, Eq)]
pub struct Layered {
    pub base: Base,
    pub timed: bool,
}

impl LeakageModel for Layered {
    ghost leakage = { λ m. layered m.timed (base_leakage m.base) };

    ghost honest = { λ m. layered_honest m.timed (base_leakage m.base) (base_honest m.base) };

    fn watches_operand(self, operator: Operator, side: Side) -> bool {
        if self.timed {
            TimeVariable { below: self.base }.watches_operand(operator, side)
        } else {
            self.base.watches_operand(operator, side)
        }
    }

    fn operator_mark(self, operator: Operator, left: u32, right: u32) -> u32 {
        if self.timed {
            TimeVariable { below: self.base }.operator_mark(operator, left, right)
        } else {
            self.base.operator_mark(operator, left, right)
        }
    }

    fn watches_index(self, region: Region) -> bool {
        self.base.watches_index(region)
    }

    fn access_mark(self, region: Region, index: u32) -> u32 {
        self.base.access_mark(region, index)
    }
}

/// A word that names no model.
#[derive(Clone, Copy, Debug, PartialEq, Eq)]
pub struct UnknownModel;

impl FromStr for Layered {
    type Err = UnknownModel;

    ghost from_str_gives = { λ word r. MatchResult r (λ model. model_named word ≡ Some model) (λ _. model_named word ≡ None) };

    fn from_str(word: &str) -> Result<Layered, UnknownModel> {
        Layered::named(word).ok_or(UnknownModel)
    }
}

impl Layered {
    /// The model that the word names.
    pub fn named(word: &str) -> Option<Layered>
        ensures { result ≡ model_named word.now }
    {
        let (base, timed) = match word {
            "pc" => (Base::Counter, false),
            "baseline" => (Base::Cells, false),
            "line16" => (Base::Lines(CacheLine::Sixteen), false),
            "line8" => (Base::Lines(CacheLine::Eight), false),
            "tv+pc" => (Base::Counter, true),
            "tv+baseline" => (Base::Cells, true),
            "tv+line16" => (Base::Lines(CacheLine::Sixteen), true),
            "tv+line8" => (Base::Lines(CacheLine::Eight), true),
            _ => return None,
        };
        Some(Layered { base, timed })
    }

    /// What the standing model hears.
    pub fn base_words(self) -> &'static str
        ensures { result.now ≡ base_words self.base }
    {
        match self.base {
            Base::Counter => "program counter: which way each if and while goes",
            Base::Cells =>
                "baseline: which way each if and while goes, and the cell of each access",
            Base::Lines(CacheLine::Sixteen) => {
                "cache line of 16 cells: which way each if and while goes, and the line of each access"
            }
            Base::Lines(CacheLine::Eight) => {
                "cache line of 8 cells: which way each if and while goes, and the line of each access"
            }
        }
    }

    /// What the layer hears besides.
    pub fn layer_words(self) -> &'static str
        ensures { result.now ≡ layer_words self.timed }
    {
        if self.timed {
            "; time-variable: how long both operands of each / and % are"
        } else {
            ""
        }
    }
}

/// What the standing model hears, and what the layer hears besides.
impl fmt::Display for Layered {
    ghost output = { λ model. Some (model_words model) };

    fn fmt<W: fmt::Write>(&self, f: &mut fmt::Formatter<W>) -> fmt::Result {
        f.write_str(self.base_words())?;
        f.write_str(self.layer_words())
    }
}
