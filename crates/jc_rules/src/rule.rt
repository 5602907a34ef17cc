//! The rules, their stages, and the places at which they are broken.
ghost use Rattle.std.specs.Prelude.{◌≡◌, ◌/◌, ◌+◌, IfSome, IsTrue, ◌↔◌, IsNone, false};
ghost use Rattle.jc_rules.specs.Rules.{is_rule, stage_of};

use std::marker::Model;

/// A rule that a program can break, by its number in the table of rules.
#[derive(Clone, Copy, Debug, PartialEq, Eq)]
pub struct Rule {
    number: u16,
}

impl Model for Rule {
    ghost use Rattle.std.specs.Prelude.{ℕ, IsTrue};
    ghost use Rattle.jc_rules.specs.Rules.{is_rule};

    ghost Value = { ℕ };

    ghost view = { λ r. r.number };

    ghost invariant = { λ r. IsTrue (is_rule r.number) };

    ghost inverse = { λ n. record { number = n } };
}

/// The stages of a check, in their order. A stage is entered only where no earlier one has a break in any file.
#[derive(Clone, Copy, Debug, PartialEq, Eq)]
pub enum Stage {
    Lexical,
    Syntax,
    Names,
    Types,
    Headers,
    Bodies,
    Flow,
    Clashes,
    Limits,
}

/// A token of a source: the number of its file, where 0 is the prelude and the sources count from 1, and the offset of its
/// first byte there.
#[derive(Clone, Copy, Debug, PartialEq, Eq)]
pub struct Place {
    pub file: u64,
    pub at: u32,
}

/// A broken rule, and where. `have` is the quantity that passed its limit in the rules 901 to 905, and 0 in the others.
#[derive(Clone, Copy, Debug, PartialEq, Eq)]
pub struct Refusal {
    pub rule: Rule,
    pub place: Place,
    pub have: u64,
}

/// An unchecked warning: its kind, from 1 to 7, and where it stands.
#[derive(Clone, Copy, Debug, PartialEq, Eq)]
pub struct Warning {
    pub kind: u8,
    pub place: Place,
}

impl Rule {
    /// The rule of this number. None exactly where the table has no such number.
    pub fn from_number(n: u16) -> Option<Rule>
        ensures some { IfSome result (λ r. r ≡ n) }
        ensures none { IsNone result ↔ (is_rule n ≡ false) }
    {
        match n {
            101..=109 | 201..=203 | 301..=311 | 401..=409 => Some(Rule { number: n }),
            501..=514 | 601..=626 | 701..=708 => Some(Rule { number: n }),
            801 | 900..=905 => Some(Rule { number: n }),
            _ => None,
        }
    }

    pub fn number(self) -> u16
        ensures { result ≡ self }
    {
        self.number
    }

    /// The stage that asks for this rule: the hundreds of its number.
    pub fn stage(self) -> Stage
        ensures { result ≡ stage_of self }
    {
        match self.number / 100 {
            1 => Stage::Lexical,
            2 => Stage::Syntax,
            3 => Stage::Names,
            4 => Stage::Types,
            5 => Stage::Headers,
            6 => Stage::Bodies,
            7 => Stage::Flow,
            8 => Stage::Clashes,
            _ => Stage::Limits,
        }
    }

    /// A rule by a number that is known to be in the table.
    pub fn known(n: u16) -> Rule
        requires { IsTrue (is_rule n) }
        ensures { result ≡ n }
    {
        Rule { number: n }
    }
}
