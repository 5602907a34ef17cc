//! Where jumps go (JLS 14.7, 14.15 to 14.17).
ghost use Rattle.std.specs.Prelude.{◌≡◌, [], ◌∷◌, ◌++◌, OnOk, IfOk};
ghost use Rattle.jc_stmts_spec.specs.Plans as plan;
ghost use Rattle.jc_stmts_plan.specs.Seen.{round_seen, returns_seen};

use jc_rules::{Items, WantOfMemory};
use jc_tree::Ident;
use std::alloc::Global;
use std::marker::Model;

/// A statement round a place to which a jump can go, by the offset of its first token. A label has the loop that it stands before, if that is one itself.
#[derive(Clone, Copy)]
pub enum RoundForm<'a> {
    Loop {
        at: u32,
    },
    Switch {
        at: u32,
    },
    Label {
        label: &'a Ident,
        before: Option<u32>,
    },
}

/// A statement round a place that contracts see as the definition has it.
#[derive(Drop)]
pub struct Round<'a> {
    pub form: RoundForm<'a>,
}

impl<'a> Model for Round<'a> {
    ghost use Rattle.jc_stmts_spec.specs.Plans as plan;
    ghost use Rattle.jc_stmts_plan.specs.Seen.{round_seen};
    ghost use Rattle.std.specs.Coded.{codes};

    ghost Value = { plan.Round };

    ghost coded = { Prim.hlevel codes };

    ghost view = { λ r. round_seen r.form };
}

/// What a `return` may give: there is none in an initialiser (JLS 8.6, 8.7), and no value in a constructor or a method that is `void`.
#[derive(Clone, Copy, Debug, PartialEq, Eq)]
pub enum Returns {
    Never,
    NoValue,
    AValue,
}

/// The statements round a place, the innermost first, and what a `return` there may give.
#[derive(Drop)]
pub struct Jumps<'a> {
    rounds: Items<Round<'a>>,
    returns: Returns,
}

impl<'a> Model for Jumps<'a> {
    ghost use Rattle.jc_stmts_spec.specs.Plans as plan;
    ghost use Rattle.jc_stmts_plan.specs.Seen.{returns_seen};
    ghost use Rattle.std.specs.Coded.{codes};

    ghost Value = { plan.Jumps };

    ghost coded = { Prim.hlevel codes };

    ghost view = { λ j. record { round = j.rounds; returns = returns_seen j.returns } };
}

/// Adds copies of statements behind others.
fn push_rounds<'a>(list: &mut Items<Round<'a>>, rounds: &[Round<'a>]) -> Result<(), WantOfMemory>
    ensures { OnOk result (list.new ≡ list.old ++ rounds.now) }
{
    for round in rounds {
        list.push(Round { form: round.form })?;
    }
    Ok(())
}

/// Where `break` goes: the innermost loop or `switch`.
fn broken(rounds: &[Round]) -> Option<u32>
    ensures { result ≡ plan.broken rounds.now }
{
    for round in rounds {
        match round.form {
            RoundForm::Loop { at } => return Some(at),
            RoundForm::Switch { at } => return Some(at),
            RoundForm::Label { .. } => {}
        }
    }
    None
}

/// Where `continue` goes: the innermost loop.
fn continued(rounds: &[Round]) -> Option<u32>
    ensures { result ≡ plan.continued rounds.now }
{
    for round in rounds {
        match round.form {
            RoundForm::Loop { at } => return Some(at),
            RoundForm::Switch { .. } => {}
            RoundForm::Label { .. } => {}
        }
    }
    None
}

/// Where `break` goes by a label: to the statement that has it.
fn broken_by(text: &str, rounds: &[Round]) -> Option<u32>
    ensures { result ≡ plan.broken_by text.now rounds.now }
{
    for round in rounds {
        if let RoundForm::Label { label, .. } = round.form {
            if text == label.text.str() {
                return Some(label.at);
            }
        }
    }
    None
}

/// Where `continue` goes by a label: to the loop behind it.
fn continued_by(text: &str, rounds: &[Round]) -> Option<u32>
    ensures { result ≡ plan.continued_by text.now rounds.now }
{
    for round in rounds {
        if let RoundForm::Label { label, before } = round.form {
            if text == label.text.str() {
                return before;
            }
        }
    }
    None
}

impl<'a> Jumps<'a> {
    /// No statement round a place yet.
    pub fn new(alloc: Global, returns: Returns) -> Jumps<'a>
        ensures { result ≡ record { round = []; returns = returns_seen returns } }
    {
        Jumps {
            rounds: Items::new(alloc),
            returns,
        }
    }

    /// Inside of one statement more. The others are copied, which are no more than a nest is high.
    pub fn inside(&self, alloc: Global, form: RoundForm<'a>) -> Result<Jumps<'a>, WantOfMemory>
        ensures { IfOk result (λ it. it ≡ plan.inside (round_seen form.entry) self.now) }
    {
        let mut rounds = Items::new(alloc);
        rounds.push(Round { form })?;
        push_rounds(&mut rounds, self.rounds.slice())?;
        Ok(Jumps {
            rounds,
            returns: self.returns,
        })
    }

    /// What a `return` may give.
    pub fn returns(&self) -> Returns
        ensures { returns_seen result ≡ self.now.returns }
    {
        self.returns
    }

    /// The statement that a `break` leaves, by its number.
    pub fn break_target(&self, label: &Option<Ident>) -> Option<u32>
        ensures { result ≡ plan.break_target label.now self.now }
    {
        match label {
            None => broken(self.rounds.slice()),
            Some(label) => broken_by(label.text.str(), self.rounds.slice()),
        }
    }

    /// The loop that a `continue` goes on with, by its number.
    pub fn continue_target(&self, label: &Option<Ident>) -> Option<u32>
        ensures { result ≡ plan.continue_target label.now self.now }
    {
        match label {
            None => continued(self.rounds.slice()),
            Some(label) => continued_by(label.text.str(), self.rounds.slice()),
        }
    }

    /// The statement round the place that has a label, by its number.
    pub fn labelled(&self, label: &Ident) -> Option<u32>
        ensures { result ≡ plan.broken_by label.now.text self.now.round }
    {
        broken_by(label.text.str(), self.rounds.slice())
    }
}
