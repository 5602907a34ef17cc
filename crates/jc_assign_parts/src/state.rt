//! Steps that change what is known.
ghost use Rattle.std.specs.Prelude.{◌≡◌, ◌++◌, ◌&&◌, ◌||◌, not, OnOk};
ghost use Rattle.jc_assign_spec.specs.Marks.{broken_if, jumps, met, with_now};
ghost use Rattle.jc_assign_spec.specs.Expressions.{used_if, written_if};
ghost use Rattle.jc_assign_spec.specs.Statements.{also_wrote, declared_if, given_if, unwritten};
ghost use Rattle.jc_assign_parts.specs.Lanes.{bits, broken, by_world, known, marking, marks, stepped, word, word_of};

use crate::lanes::{Found, Leaving, Marks, State, Worlds};
use crate::words::{alike, either, free_marks, less, meet_marks, put, put_marks};
use jc_assign_spec::Jump;
use jc_rules::{Items, Place, Refusal, Rule, WantOfMemory};

/// What is known now.
#[tactic(auto, unfolding(crate::specs::Lanes::known, crate::specs::Lanes::marks))]
pub fn now(s: &State) -> Marks
    ensures { marks result ≡ marking (λ l. ((known s.now).each l).now) }
{
    s.marks
}

pub fn set_now(s: &mut State, m: Marks)
    ensures { known s.new ≡ stepped (λ l k. with_now ((marks m).each l) k) (known s.old) }
{
    s.marks = m;
}

/// Puts what is known in place of what was, and gives this.
#[tactic(auto, unfolding(crate::specs::Lanes::known, crate::specs::Lanes::marks, jc_assign_spec::specs::Marks::with_now))]
pub fn swap_now(s: &mut State, m: Marks) -> Marks
    ensures new { known s.new ≡ stepped (λ l k. with_now ((marks m).each l) k) (known s.old) }
    ensures old { marks result ≡ marking (λ l. ((known s.old).each l).now) }
{
    std::mem::replace(&mut s.marks, m)
}

pub fn meet_now(s: &mut State, m: Marks)
    ensures { known s.new ≡ stepped (λ l k. met ((marks m).each l) k) (known s.old) }
{
    s.marks = meet_marks(m, s.marks);
}

fn push_found(
    list: &mut Items<Found>,
    lanes: Worlds,
    rule: Rule,
    place: Place,
) -> Result<(), WantOfMemory>
    ensures { OnOk result (broken list.new ≡ (λ l. broken_if (by_world lanes l) rule place (broken list.old l))) }
{
    list.push(Found {
        lanes,
        refusal: Refusal {
            rule,
            place,
            have: 0,
        },
    })
}

/// The values of some variables are used.
pub fn use_at(s: &mut State, mask: u64, place: Place) -> Result<(), WantOfMemory>
    ensures { OnOk result (known s.new ≡ stepped (λ l k. used_if ((word mask).each l.at) place k) (known s.old)) }
{
    let missing = alike(mask ^ (mask & s.marks.set));
    push_found(&mut s.broken, missing, Rule::known(705), place)
}

// Which of some final variables may not be assigned now.
fn refused(s: &State, finals: u64) -> Worlds
    ensures { by_world result ≡ (λ l. bits finals l.at && (bits s.now.fixed l.at || not (by_world s.now.marks.unset l))) }
{
    let fixed = alike(finals & s.fixed);
    let open = less(alike(finals), s.marks.unset);
    either(fixed, open)
}

/// Some variables are assigned, of which these are final.
pub fn write_at(s: &mut State, mask: u64, finals: u64, place: Place) -> Result<(), WantOfMemory>
    ensures { OnOk result (known s.new ≡ stepped (λ l k. written_if ((word mask).each l.at) ((word finals).each l.at) place k) (known s.old)) }
{
    let lanes = refused(s, mask & finals);
    push_found(&mut s.broken, lanes, Rule::known(706), place)?;
    s.marks = put_marks(s.marks, mask, true);
    s.wrote = put(s.wrote, mask, true);
    Ok(())
}

/// Some variables are declared, with a value or without one.
pub fn declare_at(s: &mut State, mask: u64, has_value: bool)
    ensures { known s.new ≡ stepped (λ l k. declared_if ((word mask).each l.at) has_value k) (known s.old) }
{
    s.marks = put_marks(s.marks, mask, has_value);
    s.fixed = put(s.fixed, mask, has_value);
}

/// Some variables get a value that no assignment gives them.
pub fn give_at(s: &mut State, mask: u64, fixed: bool)
    ensures { known s.new ≡ stepped (λ l k. given_if ((word mask).each l.at) fixed k) (known s.old) }
{
    s.marks = put_marks(s.marks, mask, true);
    s.fixed = put(s.fixed, mask, fixed);
}

/// A jump leaves.
pub fn jump(s: &mut State, jump: Jump) -> Result<(), WantOfMemory>
    ensures { OnOk result (known s.new ≡ stepped (λ l k. jumps jump k) (known s.old)) }
{
    s.exits.push(Leaving {
        jump,
        marks: s.marks,
    })?;
    s.marks = free_marks();
    Ok(())
}
