//! Words of 64 variables.
ghost use Rattle.std.specs.Prelude.{◌≡◌, ◌<◌, ◌==◌, ◌%◌, ◌&&◌, ◌||◌, not, if◌then◌else◌};
ghost use Rattle.jc_assign_spec.specs.Marks.{free, fresh, gone, meet, over};
ghost use Rattle.jc_assign_spec.specs.Statements.{entry_of};
ghost use Rattle.jc_assign_parts.specs.Lanes.{bits, by_world, mark_of, marking, marks, word, word_of};

use crate::lanes::{Marks, Worlds};

/// The word of one variable.
#[tactic(auto, unfolding(crate::specs::Lanes::word))]
pub fn one(k: u32) -> u64
    requires { k < 64 }
    ensures { word result ≡ word_of (λ i. i % 64 == k) }
{
    1 << k
}

pub fn put(w: u64, mask: u64, value: bool) -> u64
    ensures { word result ≡ word_of (λ i. if bits mask i then value else bits w i) }
{
    if value { w | mask } else { w ^ (w & mask) }
}

// The same under both assumptions.
pub fn alike(w: u64) -> Worlds
    ensures { by_world result ≡ (λ l. bits w l.at) }
{
    Worlds { no: w, yes: w }
}

pub fn both(a: Worlds, b: Worlds) -> Worlds
    ensures { by_world result ≡ (λ l. by_world a l && by_world b l) }
{
    Worlds {
        no: a.no & b.no,
        yes: a.yes & b.yes,
    }
}

pub fn either(a: Worlds, b: Worlds) -> Worlds
    ensures { by_world result ≡ (λ l. by_world a l || by_world b l) }
{
    Worlds {
        no: a.no | b.no,
        yes: a.yes | b.yes,
    }
}

pub fn less(a: Worlds, b: Worlds) -> Worlds
    ensures { by_world result ≡ (λ l. by_world a l && not (by_world b l)) }
{
    Worlds {
        no: a.no ^ (a.no & b.no),
        yes: a.yes ^ (a.yes & b.yes),
    }
}

pub fn put_worlds(w: Worlds, mask: u64, value: bool) -> Worlds
    ensures { by_world result ≡ (λ l. if bits mask l.at then value else by_world w l) }
{
    if value {
        either(w, alike(mask))
    } else {
        less(w, alike(mask))
    }
}

/// What holds where control can't come.
pub fn free_marks() -> Marks
    ensures { marks result ≡ marking (λ l. free) }
{
    Marks {
        set: 18446744073709551615,
        unset: Worlds {
            no: 18446744073709551615,
            yes: 18446744073709551615,
        },
    }
}

pub fn meet_marks(a: Marks, b: Marks) -> Marks
    ensures { marks result ≡ marking (λ l. meet ((marks a).each l) ((marks b).each l)) }
{
    Marks {
        set: a.set & b.set,
        unset: both(a.unset, b.unset),
    }
}

/// What holds behind `finally` where control came to it with `came`.
pub fn over_marks(last: Marks, came: Marks) -> Marks
    ensures { marks result ≡ marking (λ l. over ((marks last).each l) ((marks came).each l)) }
{
    Marks {
        set: came.set | last.set,
        unset: both(came.unset, last.unset),
    }
}

/// Before a clause, or a block behind `finally`.
pub fn entry_marks(m: Marks, wrote: u64) -> Marks
    ensures { marks result ≡ marking (λ l. entry_of ((marks m).each l) (bits wrote l.at)) }
{
    Marks {
        set: m.set,
        unset: less(m.unset, alike(wrote)),
    }
}

/// Some variables are assigned, or are as just declared.
pub fn put_marks(m: Marks, mask: u64, is_set: bool) -> Marks
    ensures { marks result ≡ marking (λ l. if (word mask).each l.at then mark_of is_set (not is_set) else (marks m).each l) }
{
    Marks {
        set: put(m.set, mask, is_set),
        unset: put_worlds(m.unset, mask, !is_set),
    }
}
