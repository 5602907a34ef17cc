//! Which calls of an object in memory fail.
// Which calls of a form in memory fail. Calls are numbered from 1.
ghost use Rattle.std.specs.Prelude.{◌≡◌, ◌==◌, ◌≤◌, find};
ghost use Rattle.jc_outside.specs.Memory.{fails_next, after_call, next_fail, after_put};

use jc_rules::Items;

/// A put that fails, by its number from 1, and how many of its bytes go out before it does.
#[derive(Clone, Copy, Debug, PartialEq, Eq)]
pub struct Fail {
    pub call: u64,
    pub first: u32,
}

/// The numbers of the calls that are to fail, and how many calls and faults there were.
#[derive(Debug, Drop)]
pub struct Plan {
    pub fails: Items<u64>,
    pub calls: u64,
    pub faults: u64,
}

impl Plan {
    pub fn new(fails: Items<u64>) -> Plan
        ensures { result ≡ record { fails = fails; calls = 0; faults = 0 } }
    {
        Plan {
            fails,
            calls: 0,
            faults: 0,
        }
    }

    /// Counts a call, and tells whether it is to fail.
    pub fn is_fault(&mut self) -> bool
        ensures told { result ≡ fails_next self.old }
        ensures counted { self.new ≡ after_call self.old }
        ensures later { self.old.faults ≤ self.new.faults }
    {
        self.calls = self.calls.saturating_add(1);
        let fails = self.fails.slice().contains(&self.calls);
        if fails {
            self.faults = self.faults.saturating_add(1);
        }
        fails
    }
}

// The first entry of this call.
fn fail_at(fails: &[Fail], call: u64) -> Option<Fail>
    ensures { result ≡ find (λ fail. fail.call == call) fails.now }
{
    fails.iter().copied().find(|fail| fail.call == call)
}

/// The puts that are to fail, and how many puts and faults there were.
#[derive(Debug, Drop)]
pub struct PaperPlan {
    pub fails: Items<Fail>,
    pub calls: u64,
    pub faults: u64,
}

impl PaperPlan {
    pub fn new(fails: Items<Fail>) -> PaperPlan
        ensures { result ≡ record { fails = fails; calls = 0; faults = 0 } }
    {
        PaperPlan {
            fails,
            calls: 0,
            faults: 0,
        }
    }

    /// Counts a put, and tells how it is to fail, if it is.
    pub fn fault(&mut self) -> Option<Fail>
        ensures told { result ≡ next_fail self.old }
        ensures counted { self.new ≡ after_put self.old }
        ensures later { self.old.faults ≤ self.new.faults }
    {
        self.calls = self.calls.saturating_add(1);
        let fail = fail_at(self.fails.slice(), self.calls);
        if fail.is_some() {
            self.faults = self.faults.saturating_add(1);
        }
        fail
    }
}
