//! How a computation ends without a value, and the run that it is part of.
use jc_heaps::State;
use jc_meaning::{Frame, Read};
use jc_rules::{Items, WantOfMemory};
use jc_types::Ty;

/// How a computation ends without a value: by a thrown object, by the program's own exit, because the units are spent, because
/// the program is none that was checked, or for want of memory.
#[derive(Clone, Copy, Debug, PartialEq, Eq)]
pub enum Halt {
    Thrown(u64),
    Exited(i32),
    Going,
    Wrong,
    WantOfMemory,
}

impl From<WantOfMemory> for Halt {
    ghost use Rattle.std.specs.Prelude.{◌≡◌};
    ghost use Rattle.jc_values.specs.declared.halt.Halt.TheVariants.{WantOfMemory as no_memory};

    ghost from_gives = { λ _ e. e ≡ no_memory };

    fn from(_: WantOfMemory) -> Self {
        Halt::WantOfMemory
    }
}

/// A running typed program: the units that are left, and its state.
#[derive(Drop)]
pub struct Running {
    pub units: u64,
    pub state: State<Ty, Frame, Items<Read>>,
}
