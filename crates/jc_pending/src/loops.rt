//! What a loop still has to do.
use jc_rules::Place;
use jc_running::Value;

/// An enhanced `for` (JLS 14.14.2): its number as the target of a jump, its place, how an element goes into its variable, and its
/// body.
#[derive(Clone, Copy)]
pub struct Each {
    pub own: u32,
    pub place: Place,
    pub ty: u32,
    pub captures: u32,
    pub steps: u32,
    pub local: u32,
    pub body: u32,
}

/// A turn of a loop.
#[derive(Clone, Copy)]
pub enum TurnTask {
    While {
        own: u32,
        test: u32,
        body: u32,
    },
    Do {
        own: u32,
        body: u32,
        test: u32,
    },
    For {
        own: u32,
        test: u32,
        update: u32,
        body: u32,
    },
    Iterate {
        each: Each,
        iterator: Value,
    },
}

/// Inside a turn, behind a test or an element.
#[derive(Clone, Copy)]
pub enum ValueToTurn {
    While { own: u32, body: u32 },
    For { own: u32, body: u32, update: u32 },
    Do,
    HasNext { each: Each, iterator: Value },
    Next { each: Each },
}

/// Inside a turn, behind the body.
#[derive(Clone, Copy)]
pub enum CompletionToTurn {
    While { own: u32 },
    For { own: u32, update: u32 },
    Do { own: u32, test: u32 },
}

/// Inside a turn, behind the update of a `for`, and behind an element that is in its variable.
#[derive(Clone, Copy)]
pub enum NothingToTurn {
    Again,
    Body { own: u32, body: u32 },
}

/// Behind a turn, where `left` turns more are possible.
#[derive(Clone, Copy)]
pub enum TurnToCompletion {
    Turned { turn: TurnTask, left: u64 },
}

/// A turn over the element at a place of an array.
#[derive(Clone, Copy)]
pub enum NumberedTask {
    Element { each: Each, array: Value, at: u64 },
}

#[derive(Clone, Copy)]
pub enum NothingToNumbered {
    Body { own: u32, body: u32, next: u64 },
}

#[derive(Clone, Copy)]
pub enum CompletionToNumbered {
    After { own: u32, next: u64 },
}

#[derive(Clone, Copy)]
pub enum NumberedToCompletion {
    Turned { each: Each, array: Value, left: u64 },
}
