//! What is joined so far of a chain.
use jc_exprs_nodes::Part;
use jc_exprs_operators::Folded;
use jc_rules::Place;

/// What is joined so far of a chain of binary operators: its first token, the place in the arena of its type, and what it is made of.
#[derive(Drop)]
pub struct JoinedAt {
    pub start: Place,
    pub ty: u32,
    pub form: JoinedForm,
}

/// An expression; a constant, whose value is put into the arena only where the chain goes on without folding; a first operand with links; or the operands of `&&` or `||`, and the numbers of the
/// captured variables before their second one and behind them all.
#[derive(Drop)]
pub enum JoinedForm {
    Whole(Part),
    Fixed(Folded),
    Linked {
        first: u32,
        links: u32,
    },
    Listed {
        is_and: bool,
        operands: u32,
        from: u64,
        up_to: u64,
    },
}

/// A right operand, and the numbers of the captured variables before it and behind it.
#[derive(Clone, Copy, Debug)]
pub struct Right {
    pub part: Part,
    pub from: u64,
    pub up_to: u64,
}
