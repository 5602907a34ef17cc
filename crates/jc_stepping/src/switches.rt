//! lookupswitch.
ghost use Rattle.std.specs.Prelude.{◌≡◌};
ghost use Rattle.jc_jvm.specs.Table.{case_of, switches};
ghost use Rattle.jc_plain.specs.Acted.{acted};

use jc_class_out::SwitchCase;
use jc_jvm::{Frame, Value};
use jc_plain::{Act, go_to};

fn case_for(cases: &[SwitchCase], n: i32, otherwise: u32) -> u32
    ensures { result ≡ case_of cases.now n otherwise }
{
    for case in cases {
        if case.key <= n && n <= case.key {
            return case.at;
        }
    }
    otherwise
}

/// Goes to the first case of the int on top, or else to the place for all others.
pub fn switch(otherwise: u32, cases: &[SwitchCase], now: &mut Frame) -> Act
    ensures { switches otherwise cases.now now.old now.old.stack.values ≡ acted result now.new }
{
    match now.stack.pop() {
        Some(Value::Whole(n)) => go_to(case_for(cases, n, otherwise), now),
        _ => Act::Fails,
    }
}
