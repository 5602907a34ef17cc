//! Why tokens are no tree.
use jc_rules::Rule;

/// Why tokens are refused: at a token, where the end of the file counts as a last one, no tree begins with the tokens up to it; or
/// a form or word stands there that javag leaves out, by this rule.
#[derive(Clone, Copy, Debug, PartialEq, Eq)]
pub enum ParseFault {
    Syntax { token: u32 },
    LeftOut { rule: Rule, token: u32 },
}
