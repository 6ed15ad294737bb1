// Operations on the set (src/orswot.rs of the crate).
#![tactic(auto)]

use dots::Dot;

// An add carrying a dot, or a remove. A remove's clock and either's members come beside it.
#[derive(Clone, Copy)]
pub enum Op {
    Add(Dot),
    Remove,
}
