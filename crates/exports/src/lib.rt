// The library as C calls it: the functions of include/gatelichen.h, each thin over the Rattle call of the same name; `exports_c` hands them to C. Images,
// clocks and outputs are bytes, all else is numbers. Nothing is asked of a caller but what the header asks: any content of any input is judged.
#![tactic(auto)]

mod reads;
mod validates;
mod writes;

pub use reads::{gatelichen_check, gatelichen_clock, gatelichen_contains, gatelichen_read};
pub use validates::{
    gatelichen_validate_add, gatelichen_validate_merge, gatelichen_validate_remove,
};
pub use writes::{
    gatelichen_add, gatelichen_empty, gatelichen_merge, gatelichen_remove, gatelichen_reset,
};
