// The set over replica images (src/orswot.rs of the crate): every call under one name. A replica is an image, a run of bytes; each call checks what
// it is lent, and does its work or refuses with the lowest number that applies.
#![tactic(auto)]

pub use dots::{OpRefused, Refused};
pub use image::{check_image, clock};
pub use merging::{apply, merge, reset_remove};
pub use operations::Op;
pub use proposing::{Proposed, ProposedOne, add, add_all, rm, rm_all, validate_op};
pub use reading::{contains, empty, read, read_ctx};
pub use validating::{MergeRefused, Spent, validate_merge};
pub use walk::Walk;
