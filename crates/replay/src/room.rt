// Room for what a line says, and an output full of one byte, so that a byte that a call shouldn't write is seen.
use crate::text::holds;

// Room for what a field says.
pub(crate) const ZEROS: [u8; 8192] = [0; 8192];

// An output that is full of one byte.
pub(crate) const LENT: [u8; 8192] = [165; 8192];

// Whether these bytes stand first in an output, and after them what was lent.
pub(crate) fn left(out: &[u8], first: &[u8]) -> bool {
    holds(out, first, 165)
}
