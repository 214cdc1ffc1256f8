// A certificate as a value. It owns its table; the seals stay in the bytes that it came in.
ghost use Rattle.std.specs.Prelude.{◌≤◌};

use crate::table::Entry;
use docket::Docket;

// A quorum certificate: a docket, and for each of several boxes an entry for its seal over the docket.
#[derive(Clone, Copy)]
pub struct Certificate {
    pub(crate) docket: Docket,
    // Room and a count: `entries` lends the entries as one slice, which cells that may be empty could not, and the value is
    // `Copy`, which a list of the kit's is not.
    pub(crate) count: usize,
    pub(crate) table: [Entry; 13],
    ghost fits: { count ≤ 13 },
}
