// The ready box as a value.
use settlement::ColdBox;

// A box that countersigns: a cold box, and the store of its marks.
#[derive(Drop)]
pub struct ReadyBox<B, C, S> {
    pub(crate) cold: ColdBox<B, C>,
    pub(crate) store: S,
}
