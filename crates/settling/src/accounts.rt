// The 64 accounts of a pool.
ghost use Rattle.settling.specs.Window.{Bounded};

use crate::account::Account;

// No number passes the greatest that a docket may have. The memory is fixed.
#[derive(Clone, Copy)]
pub struct Accounts {
    pub(crate) rows: [Account; 64],
    ghost small: { Bounded rows },
}
