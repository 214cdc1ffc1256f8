// The bench: pool 7, one box of four may be faulty, two pallets, and three dockets that move one each.
ghost use Rattle.std.specs.Prelude.{◌≡◌, ◌<◌, IfOk};
ghost use Rattle.workbench.specs.Bench.{opening_balances, only_docket, one_pallet, roll_entry, entries_of, bench_roll, bench_answers};

use crate::answer::Answer;
use crate::stream::answers;
use book::PalletBook;
use docket::Docket;
use seals::{Roll, countersign_text};
use std::alloc::{AllocError, Global};

// Accounts 0 and 2 open with a pallet each.
pub fn opening_balances() -> [u64; 64]
    ensures { result ≡ opening_balances }
{
    let mut balances = [0u64; 64];
    balances[0] = 1;
    balances[2] = 1;
    balances
}

// The docket of number 1 of an account that moves pallets to another in its one line.
pub fn only_docket(from: u8, to: u8, pallets: u16) -> Docket
    ensures { result ≡ only_docket from to pallets }
{
    let blank = [0u8; 16];
    let [high, low] = pallets.to_be_bytes();
    Docket {
        pool: 7,
        account: from,
        count: 1,
        number: 1,
        lines: [
            [1, to, 0, 0, 0, 0, 0, 0, 0, 0, 0, 0, 0, 0, high, low],
            blank,
            blank,
            blank,
        ],
    }
}

// The same of one pallet.
pub fn one_pallet(from: u8, to: u8) -> Docket
    ensures { result ≡ one_pallet from to }
{
    only_docket(from, to, 1)
}

// The bench's dockets.
#[derive(Clone, Copy, PartialEq, Eq, Debug)]
pub enum BenchDocket {
    P,
    Q,
    R,
}

// By their order: P is 0, Q is 1, and R any other.
impl From<usize> for BenchDocket {
    ghost use Rattle.workbench.specs.Bench.{in_order};

    ghost from_gives = { λ index name. name ≡ in_order index };

    fn from(index: usize) -> BenchDocket {
        match index {
            0 => BenchDocket::P,
            1 => BenchDocket::Q,
            _ => BenchDocket::R,
        }
    }
}

impl BenchDocket {
    ghost use Rattle.workbench.specs.Bench.{docket_of};

    // P moves its pallet from account 0 to 1, Q from 1 to 0, R from 2 to 1.
    pub fn docket(self) -> Docket
        ensures { result ≡ docket_of self }
    {
        match self {
            BenchDocket::P => one_pallet(0, 1),
            BenchDocket::Q => one_pallet(1, 0),
            BenchDocket::R => one_pallet(2, 1),
        }
    }
}

// The roll's entry that says that a box sealed a docket. A pool's boxes have numbers below 13.
pub fn roll_entry(number: u8, docket: &Docket) -> [u8; 84]
    ensures { result ≡ roll_entry number docket.now }
{
    let mut entry = [0u8; 84];
    entry[0] = number.wrapping_add(64);
    entry[1] = 82;
    entry[2..].copy_from_slice(&countersign_text(number, &docket.to_bytes()));
    entry
}

// The entries of boxes 0 to 2 over one of the dockets.
fn entries_of(name: BenchDocket) -> [[u8; 84]; 3]
    ensures { result ≡ entries_of name }
{
    let docket = name.docket();
    [
        roll_entry(0, &docket),
        roll_entry(1, &docket),
        roll_entry(2, &docket),
    ]
}

// The bench's roll: boxes 0 to 2 for P, then for Q, then for R.
#[tactic(auto, unfolding(crate::specs::Bench::bench_roll))]
pub fn roll() -> [u8; 756]
    ensures { result ≡ bench_roll }
{
    let entries = [
        entries_of(BenchDocket::P),
        entries_of(BenchDocket::Q),
        entries_of(BenchDocket::R),
    ];
    let mut bytes = [0u8; 756];
    bytes.copy_from_slice(entries.as_flattened().as_flattened());
    bytes
}

// What box 0 of the bench's pool answers to a stream. Where memory is wanting there is no answer at all.
#[tactic(auto, using(crate::proofs::Rolls::bench_laid, crate::proofs::Rolls::opened), unfolding(crate::specs::Bench::bench_answers))]
pub fn bench_answers(heap: Global, stream: &[u8]) -> Result<Vec<Answer>, AllocError>
    ensures { IfOk result (λ v. v.items ≡ bench_answers stream.now) }
{
    let Ok(book) = PalletBook::new(opening_balances()) else {
        unreachable()
    };
    let bytes = roll();
    let Ok(checker) = Roll::open(&bytes) else {
        unreachable()
    };
    answers(heap, book, checker, stream)
}
