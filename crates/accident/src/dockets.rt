// The two dockets of the story, and the roll of the seals over them.
ghost use Rattle.std.specs.Prelude.{◌≡◌, ◌++◌, IfOk, OnOk};
ghost use Rattle.seals.specs.Roll.{is_of};
ghost use Rattle.seals.specs.Texts.{box_party};
ghost use Rattle.accident.specs.Story.{all_pallets, opening_balances, yard_entry, box_entries, story_roll, first_over, seal_over};

use book::PalletBook;
use docket::Docket;
use std::alloc::{AllocError, Global};
use workbench::bench::{only_docket, roll_entry};

// A docket under the number 1 of account 0, with its name, and the index of its yard's seal.
#[derive(Clone, Copy)]
pub struct Offer {
    pub name: char,
    pub docket: Docket,
    pub seal: u8,
}

// Moves all 480 pallets from account 0 to another.
pub fn offer_to(name: char, to: u8, seal: u8) -> Offer
    ensures { result ≡ record { name = name; docket = all_pallets to; seal = seal } }
{
    Offer {
        name,
        docket: only_docket(0, to, 480),
        seal,
    }
}

// The book that every box starts from: account 0 has 480 pallets.
pub fn opening() -> PalletBook
    ensures opening { result.opening ≡ opening_balances }
    ensures kept { result.kept ≡ opening_balances }
    ensures current { result.current ≡ opening_balances }
{
    let mut balances = [0u64; 64];
    balances[0] = 480;
    let Ok(book) = PalletBook::new(balances) else {
        unreachable()
    };
    book
}

// A roll entry of a yard. Its party, length and text differ from a box's; a shared one would take all three and be no
// shorter.
fn of_yard(docket: &Docket) -> [u8; 84]
    ensures { result ≡ yard_entry docket.now }
{
    let mut entry = [0u8; 84];
    entry[0] = docket.account;
    entry[1] = 80;
    entry[2..82].copy_from_slice(&docket.to_bytes());
    entry
}

// Adds the entries of boxes 0 to 3 over a docket. The loop's number is what is written; it indexes nothing.
fn add_boxes(bytes: &mut Vec<u8>, docket: &Docket) -> Result<(), AllocError>
    ensures { OnOk result (bytes.new.items ≡ bytes.old.items ++ box_entries 4 docket.now) }
{
    for number in 0..4u8 {
        bytes.extend_from_slice(&roll_entry(number, docket))?;
    }
    Ok(())
}

// The yard's seals over both dockets, then those of boxes 0 to 3 over the first, and over the second: any box could
// seal either, if it came to release its text.
pub fn roll(heap: Global, first: &Docket, second: &Docket) -> Result<Vec<u8>, AllocError>
    ensures { IfOk result (λ v. v.items ≡ story_roll first.now second.now) }
{
    let mut bytes = Vec::new(heap);
    bytes.extend_from_slice(&of_yard(first))?;
    bytes.extend_from_slice(&of_yard(second))?;
    add_boxes(&mut bytes, first)?;
    add_boxes(&mut bytes, second)?;
    Ok(bytes)
}

// An entry is of this box and of this text. Not `seals`' own, in which a party is a byte: 64 and a number may pass it.
fn is_of(entry: &[u8; 84], number: u8, text: &[u8; 82]) -> bool
    ensures { result ≡ is_of entry.now (box_party number) text.now }
{
    u16::from(entry[0]) == 64 + u16::from(number)
        && entry[1] == 82
        && text.as_slice() == &entry[2..]
}

// The index of the first entry of a box over a text.
fn first_over(roll: &[u8], number: u8, text: &[u8; 82]) -> Option<usize>
    ensures { result ≡ first_over roll.now number text.now }
{
    let (entries, _) = roll.as_chunks::<84>();
    entries.iter().position(|entry| is_of(entry, number, text))
}

// A box's seal over a text that it has released: the index of its entry, if it fits a byte.
pub fn seal_over(roll: &[u8], number: u8, text: &[u8; 82]) -> Option<u8>
    ensures { result ≡ seal_over roll.now number text.now }
{
    let index = first_over(roll, number, text)?;
    u8::try_from(index).ok()
}
