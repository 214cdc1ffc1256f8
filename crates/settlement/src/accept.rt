// Which certificates a box accepts, and which dockets it then admits.
ghost use Rattle.std.specs.Prelude.{◌≡◌, ◌<◌, Some, Err, Decides};
ghost use Rattle.refusals.specs.Reading.{judged};
ghost use Rattle.std.specs.Str.{bytes_eq};
ghost use Rattle.docket.specs.Layout.{encoded};
ghost use Rattle.certificate.specs.Contents.{contents};
ghost use Rattle.certificate.specs.Table.{Rising};
ghost use Rattle.seals.specs.Texts.{box_party, countersign_text};
ghost use Rattle.settlement.specs.Accept.{seal_of, first_bad, unless_bad, judged_contents, accepted, admitted, occupied};
ghost use Rattle.settlement.specs.Faults.{box_reading};

use crate::cold::ColdBox;
use crate::faults::BoxFault;
use book::Book;
use certificate::{Certificate, Entry};
use docket::Docket;
use seals::{Checker, countersign_text};
use settling::Account;

impl<B: Book, C: Checker> ColdBox<B, C> {
    // The docket of a certificate that is well formed, of the pool, with enough entries, and every seal good.
    #[tactic(auto, unfolding(crate::specs::Accept::accepted))]
    pub(crate) fn accept(&self, bytes: &[u8]) -> Result<Docket, BoxFault>
        ensures { judged box_reading result ≡ accepted (C.Checker.good self.now.checker) self.now.pool self.now.boxes self.now.needed bytes.now }
    {
        let certificate = Certificate::read(self.boxes, bytes)?;
        self.judge(bytes, &certificate)
    }

    // The docket of a certificate that was read from the bytes.
    fn judge(&self, bytes: &[u8], certificate: &Certificate) -> Result<Docket, BoxFault>
        requires { Rising 13 0 (contents certificate.now).entries }
        ensures { judged box_reading result ≡ judged_contents (C.Checker.good self.now.checker) self.now.pool self.now.needed bytes.now (contents certificate.now) }
    {
        let docket = certificate.docket();
        if docket.pool != self.pool {
            return Err(BoxFault::AnotherPool);
        }
        let entries = certificate.entries();
        if entries.len() < self.needed as usize {
            return Err(BoxFault::TooFewEntries);
        }
        check_seals(&self.checker, bytes, docket, entries)
    }
}

// The docket, if every entry's box has sealed it; else the offset of the first entry whose seal is not good. A loop, since a
// closure would have to be told of each entry that its number is a box's.
#[tactic(auto, using(crate::proofs::Seals::number_below))]
fn check_seals<C: Checker>(
    checker: &C,
    bytes: &[u8],
    docket: Docket,
    entries: &[Entry],
) -> Result<Docket, BoxFault>
    requires { Rising 13 0 entries.now }
    ensures { judged box_reading result ≡ unless_bad docket (first_bad (C.good checker.now) bytes.now docket 4 entries.now) }
{
    let image = docket.to_bytes();
    for (i, entry) in entries.iter().enumerate() {
        if !is_sealed(checker, bytes, &image, entry) {
            return Err(BoxFault::BadSeal(4 + 8 * i));
        }
    }
    Ok(docket)
}

// Whether an entry's box has sealed the docket's bytes.
fn is_sealed<C: Checker>(checker: &C, bytes: &[u8], image: &[u8; 80], entry: &Entry) -> bool
    requires { entry.now.signer.number < 13 }
    ensures { result ≡ C.good checker.now (box_party entry.now.signer.number) (countersign_text entry.now.signer.number image.now) (seal_of bytes.now entry.now) }
{
    let number = entry.signer.number;
    let text = countersign_text(number, image);
    checker.check(64 + number, &text, entry.seal(bytes))
}

// The docket, if its number is one of the four from the account's next on, and its cell is free.
pub(crate) fn admit(account: &Account, docket: Docket) -> Result<Docket, BoxFault>
    ensures { judged box_reading result ≡ admitted account.now docket }
{
    if docket.number < account.next {
        return Err(BoxFault::BelowNext);
    }
    if docket.number - account.next > 3 {
        return Err(BoxFault::TooFarAhead);
    }
    match account.cell(docket.number) {
        None => Ok(docket),
        Some(waiting) => Err(clash(&waiting, &docket)),
    }
}

// Why a docket cannot go into a cell that holds one.
fn clash(waiting: &Docket, docket: &Docket) -> BoxFault
    ensures { Err (box_reading result) ≡ occupied docket.now (Some waiting.now) }
{
    if is_same(*waiting, *docket) {
        BoxFault::AlreadyWaiting
    } else {
        BoxFault::OtherWaiting
    }
}

// Whether two dockets are equal, said of their bytes, as the definitions of boxes and marks say it.
pub fn is_same(a: Docket, b: Docket) -> bool
    ensures bytes { result ≡ bytes_eq (encoded a) (encoded b) }
    ensures same { Decides result (a ≡ b) }
{
    a == b
}
