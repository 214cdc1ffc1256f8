// The table of a certificate: which box sealed, how long its seal is, and where it starts.
ghost use Rattle.std.specs.Prelude.{◌≡◌, ◌+◌, ◌≤◌};
ghost use Rattle.std.specs.List.{between};

// A box whose seal stands in the certificate, and the seal's length in bytes.
#[derive(Clone, Copy, PartialEq, Eq, Debug)]
pub struct Signer {
    pub number: u8,
    pub size: u16,
}

impl Signer {
    // The least number that the next box may have.
    pub(crate) fn next_number(self) -> u16
        ensures { result ≡ self.number + 1 }
    {
        self.number as u16 + 1
    }

    // Where the next seal starts, if this one starts at `place`.
    pub(crate) fn next_place(self, place: u32) -> u32
        requires { place ≤ 1000000 }
        ensures value { result ≡ place + self.size }
        ensures bound { result ≤ place + 65535 }
    {
        place + self.size as u32
    }
}

// An entry of the table: a signer, and where its seal starts in the certificate.
#[derive(Clone, Copy, PartialEq, Eq, Debug)]
pub struct Entry {
    pub signer: Signer,
    pub place: u32,
}

impl Entry {
    // The seal in the certificate's bytes, or as much of it as lies in them.
    pub fn seal<'a>(&self, bytes: &'a [u8]) -> &'a [u8]
        ensures { result.now ≡ between self.now.place (self.now.place + self.now.signer.size) bytes.now }
    {
        part(bytes, self.place as usize, self.signer.size as usize)
    }
}

// As much as there is of the `size` bytes from an offset on.
fn part(bytes: &[u8], at: usize, size: usize) -> &[u8]
    requires { size ≤ 65535 }
    ensures { result.now ≡ between at (at + size) bytes.now }
{
    let start = bytes.len().min(at);
    let end = bytes.len().min(start + size);
    &bytes[start..end]
}
