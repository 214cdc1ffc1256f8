// A stream of certificates, each after its length in two bytes, and what a box answers to it.
ghost use Rattle.std.specs.Prelude.{◌≡◌, ◌+◌, ◌≤◌, length, IfSome, IfOk};
ghost use Rattle.std.specs.Iterator.{YieldsFirstRef, item_count};
ghost use Rattle.settlement.specs.Seen.{ComesTo, take_answer_of, take_box_of};
ghost use Rattle.workbench.specs.Stream.{frame_size, certificates_in, told, answers_to, answers_of};
ghost use Rattle.workbench.specs.Bench.{started};

use crate::answer::Answer;
use book::Book;
use refusals::Fault;
use seals::Checker;
use settlement::ColdBox;
use std::alloc::{AllocError, Global};

// The length of the first certificate of a stream; none where it is cut short.
pub fn frame_size(stream: &[u8]) -> Option<usize>
    ensures answer { result ≡ frame_size stream.now }
    ensures within { IfSome result (λ n. (2 + n ≤ length stream.now) × (n ≤ 65535)) }
{
    let (size, rest) = stream.split_first_chunk::<2>()?;
    let size = usize::from(u16::from_be_bytes(*size));
    if rest.len() < size {
        return None;
    }
    Some(size)
}

// The certificates of a stream, up to the one that is cut short.
#[derive(Clone, Copy)]
pub struct Certificates<'a> {
    rest: &'a [u8],
}

impl<'a> Certificates<'a> {
    pub fn new(stream: &'a [u8]) -> Certificates<'a>
        ensures { result.rest.now ≡ stream.now }
    {
        Certificates { rest: stream }
    }
}

impl<'a> Iterator for Certificates<'a> {
    type Item = &'a [u8];

    ghost next_gives = { YieldsFirstRef (λ s. certificates_in s.rest.now) };

    ghost remaining = { item_count (λ s. certificates_in s.rest.now) };

    #[tactic(auto, using(crate::proofs::Frames::frames_none))]
    fn next(&mut self) -> Option<&'a [u8]> {
        let size = frame_size(self.rest)?;
        let (certificate, rest) = self.rest[2..].split_at(size);
        self.rest = rest;
        Some(certificate)
    }
}

// Hands a certificate to a box.
pub fn hand_in<B: Book, C: Checker>(cold: &mut ColdBox<B, C>, certificate: &[u8]) -> Answer
    ensures answer { result ≡ told (take_answer_of B.Book C.Checker cold.old certificate.now) }
    ensures left { ComesTo B.Book cold.old cold.new (take_box_of B.Book C.Checker cold.old certificate.now) }
{
    match cold.take(certificate) {
        Ok(count) => Answer::Settled(count),
        Err(fault) => Answer::Refused(fault.refusal().cause),
    }
}

// What a box answers to a stream: an answer for each certificate, up to the one that is cut short.
fn answer_each<B: Book, C: Checker>(
    heap: Global,
    cold: &mut ColdBox<B, C>,
    stream: &[u8],
) -> Result<Vec<Answer>, AllocError>
    ensures { IfOk result (λ v. v.items ≡ answers_of B.Book C.Checker cold.old (certificates_in stream.now)) }
{
    let mut answers = Vec::new(heap);
    for certificate in Certificates::new(stream) {
        answers.push(hand_in(cold, certificate))?;
    }
    Ok(answers)
}

// Sets box 0 of the bench's pool up and hands it a stream. Where memory is wanting there is no answer at all, and the
// box is gone with the book and the checker that were given. Its box stands in no variable before, so the clause names
// what the book and the checker show one by one.
#[tactic(auto, using(crate::proofs::Frames::never_refused, crate::proofs::Frames::set_up_started))]
pub fn answers<B: Book + Drop, C: Checker + Drop>(
    heap: Global,
    book: B,
    checker: C,
    stream: &[u8],
) -> Result<Vec<Answer>, AllocError>
    ensures { IfOk result (λ v. v.items ≡ answers_to B.Book.valid B.Book.next (C.Checker.good checker) (started (B.Book.opening book)) (certificates_in stream.now)) }
{
    match ColdBox::set_up(7, 0, 1, book, checker) {
        Ok(mut cold) => answer_each(heap, &mut cold, stream),
        Err(_) => unreachable(),
    }
}
