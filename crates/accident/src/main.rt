// Plays the accident that the box rules out: power is cut at four boxes while a docket is countersigned, and each is
// then asked to countersign another docket under the used number.
#![tactic(auto)]

mod boxes;
mod dockets;
mod telling;

ghost use Rattle.std.specs.Prelude.{◌≡◌, take, IfOk, Ok, OnErr, OnOk};
ghost use Rattle.certificate.specs.Layout.{read_certificate, contents_of};
ghost use Rattle.ready.specs.Seen.{slip_of};
ghost use Rattle.accident.specs.Story.{stand_of, checker_of, started, restarted, asked, text_for, votes_after, voted, cut_in_hand, voted_late, voted_at_cut, signers_in, seals_in, certified_answer, certified_buffer, certificate_of, reports_of, IsAt, WasAsked, HasTaken, voted_by_all, Each, WereCut, Agreed};

use crate::boxes::{NumberedBox, Report, Votes};
use crate::dockets::{offer_to, roll};
use crate::telling::{say, tell_deed, tell_refusal};
use anyhow::anyhow;
use certificate::{Certificate, Signer};
use marks::Outcome;
use ready::Slip;
use seals::{Checker, Roll};
use std::alloc::{AllocError, Global};

// The four boxes of the pool.
// No array: each is cut in its own way, and after a loop over `iter_mut` a proof knows nothing of the elements.
#[derive(Drop)]
struct FourBoxes<C> {
    first: NumberedBox<C>,
    second: NumberedBox<C>,
    third: NumberedBox<C>,
    fourth: NumberedBox<C>,
}

// Tells that a box has made a slip, and that power is cut then.
fn tell_cut(rt: &HostRuntime, number: u8, name: char) -> anyhow::Result<()> {
    tell_deed(rt, number, "makes a slip for", name)?;
    say(
        rt,
        "Power is cut at all four, and comes back; box 2 still has its slip:",
    )
}

// A box is cut with a slip in hand, and releases it after it has come back. The slip is spent even where nothing can be
// printed.
fn release_late<C: Checker + Drop>(
    rt: &HostRuntime,
    numbered: NumberedBox<C>,
    slip: Slip,
    votes: &mut Votes,
) -> anyhow::Result<NumberedBox<C>>
    ensures at { IfOk result (IsAt numbered.number (restarted (stand_of numbered)) (checker_of numbered)) }
    ensures votes { votes.new ≡ votes_after numbered.number votes.old (text_for (restarted (stand_of numbered)) (slip_of slip)) }
{
    let told = tell_cut(rt, numbered.number, votes.offer.name);
    let mut back = numbered.come_back();
    back.give_out(rt, slip, votes)?;
    told?;
    Ok(back)
}

// A box is asked to countersign a docket, and cut with the slip in hand.
fn cut_with_slip<C: Checker + Drop>(
    rt: &HostRuntime,
    mut numbered: NumberedBox<C>,
    votes: &mut Votes,
) -> anyhow::Result<NumberedBox<C>>
    ensures at { IfOk result (IsAt numbered.number (cut_in_hand (C.good (checker_of numbered)) (stand_of numbered) votes.old.offer) (checker_of numbered)) }
    ensures votes { votes.new ≡ voted_late (C.good (checker_of numbered)) numbered.number (stand_of numbered) votes.old }
{
    let seal = [0, votes.offer.seal];
    match numbered
        .ready
        .countersign(&votes.offer.docket.to_bytes(), &seal)
    {
        Ok(slip) => release_late(rt, numbered, slip, votes),
        Err(fault) => {
            tell_refusal(rt, numbered.number, fault)?;
            Ok(numbered)
        }
    }
}

// A box is set up beside a store whose writes end so, asked to countersign a docket, and cut.
fn cut_at<C: Checker + Drop>(
    rt: &HostRuntime,
    number: u8,
    checker: C,
    row: &[Outcome],
    votes: &mut Votes,
) -> anyhow::Result<NumberedBox<C>>
    ensures at { IfOk result (IsAt number (restarted (asked (C.good checker) (started number row.now) votes.old.offer)) checker) }
    ensures votes { OnOk result (votes.new ≡ voted (C.good checker) number (started number row.now) votes.old) }
{
    let mut numbered = NumberedBox::set_up(number, checker, row)?;
    numbered.ask_for(rt, votes)?;
    Ok(numbered.come_back())
}

// P is handed to all four boxes, and power is cut at each: at box 0 in the middle of a write that does not stand, at
// box 1 in the middle of one that does, at box 2 with a slip in hand, at box 3 at rest.
fn cut<C: Checker + Copy + Drop>(
    rt: &HostRuntime,
    checker: C,
    votes: &mut Votes,
) -> anyhow::Result<FourBoxes<C>>
    ensures cut { IfOk result (WereCut C.good checker votes.old.offer) }
    ensures votes { OnOk result (votes.new ≡ voted_at_cut (C.good checker) votes.old) }
{
    let first = cut_at(rt, 0, checker, &[Outcome::FailsOld], votes)?;
    let second = cut_at(rt, 1, checker, &[Outcome::FailsNew], votes)?;
    let fourth = cut_at(rt, 3, checker, &[], votes)?;
    let third = NumberedBox::set_up(2, checker, &[])?;
    Ok(FourBoxes {
        first,
        second,
        third: cut_with_slip(rt, third, votes)?,
        fourth,
    })
}

// A docket is handed to all four boxes.
fn hand_out<C: Checker>(
    rt: &HostRuntime,
    boxes: &mut FourBoxes<C>,
    votes: &mut Votes,
) -> anyhow::Result<()>
    ensures asked { OnOk result (Each (WasAsked C.good votes.old.offer) boxes.old boxes.new) }
    ensures votes { OnOk result (votes.new ≡ voted_by_all C.good boxes.old votes.old) }
{
    boxes.first.ask_for(rt, votes)?;
    boxes.second.ask_for(rt, votes)?;
    boxes.third.ask_for(rt, votes)?;
    boxes.fourth.ask_for(rt, votes)?;
    Ok(())
}

// The boxes whose seals were gathered, in their order, and those seals end to end. Loops: of a chain that gives two bytes a
// seal, the check does not know the whole list, and the two are plainest alike.
fn signers_in(heap: Global, votes: &Votes) -> Result<Vec<Signer>, AllocError>
    ensures { IfOk result (λ v. v.items ≡ signers_in 4 votes.now.seals) }
{
    let mut signers = Vec::new(heap);
    for (number, seal) in votes.seals.iter().enumerate() {
        if seal.is_some() {
            signers.push(Signer {
                number: number as u8,
                size: 2,
            })?;
        }
    }
    Ok(signers)
}

fn seals_in(heap: Global, votes: &Votes) -> Result<Vec<u8>, AllocError>
    ensures { IfOk result (λ v. v.items ≡ seals_in 4 votes.now.seals) }
{
    let mut seals = Vec::new(heap);
    for seal in &votes.seals {
        if let Some(seal) = *seal {
            seals.extend_from_slice(&[0, seal])?;
        }
    }
    Ok(seals)
}

// Writes the certificate that the votes make, and answers how long it is, as the writer does that it calls.
fn certify(heap: Global, votes: &Votes, out: &mut [u8; 256]) -> anyhow::Result<usize>
    ensures answer { IfOk result (λ n. Ok n ≡ certified_answer votes.now out.old) }
    ensures buffer { OnOk result (out.new ≡ certified_buffer votes.now out.old) }
    ensures back { IfOk result (λ n. read_certificate 4 (take n out.new) ≡ Ok (contents_of votes.now.offer.docket (signers_in 4 votes.now.seals))) }
    ensures unchanged { OnErr result (out.new ≡ out.old) }
{
    let signers = signers_in(heap, votes)?;
    let seals = seals_in(heap, votes)?;
    let Ok(length) = Certificate::write(4, &votes.offer.docket, &signers, &seals, out) else {
        return Err(anyhow!("the certificate was refused"));
    };
    Ok(length)
}

// The report that all are, if they are the same.
fn in_common(reports: &[Report; 4]) -> Option<Report>
    ensures { Agreed reports.now result }
{
    let first = reports[0];
    let same = reports.iter().all(|report| *report == first);
    same.then_some(first)
}

// All four boxes take a certificate; the answer is what they report, if it is the same.
fn take_all<C: Checker>(
    rt: &HostRuntime,
    boxes: &mut FourBoxes<C>,
    certificate: &[u8],
) -> anyhow::Result<Option<Report>>
    ensures took { OnOk result (Each (HasTaken C.good certificate.now) boxes.old boxes.new) }
    ensures agreed { IfOk result (Agreed (reports_of boxes.new)) }
{
    let reports = [
        boxes.first.hand_in(rt, certificate)?,
        boxes.second.hand_in(rt, certificate)?,
        boxes.third.hand_in(rt, certificate)?,
        boxes.fourth.hand_in(rt, certificate)?,
    ];
    Ok(in_common(&reports))
}

// All four boxes take the certificate that the votes make.
fn settle<C: Checker>(
    rt: &HostRuntime,
    boxes: &mut FourBoxes<C>,
    votes: &Votes,
) -> anyhow::Result<Option<Report>>
    ensures took { OnOk result (Each (HasTaken C.good (certificate_of votes.now)) boxes.old boxes.new) }
    ensures agreed { IfOk result (Agreed (reports_of boxes.new)) }
{
    let mut bytes = [0u8; 256];
    let length = certify(rt.alloc(), votes, &mut bytes)?;
    let Some(certificate) = bytes.get(0..length) else {
        return Err(anyhow!("a certificate of a wrong length"));
    };
    take_all(rt, boxes, certificate)
}

// P is handed out and power is cut; S is handed out; P is handed out again.
fn offer_both<C: Checker + Copy + Drop>(
    rt: &HostRuntime,
    checker: C,
    p: &mut Votes,
    s: &mut Votes,
) -> anyhow::Result<FourBoxes<C>> {
    say(rt, "P is handed to all four boxes:")?;
    let mut boxes = cut(rt, checker, p)?;
    say(rt, "S is handed to all four:")?;
    hand_out(rt, &mut boxes, s)?;
    say(rt, "P is handed to boxes 0 and 1 again:")?;
    boxes.first.ask_for(rt, p)?;
    boxes.second.ask_for(rt, p)?;
    Ok(boxes)
}

// The whole story, told step by step.
fn play<C: Checker + Copy + Drop>(
    rt: &HostRuntime,
    checker: C,
    mut p: Votes,
    mut s: Votes,
) -> anyhow::Result<()> {
    let mut boxes = offer_both(rt, checker, &mut p, &mut s)?;
    say(rt, "All four take what was gathered for S:")?;
    settle(rt, &mut boxes, &s)?;
    say(rt, "All four take what was gathered for P:")?;
    match settle(rt, &mut boxes, &p)? {
        Some(report) => tell(rt, &report),
        None => Err(anyhow!("the books differ")),
    }
}

// What all four boxes report.
fn tell(rt: &HostRuntime, report: &Report) -> anyhow::Result<()> {
    say(rt, "The books agree:")?;
    for (account, balance) in report.balances.iter().enumerate() {
        let balance = balance.unwrap_or(0);
        println!(rt; "  account {account}: {balance} pallets")?;
    }
    let next = report.next.unwrap_or(0);
    println!(rt; "  next number of account 0: {next}")?;
    Ok(())
}

fn run(rt: &HostRuntime) -> anyhow::Result<()> {
    say(
        rt,
        "Account 0 has 480 pallets; P moves them to account 1, S to account 2, both under number 1",
    )?;
    let p = offer_to('P', 1, 0);
    let s = offer_to('S', 2, 1);
    let bytes = roll(rt.alloc(), &p.docket, &s.docket)?;
    let roll = bytes.as_slice();
    let Ok(checker) = Roll::open(roll) else {
        return Err(anyhow!("the roll was refused"));
    };
    play(rt, checker, Votes::new(p, roll), Votes::new(s, roll))
}

fn main(rt: HostRuntime) -> anyhow::Result<()> {
    run(&rt)
}
