// Reads lines of words and prints a line for each `hash`, `ramp`, `fill`, `check` and `times`.
//   hash HEX      the digest of these bytes, `-` for none
//   ramp N        the digest of the bytes 0, 1, .. N - 1 modulo 256
//   fill HH N     the digest of N bytes HH
//   key HEX, text HEX, seal HEX      what is checked from here on
//   put AT HEX    these bytes written over the seal, for the next check
//   cut N         the seal's first N bytes, for the next check
//   check         yes or no
//   times N       how many of N checks say yes
#![tactic(auto)]

mod bytes;
mod command;
mod repeats;
mod seals_check;

use bytes::from_hex;
use command::Command;
use layout::put;
use lms::KEYS;
use repeats::{ramp, repeated_digest};
use seals_check::{KEY_START, count_good, is_good};
use sha256::digest;
use std::io::Read;

#[derive(Drop)]
struct Desk {
    keys: [u8; KEYS],
    text: Vec<u8>,
    whole: Vec<u8>,
    seal: Vec<u8>,
}

fn print_digest(rt: &HostRuntime, digest: [u8; 32]) -> anyhow::Result<()> {
    for b in digest {
        print!(rt; "{b:02x}")?;
    }
    println!(rt; "")?;
    Ok(())
}

// Prints whether the seal is good; the next check begins with the whole one.
fn check(rt: &HostRuntime, desk: &mut Desk) -> anyhow::Result<()> {
    let good = is_good(&desk.keys, desk.text.as_slice(), desk.seal.as_slice());
    println!(rt; "{}", if good { "yes" } else { "no" })?;
    desk.seal = desk.whole.clone()?;
    Ok(())
}

fn obey(rt: &HostRuntime, desk: &mut Desk, command: Command<'_>) -> anyhow::Result<()> {
    let heap = rt.alloc();
    match command {
        Command::Nothing => {}
        Command::Hash(text) => print_digest(
            rt,
            digest(from_hex(heap, text.as_bytes())?.as_slice()),
        )?,
        Command::Ramp(n) => print_digest(rt, repeated_digest(&ramp(), n))?,
        Command::Fill(byte, n) => {
            let value = from_hex(heap, byte.as_bytes())?
                .first()
                .copied()
                .unwrap_or(0);
            print_digest(rt, repeated_digest(&[value; 256], n))?;
        }
        Command::Key(key) => put(
            &mut desk.keys,
            KEY_START,
            from_hex(heap, key.as_bytes())?.as_slice(),
        ),
        Command::Text(text) => desk.text = from_hex(heap, text.as_bytes())?,
        Command::Seal(seal) => {
            desk.whole = from_hex(heap, seal.as_bytes())?;
            desk.seal = desk.whole.clone()?;
        }
        Command::Put(at, part) => put(
            desk.seal.as_mut_slice(),
            at,
            from_hex(heap, part.as_bytes())?.as_slice(),
        ),
        Command::Cut(n) => desk.seal.truncate(n),
        Command::Check => check(rt, desk)?,
        Command::Times(n) => {
            let count = count_good(&desk.keys, desk.text.as_slice(), desk.seal.as_slice(), n);
            println!(rt; "{count}")?;
        }
    }
    Ok(())
}

fn run(rt: &HostRuntime) -> anyhow::Result<()> {
    let mut input = String::new(rt.alloc());
    rt.stdin().read_to_string(&mut input)?;
    let mut desk = Desk {
        keys: [0; KEYS],
        text: Vec::new(rt.alloc()),
        whole: Vec::new(rt.alloc()),
        seal: Vec::new(rt.alloc()),
    };
    for line in input.as_str().lines() {
        obey(rt, &mut desk, Command::try_from(line)?)?;
    }
    Ok(())
}

fn main(rt: HostRuntime) -> anyhow::Result<()> {
    run(&rt)
}
