// Reads a stream of certificates from standard input, hands them to box 0 of the bench's pool and prints what became
// of each, a line each.
#![tactic(auto)]

use std::io::Read;
use workbench::bench::bench_answers;

fn run(rt: &HostRuntime) -> anyhow::Result<()> {
    let mut stream = Vec::new(rt.alloc());
    rt.stdin().read_to_end(&mut stream)?;
    let answers = bench_answers(rt.alloc(), stream.as_slice())?;
    for answer in &answers {
        println!(rt; "{answer}")?;
    }
    Ok(())
}

fn main(rt: HostRuntime) -> anyhow::Result<()> {
    run(&rt)
}
