// The lines of the story.
use settlement::BoxFault;

pub fn say(rt: &HostRuntime, text: &str) -> anyhow::Result<()> {
    println!(rt; "{text}")?;
    Ok(())
}

// What a box does with a docket.
pub fn tell_deed(rt: &HostRuntime, number: u8, deed: &str, name: char) -> anyhow::Result<()> {
    println!(rt; "  box {number}: {deed} {name}")?;
    Ok(())
}

pub fn tell_refusal(rt: &HostRuntime, number: u8, fault: BoxFault) -> anyhow::Result<()> {
    println!(rt; "  box {number}: {fault}")?;
    Ok(())
}
