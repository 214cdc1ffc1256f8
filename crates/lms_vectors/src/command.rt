// What a line asks for.
use std::num::ParseIntError;

// Text in hexadecimal stands as it was written.
#[derive(Clone, Copy, Debug)]
pub enum Command<'a> {
    Nothing,
    Hash(&'a str),
    Ramp(usize),
    Fill(&'a str, usize),
    Key(&'a str),
    Text(&'a str),
    Seal(&'a str),
    Put(usize, &'a str),
    Cut(usize),
    Check,
    Times(u32),
}

// A word that is none of the others asks for a check.
impl<'a> TryFrom<&'a str> for Command<'a> {
    type Error = ParseIntError;

    fn try_from(line: &'a str) -> Result<Command<'a>, ParseIntError> {
        let mut words = line.split(' ');
        let word = words.next().unwrap_or("");
        let first = words.next().unwrap_or("");
        let second = words.next().unwrap_or("");
        Ok(match word {
            "" => Command::Nothing,
            "hash" => Command::Hash(first),
            "ramp" => Command::Ramp(first.parse()?),
            "fill" => Command::Fill(first, second.parse()?),
            "key" => Command::Key(first),
            "text" => Command::Text(first),
            "seal" => Command::Seal(first),
            "put" => Command::Put(first.parse()?, second),
            "cut" => Command::Cut(first.parse()?),
            "times" => Command::Times(first.parse()?),
            _ => Command::Check,
        })
    }
}
