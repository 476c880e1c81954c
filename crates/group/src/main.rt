// The program for a press with more lanes: reads a table from standard input, at most 65,536 bytes of it, and writes its groups to standard output. Its one argument is
// the number of lanes.
#![tactic(auto)]

use model::LaneCount;
use std::env::FillError;
use std::io::{self, Write};
use std::rt::Env;

// The number that the one argument names, in one digit.
fn number_named(env: &impl Env) -> Option<u32> {
    let mut word = [0; 1];
    let Ok(1) = env.arg(1, &mut word) else {
        return None;
    };
    let Err(FillError::NotPresent) = env.arg(2, &mut [0; 1]) else {
        return None;
    };
    char::from(word[0]).to_digit(10)
}

fn main(rt: HostRuntime) -> io::Result<()> {
    // Anything else counts as 0, which no press has for its lanes.
    let lanes = LaneCount(number_named(&rt).unwrap_or(0) as usize);
    let mut table = [0; input::LONGEST];
    let length = input::read_full(&mut rt.reader(), &mut table)?;
    let mut groups = [0; run::OUTPUT];
    let printed = run::group_run(&table[..length], &mut groups, lanes);
    io::writer(&rt).write_all(&groups[..printed])
}
