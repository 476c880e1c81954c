// The program: reads a table from standard input, at most 65,536 bytes of it, and writes its plan to standard output.
#![tactic(auto)]

use std::io::{self, Write};

fn main(rt: HostRuntime) -> io::Result<()> {
    let mut table = [0; input::LONGEST];
    let length = input::read_full(&mut rt.reader(), &mut table)?;
    let mut plan = [0; run::OUTPUT];
    let printed = run::whole_run(&table[..length], &mut plan);
    io::writer(&rt).write_all(&plan[..printed])
}
