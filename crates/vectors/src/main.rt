// Judges each dossier of a table, and says how many get the line that the table expects.
#![tactic(auto)]

mod hex;
mod outcome;
mod table;
mod tally;

use outcome::Outcome;
use std::{fs, io};
use table::Row;
use tally::Tally;

// How many disagreements are printed.
const SHOWN: usize = 20;

fn print_difference(rt: &impl Print, line: &str, outcome: Outcome) -> io::Result<()> {
    match outcome {
        Outcome::Unread => println!(rt; "not a row: {line}"),
        Outcome::Agrees => Ok(()),
        Outcome::Differs(Row { name, expected, .. }, answer) => {
            println!(rt; "{name}: expected {expected:?}, answered {answer:?}")
        }
    }
}

fn main(rt: HostRuntime) -> io::Result<()> {
    let table = fs::read_to_string(&rt, "dossiers.tsv")?;
    let mut tally = Tally::new();
    for line in table.as_str().lines() {
        let outcome = Outcome::of(rt.alloc(), line)?;
        tally.count(outcome.is_agreement());
        if tally.differ() <= SHOWN {
            print_difference(&rt, line, outcome)?;
        }
    }
    println!(&rt; "{tally}")
}
