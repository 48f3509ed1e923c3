//! Answers a file of orders, a line for each.
#![tactic(auto)]

ghost use Rattle.std.specs.Prelude.{◌≤◌, length, IfOk};

mod line;

use line::Line;
use std::io::{self, BufWriter, Read, Write};
use std::process::ExitCode;
use std::rt::{Env, Files};
use std::{env, fs};
use thiserror::Error;
use wire::order;

/// How many bytes are read at a time: 4,096 orders.
const PIECE: usize = 69_632;

const WANTED: &str = "give one file of 17-byte orders, or - for standard input";

/// Why the program ends with status 1.
#[derive(Debug, Drop, Error)]
enum Failure {
    #[error("{WANTED}")]
    Arguments,
    #[error("can't open {0}: {1}; {WANTED}")]
    Open(String, io::Error),
    #[error("not enough memory")]
    Memory,
    #[error("can't read the orders: {0}")]
    Read(io::Error),
    #[error("can't write the answers: {0}")]
    Write(io::Error),
}

fn main(rt: HostRuntime) -> ExitCode {
    match run(&rt) {
        Ok(()) => ExitCode::SUCCESS,
        Err(failure) => {
            let _ = eprintln!(rt; "desk: {failure}");
            ExitCode::FAILURE
        }
    }
}

fn run(rt: &(impl Env + Files + Input + Print + AllocGlobal)) -> Result<(), Failure> {
    let mut args = env::args(rt).map_err(|_| Failure::Arguments)?.skip(1);
    let (Some(path), None) = (args.next(), args.next()) else {
        return Err(Failure::Arguments);
    };
    if path.as_str() == "-" {
        return answer_all(rt, rt.reader());
    }
    let file = fs::open(rt, path.as_str()).map_err(|error| Failure::Open(path, error))?;
    answer_all(rt, file)
}

/// Answers every order of the input.
fn answer_all(rt: &(impl Print + AllocGlobal), mut input: impl Read + Drop) -> Result<(), Failure> {
    // Nothing but memory can fail here. All of it is asked for before a line is printed.
    let mut piece = vec![in rt.alloc(); 0; PIECE].map_err(|_| Failure::Memory)?;
    let mut out = BufWriter::new(rt.alloc(), io::writer(rt)).map_err(|_| Failure::Memory)?;
    // The library's bound for an input that may never end.
    for _ in 0..u64::MAX {
        let filled = fill(&mut input, &mut piece).map_err(Failure::Read)?;
        if filled == 0 {
            break;
        }
        print_lines(&piece[..filled], &mut out).map_err(Failure::Write)?;
    }
    Ok(())
}

/// Reads on until there are whole orders, the piece is full, or the input ends; so an order is answered before more are sent.
// Not by a `BufReader`: that asks for more than the piece lacks, which others who read the same input miss, and of a message that is longer the piece gets more.
fn fill(input: &mut impl Read, piece: &mut [u8]) -> io::Result<usize>
    ensures { IfOk result (λ n. n ≤ length piece.new) }
{
    let mut filled = 0;
    while filled < piece.len() {
        let more = input.read(&mut piece[filled..])?;
        filled += more;
        if more == 0 || filled % order::LENGTH == 0 {
            break;
        }
    }
    Ok(filled)
}

/// Prints a line for each of these orders; the last may have fewer bytes than an order has.
fn print_lines(orders: &[u8], out: &mut impl Write) -> io::Result<()> {
    for order in orders.chunks(order::LENGTH) {
        writeln!(out, "{}", Line::from(order))?;
    }
    out.flush()
}
