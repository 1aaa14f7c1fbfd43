// The report program: a card on standard input, its report on standard output. Of a longer input the first 10,500 bytes decide.
#![tactic(auto)]

ghost use Rattle.std.specs.Prelude.{◌≡◌, List, ℕ, ◌≤◌, length, take, IfOk};
ghost use Rattle.numbers.specs.Refuse.{numbered};
ghost use Rattle.card_report.specs.Report.{Printed};
ghost use Rattle.card.specs.Printing.{printed};

use card::report;
use numbers::refusal::Refusal;
use std::io;
use std::io::{Read, Write};

// Stays: the text of `report_input` fits the store (law `fits`), so that the other arm is never taken; a refusal that main handed on would have to be an error of io.
fn print_text(rt: &impl Print, text: Result<usize, Refusal>, out: &[u8]) -> io::Result<()> {
    match text {
        Ok(n) if n <= out.len() => io::writer(rt).write_all(&out[..n]),
        _ => Ok(()),
    }
}

// Reads until the bytes are full, or the input ends: how many were read.
fn read_full(reader: &mut impl Read, bytes: &mut [u8]) -> io::Result<usize>
    ensures { (length bytes.new ≡ length bytes.old) × IfOk result (λ n. n ≤ length bytes.old) }
{
    let mut n: usize = 0;
    while n < bytes.len() {
        let more = reader.read(&mut bytes[n..])?;
        if more == 0 {
            return Ok(n);
        }
        n += more;
    }
    Ok(n)
}

// The report of what was read: it is that of every input whose first 10,500 bytes are these.
fn report_input(bytes: &[u8], out: &mut [u8]) -> Result<usize, Refusal>
    requires { length out.old ≡ 13331 }
    ensures { (input : List ℕ) → take 10500 input ≡ bytes.now → Printed 0 (printed input) out.old (numbered result) out.new }
{
    report(bytes, out)
}

fn main(rt: HostRuntime) -> io::Result<()> {
    let mut bytes = [0u8; 10500];
    let mut out = [0u8; 13331];
    let n = read_full(&mut rt.reader(), &mut bytes)?;
    let text = report_input(&bytes[..n], &mut out);
    print_text(&rt, text, &out)
}
