// Reads a hatch list on standard input and prints the report on it.
#![tactic(auto)]

ghost use Rattle.std.specs.Prelude.{◌≡◌, ◌≤◌, length, take, IfOk, IfSome, OnOk};
ghost use Rattle.std.specs.Io.KnownBytes.{Appends};
ghost use Rattle.report.specs.Report.{report_of};

use report::{PREFIX, REPORT_MAX};
use std::io::{self, Read, Write};

// Reads until the buffer is full or the input ends, and answers how many bytes it read. `read_exact` fails if the input ends first, and
// `read_to_end` needs a list on the heap, which the program does without.
fn read_all<R: Read>(from: &mut R, buffer: &mut [u8]) -> io::Result<usize>
    ensures bound { IfOk result (λ n. n ≤ length buffer.old) }
    ensures bytes { IfOk result (λ n. IfSome (R.remaining from.old) (λ input. take n buffer.new ≡ take (length buffer.old) input)) }
{
    let mut n = 0;
    while n < buffer.len() {
        let more = from.read(&mut buffer[n..])?;
        if more == 0 {
            return Ok(n);
        }
        n += more;
    }
    Ok(n)
}

// What went wrong.
enum Failure {
    Read,
    Write,
}

// Prints the report on the whole input. Of a longer input it reads PREFIX bytes, which decide the report. The clause is of readers and writers whose
// bytes are known, and std does not tell those of the standard streams: that a run of `main` prints the report is tested, and not proved.
fn print_report<R: Read, W: Write>(from: &mut R, to: &mut W) -> Result<(), Failure>
    ensures { OnOk result (IfSome (R.remaining from.old) (λ input. Appends (W.contents to.old) (W.contents to.new) (report_of input))) }
{
    let mut bytes = [0u8; PREFIX];
    let Ok(n) = read_all(from, &mut bytes) else {
        return Err(Failure::Read);
    };
    let mut out = [0u8; REPORT_MAX];
    let m = report::report(&bytes[..n], &mut out);
    let Ok(()) = to.write_all(&out[..m]) else {
        return Err(Failure::Write);
    };
    Ok(())
}

fn main(rt: HostRuntime) {
    let told = match print_report(&mut rt.stdin(), &mut io::writer(&rt)) {
        Ok(()) => return,
        Err(Failure::Read) => "hatch_clip: cannot read standard input\n",
        Err(Failure::Write) => "hatch_clip: cannot write standard output\n",
    };
    let _ = rt.eprint(told);
}
