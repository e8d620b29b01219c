// A log of records from standard input, answered on standard output.
#![tactic(auto)]

ghost use Rattle.std.specs.Prelude.{◌≡◌, is_ok};
ghost use Rattle.std.specs.Process.{exit_status};
ghost use Rattle.tables.specs.Lent.{given_open, lent_open};
ghost use Rattle.run_log.specs.Carried.{Carries, Carried, status_of};

use replay::{answer_end, answer_piece};
use std::io;
use std::io::{ErrorKind, Read, Write};
use std::process::ExitCode;
use tables::{OpenTables, TALLY};

// Why a run stopped before the end of its input, or before its last answer.
#[derive(Drop)]
enum Failure {
    Unread(io::Error),
    Unwritten(io::Error),
}

// Answers a piece of the input and writes the answers, a buffer at a time. It fails where a write does.
fn carry<W: Write>(
    output: &mut W,
    town: OpenTables<'_>,
    piece: &[u8],
    held: &mut [u8],
    out: &mut [u8],
) -> io::Result<()>
    requires { Carries (given_open town) held.old out.old }
    ensures { Carried (lent_open town) piece.now held.old held.new out.new (is_ok result) }
{
    let OpenTables {
        head,
        zones,
        cars,
        spots,
        starts,
        entries,
        rosters,
        tallies,
    } = town;
    let mut at = 0;
    // No `for`: a turn goes on behind what the call has read.
    while at < piece.len() {
        let town = OpenTables {
            head: &mut *head,
            zones: &mut *zones,
            cars: &mut *cars,
            spots: &mut *spots,
            starts: &mut *starts,
            entries: &mut *entries,
            rosters: &mut *rosters,
            tallies: &mut *tallies,
        };
        let Ok(filled) = answer_piece(town, &piece[at..], held, out) else {
            unreachable!();
        };
        output.write_all(&out[..filled.wrote])?;
        at += filled.read;
    }
    Ok(())
}

// Answers what is held at the end of the input, and writes the answer.
fn finish<W: Write>(
    output: &mut W,
    town: OpenTables<'_>,
    held: &mut [u8],
    out: &mut [u8],
) -> io::Result<()>
    requires { Carries (given_open town) held.old out.old }
{
    let Ok(filled) = answer_end(town, held, out) else {
        unreachable!();
    };
    output.write_all(&out[..filled.wrote])
}

// Reads, answers and writes, a piece at a time, up to the end of the input. Where a read fails, what is held of a line is not
// answered. A read that was merely interrupted is tried again. Nothing says that an input ends, so the loop counts up to a
// number that no run reaches.
fn run<R: Read, W: Write>(input: &mut R, output: &mut W) -> Result<(), Failure> {
    let mut head = [0u32; 6];
    let mut zones = [0u32; 64];
    let mut cars = [0u32; 64];
    let mut spots = [0.0f32; 128];
    let mut starts = [0u32; 5462];
    let mut entries = [0u32; 2048];
    let mut rosters = [0u8; 1024];
    let mut tallies = [0u32; 16 * TALLY];
    let mut piece = [0u8; 65536];
    let mut held = [0u8; 82];
    let mut out = [0u8; 65536];
    for _ in 0..u64::MAX {
        let n = match input.read(&mut piece) {
            Ok(n) => n,
            Err(error) if error.kind() == ErrorKind::Interrupted => continue,
            Err(error) => return Err(Failure::Unread(error)),
        };
        let town = OpenTables {
            head: &mut head,
            zones: &mut zones,
            cars: &mut cars,
            spots: &mut spots,
            starts: &mut starts,
            entries: &mut entries,
            rosters: &mut rosters,
            tallies: &mut tallies,
        };
        if n == 0 {
            return finish(output, town, &mut held, &mut out).map_err(Failure::Unwritten);
        }
        carry(output, town, &piece[..n], &mut held, &mut out).map_err(Failure::Unwritten)?;
    }
    Err(Failure::Unread(io::Error::other("too many reads")))
}

// Says on standard error why a run stopped. The status is 0 where it came to its end.
fn tell(rt: &impl Eprint, ended: Result<(), Failure>) -> ExitCode
    ensures { exit_status result ≡ status_of ended }
{
    let (what, error) = match ended {
        Ok(()) => return ExitCode::SUCCESS,
        Err(Failure::Unread(error)) => (
            "the input cannot be read; a line that has not ended is not carried out",
            error,
        ),
        Err(Failure::Unwritten(error)) => ("the answers cannot be written", error),
    };
    let _ = match error.kind() {
        // A write took no byte: no call of the system failed, so there is no reason to name.
        ErrorKind::WriteZero => eprintln!(rt; "log: {what}"),
        _ => eprintln!(rt; "log: {what}: {error}"),
    };
    ExitCode::FAILURE
}

fn main(rt: HostRuntime) -> ExitCode {
    let ended = run(&mut rt.stdin(), &mut rt.stdout());
    tell(&rt, ended)
}
