// A sheet and a script of edits, played: document 01, "Edits on a held plan". The argument names the sheet and the script comes by standard
// input; each of its lines is answered by `ok`, by `refusal` with number and carry, or by the listing. `stdout` beside `src` is what must come out.
#![tactic(auto)]

mod answers;
mod play;
mod script;
mod words;

ghost use Rattle.std.specs.Prelude.{◌≤◌, IfOk, length};

use answers::{Answers, refuse};
use plan::{Plan, plan_tasks};
use play::play_bytes;
use script::Pending;
use sheet::{SHEET_MOST, Sheet, read_sheet};
use std::env::FillError;
use std::io::Read as _;
use std::rt::{Env, Files};
use std::{fs, io, str};
use task::{Fault, Refused};
use words::tell_failure;

/// A held plan, and the line under way.
#[derive(Clone, Copy)]
pub struct Desk {
    pub plan: Plan,
    pub line: Pending,
}

// Room for a sheet of the largest size, and one byte more: that is enough for its refusal.
const SHEET_ROOM: usize = SHEET_MOST + 1;

// Reads until the room is full or the file is at its end, and says how many bytes came.
fn fill(file: &mut impl io::Read, room: &mut [u8]) -> io::Result<usize>
    ensures { IfOk result (λ n. n ≤ length room.new) }
{
    let mut done = 0;
    while done < room.len() {
        let n = file.read(&mut room[done..])?;
        if n == 0 {
            break;
        }
        done += n;
    }
    Ok(done)
}

// Reads the sheet in a file.
fn sheet_in(rt: &impl Files, path: &str) -> io::Result<Result<Sheet, Refused>> {
    let mut file = fs::open(rt, path)?;
    let mut buf = [0u8; SHEET_ROOM];
    let n = fill(&mut file, &mut buf)?;
    Ok(read_sheet(&buf[..n]))
}

// Plays the whole script. A proved loop has to end, and nothing says that a script does: it counts its reads, up to a number that no run reaches.
fn play_all(rt: &(impl Print + Input + Eprint), plan: Plan) -> io::Result<()> {
    let mut answers = Answers::new(rt);
    let mut script = rt.reader();
    let mut desk = Desk {
        plan,
        line: Pending::fresh(),
    };
    for _ in 0..u64::MAX {
        let mut buf = [0u8; 4096];
        match script.read(&mut buf) {
            Ok(0) => break,
            Ok(n) => play_bytes(&mut answers, &mut desk, &buf[..n]),
            Err(error) => {
                tell_failure(rt, "standard input", &error)?;
                break;
            }
        }
        if answers.failed() {
            break;
        }
    }
    answers.outcome()?;
    if 0 < desk.line.len {
        refuse(rt, Fault::Form, 0)?;
    }
    Ok(())
}

// Plays the script over the plan of a sheet; a refused sheet is the one answer.
fn play_sheet(rt: &(impl Print + Input + Eprint), read: Result<Sheet, Refused>) -> io::Result<()> {
    let sheet = match read {
        Ok(sheet) => sheet,
        Err(refused) => return refuse(rt, refused.fault, refused.carries),
    };
    match plan_tasks(sheet.machine, sheet.costs, sheet.tasks) {
        Ok(plan) => play_all(rt, plan),
        Err(refused) => refuse(rt, refused.fault, refused.carries),
    }
}

// Plays the script over the sheet at the path.
fn play_path(rt: &(impl Print + Input + Eprint + Files), path: &str) -> io::Result<()> {
    match sheet_in(rt, path) {
        Ok(read) => play_sheet(rt, read),
        Err(error) => tell_failure(rt, path, &error),
    }
}

fn main(rt: HostRuntime) -> io::Result<()> {
    let mut path = [0u8; 4096];
    match rt.arg(1, &mut path) {
        Ok(n) => match str::from_utf8(&path[..n]) {
            Ok(path) => play_path(&rt, path),
            Err(error) => eprintln!(rt; "the sheet's path: {error}"),
        },
        Err(FillError::NotPresent) => eprintln!(rt; "the sheet's path: Invalid argument"),
        Err(FillError::TooLong) => eprintln!(rt; "the sheet's path: File name too long"),
    }
}
