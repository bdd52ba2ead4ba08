// matplan: reads a task list file from standard input, plans it, and prints the plan or why there is none.

#![tactic(auto)]

use anyhow::anyhow;
use arrayvec::ArrayVec;
use files::program::Outcome;
use files::program::calls::plan_file;
use std::io;
use std::io::{Read, Write};
use std::process::ExitCode;

// One byte more than the longest list file, so that a longer one shows.
const INPUT_ROOM: usize = 8_193;

// More than the longest report.
const OUTPUT_ROOM: usize = 4_096;

fn main(rt: HostRuntime) -> anyhow::Result<ExitCode> {
    let mut input: ArrayVec<u8, INPUT_ROOM> = ArrayVec::new();
    io::copy(&mut rt.stdin().take(INPUT_ROOM as u64), &mut input)?;
    let mut output = [0u8; OUTPUT_ROOM];
    let (printed, status) = match plan_file(input.as_slice(), &mut output) {
        Ok(Outcome::Planned(printed)) => (printed, ExitCode::SUCCESS),
        Ok(Outcome::Refused(printed)) => (printed, ExitCode::FAILURE),
        Err(_) => return Err(anyhow!("no room for the output")),
    };
    rt.stdout().write_all(&output[..printed])?;
    Ok(status)
}
