// Runs an exam script: its bytes come on standard input, the sheet of blocks from the file `sheet.bin` if there is one, and
// each command prints a line.
#![tactic(auto)]

use lab::transcript::{MOST_SCRIPT, MOST_SHEET, transcript};
use std::fs::File;
use std::io::{Read, Write};

fn main(rt: HostRuntime) -> anyhow::Result<()> {
    let mut script = Vec::new(rt.alloc());
    rt.stdin()
        .take(MOST_SCRIPT as u64)
        .read_to_end(&mut script)?;
    let mut sheet = Vec::new(rt.alloc());
    let read = File::open(&rt, "sheet.bin").and_then(|file| file
        .take(MOST_SHEET as u64)
        .read_to_end(&mut sheet));
    // a sheet that is missing or cannot be read is empty
    if read.is_err() {
        sheet.clear();
    }
    let lines = transcript(rt.alloc(), &script, &sheet)?;
    rt.stdout().write_all(&lines)?;
    Ok(())
}
