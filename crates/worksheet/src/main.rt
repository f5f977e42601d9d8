// Prints the rules of one width for a workbook page: the right neighbours of each column, the dark map, and the places
// that each line sums. The width is the first argument, or 3.
#![tactic(auto)]

mod page;

use code::lines::places_of;
use code::places::Line;
use code::widths::rows_of;
use page::{Page, Sum, width_of};
use std::env;
use std::process::ExitCode;

fn main(rt: HostRuntime) -> anyhow::Result<ExitCode> {
    let argument = env::args(&rt)?.nth(1);
    let text = argument.as_deref().unwrap_or("3");
    let Some(k) = width_of(text) else {
        eprintln!(rt;
            "worksheet: '{text}' is no width: give an odd number from 3 to 11, or nothing for 3"
        )?;
        return Ok(ExitCode::FAILURE);
    };
    rt.println(Page(k))?;
    for line in (0..rows_of(k)).map(Line) {
        rt.println(Sum {
            line,
            places: places_of(rt.alloc(), k, line)?,
        })?;
    }
    Ok(ExitCode::SUCCESS)
}
