// How the program is used.
use std::process::ExitCode;

const USAGE: &str = "Usage: isosurface < SCAN > TRIANGLES

Reads a scan as lines from standard input, and writes the closed surface between its solid and hollow voxels as lines.

Input: S,nx,ny,nz,threshold,letter,s,h, then ny times nz lines V with nx readings each, y before z. Letter H calls readings solid
from the threshold upward, L those below it; s and h are 18,6 or 26,6 or 6,18 or 6,26. The reading 65535 is none. At most 32768 bytes.
Output: a line for each triangle, three link numbers of eight digits; then E, the cubes and the triangles, or R and a refusal.
Status: 0 after E, 1 after R and where memory, reading or writing fails.";

// Prints how the program is used: for --help on standard output; for any other argument on standard error, and the status is then 1.
pub(crate) fn show(rt: &HostRuntime, argument: &str) -> anyhow::Result<ExitCode> {
    if argument == "--help" {
        println!(rt; "{USAGE}")?;
        Ok(ExitCode::SUCCESS)
    } else {
        eprintln!(rt; "{USAGE}")?;
        Ok(ExitCode::FAILURE)
    }
}
