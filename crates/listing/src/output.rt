// The output of the program: from the bytes of an input to those of its output.
ghost use Rattle.std.specs.Prelude.{◌≡◌, ◌<◌, IfOk, MatchResult, Ok};
ghost use Rattle.listing.specs.Inputs.{OneAnswer, Refused};
ghost use Rattle.listing.specs.Listings.{InputLists, Lists, RefusedWith, ScanLists, voxel_told};
ghost use Rattle.listing.specs.Steps.{Begins, Fills, OwnFaults, TellsInside};

use crate::closing_off::{push_end, push_lacking, push_refusal};
use crate::drawing_out::draw_out;
use crate::header::Header;
use crate::input::{Input, read};
use crate::outcome::Outcome;
use crate::unread::Unread;
use drawing::{Drawing, OpenRefusal};
use grid::Sides;
use scan::{Block, Scan};
use std::alloc::{AllocError, Global};
use tray::TextTray;

// The bytes of the tray: 64 lines of 27.
const BYTES: usize = 1728;

// The bytes of an output, and how it ends.
#[derive(Drop, Debug)]
pub struct Output {
    pub bytes: Vec<u8>,
    pub outcome: Outcome,
}

// The output of an input: the triangles of its scan and then the line of the end or of a refusal, or a refusal alone. Refused as
// reading the input is, and last over memory.
pub fn listing(heap: Global, input: &[u8]) -> Result<Output, Unread>
    ensures told { MatchResult result (λ output. InputLists input.now output.bytes.items output.outcome) (Refused input.now) }
    ensures once { OneAnswer input.now }
{
    let input = read(heap, input)?;
    Ok(list_scan(heap, input)?)
}

// The output of a scan, opened as the header asks.
fn list_scan(heap: Global, input: Input) -> Result<Output, AllocError>
    requires { Fills input.header input.readings.items }
    ensures { IfOk result (λ output. ScanLists input.header input.readings.items output.bytes.items output.outcome) }
{
    let Input { header, readings } = input;
    let Header { nx, ny, nz, asked } = header;
    let block = Block::new([nx, ny, nz].into(), [1; 3].into(), readings).unwrap();
    match Drawing::open(&block, asked) {
        Ok(drawing) => list_open(heap, &block, drawing),
        Err(refusal) => {
            let told = voxel_told(block.sides(), refusal);
            refused(heap, u8::from(refusal), told)
        }
    }
}

// The output that is a refusal alone.
fn refused(heap: Global, number: u8, told: u32) -> Result<Output, AllocError>
    requires number { number < 100 }
    requires told { told < 100000000 }
    ensures { IfOk result (λ output. RefusedWith number told output.bytes.items output.outcome) }
{
    let mut bytes = Vec::new(heap);
    push_refusal(&mut bytes, number, told)?;
    Ok(Output {
        bytes,
        outcome: Outcome::Refused,
    })
}

// The number of the voxel that a refused opening tells; zero where it tells none.
fn voxel_told(sides: Sides, refusal: OpenRefusal) -> u32
    requires { TellsInside sides refusal }
    ensures told { result ≡ voxel_told sides refusal }
    ensures small { result < 100000000 }
{
    match refusal {
        OpenRefusal::Lacking { voxel, .. } => sides.voxel_number(voxel).unwrap(),
        OpenRefusal::Mixed { voxel } => sides.voxel_number(voxel).unwrap(),
        OpenRefusal::ThinSide | OpenRefusal::ZeroThreshold | OpenRefusal::NoPair => 0,
    }
}

// The output of a scan that is open: the triangles of its cubes, and the line of the end or of a cube that lacks a reading.
fn list_open<S: Scan>(heap: Global, scan: &S, mut drawing: Drawing) -> Result<Output, AllocError>
    requires own { OwnFaults (S.Scan.means scan.now) }
    requires begins { Begins (S.Scan.means scan.now) drawing }
    ensures { IfOk result (λ output. Lists (S.Scan.means scan.now) (Ok drawing) output.bytes.items output.outcome) }
{
    let mut tray = TextTray::new(vec![in heap; 0; BYTES]?);
    let mut bytes = Vec::new(heap);
    match draw_out(scan, &mut drawing, &mut tray, &mut bytes)? {
        Some(fault) => {
            push_lacking(&mut bytes, drawing.sides(), fault.at)?;
            Ok(Output {
                bytes,
                outcome: Outcome::Refused,
            })
        }
        None => {
            push_end(&mut bytes, drawing)?;
            Ok(Output {
                bytes,
                outcome: Outcome::Finished,
            })
        }
    }
}
