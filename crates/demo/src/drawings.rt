// The housing drawn by lists of calls: with refusals on the way, under each pair, and exchanged.
use crate::housing;
use crate::trays::with_places;
use anyhow::anyhow;
use cube::Pair;
use drawing::{Asked, Letter};
use scan::{Cutout, Phantom, Scan};
use session::{Call, Entry, State};
use std::alloc::{AllocError, Global};
use tray::{RecordTray, Tray};

// The places of tray 0.
const FEW: usize = 125;

// The places of tray 1.
const MANY: usize = 300;

// Draws the housing with refusals on the way, then under each other pair, then with solid and hollow exchanged.
pub(crate) fn show(rt: &HostRuntime) -> anyhow::Result<()> {
    println!(rt; "The housing drawn into trays: tray 0 has {FEW} places, tray 1 has {MANY}")?;
    let phantom = housing::phantom(rt.alloc(), 7)?;
    let pair = Pair::S18H6;
    println!(rt; "Drawn under {pair}, with refusals on the way")?;
    let first = draw_by(rt, &phantom, &with_refusals(pair))?;
    housing::show_touching(rt, &phantom, pair)?;
    for pair in [Pair::S26H6, Pair::S6H18, Pair::S6H26] {
        show_pair(rt, &phantom, pair, first)?;
    }
    println!(rt; "The first with solid and hollow exchanged")?;
    let swapped = over_two_trays(Letter::L, pair.swapped());
    let count = draw_by(rt, &phantom, &swapped)?;
    compare(rt, first, count)?;
    show_cutouts(rt, &phantom)
}

// Tries to open two cut-outs of the housing: one voxel thick, and the metal without the voxels around it.
fn show_cutouts(rt: &HostRuntime, phantom: &Phantom) -> anyhow::Result<()> {
    let calls = [Call::Open(housing::asked(Letter::H, Pair::S18H6))];
    println!(rt; "Cut-outs of it that are not opened")?;
    let thin = Cutout::new(phantom, [0, 0, 0].into(), [6, 7, 1].into());
    make(rt, &thin, &mut [], &calls)?;
    let bare = Cutout::new(phantom, [1, 1, 1].into(), [4, 5, 5].into());
    make(rt, &bare, &mut [], &calls)?;
    Ok(())
}

// Draws the housing under a pair, and tells what that makes of it.
fn show_pair(rt: &HostRuntime, phantom: &Phantom, pair: Pair, first: u32) -> anyhow::Result<()> {
    println!(rt; "Drawn under {pair}")?;
    let count = draw_by(rt, phantom, &over_two_trays(Letter::H, pair))?;
    compare(rt, first, count)?;
    housing::show_touching(rt, phantom, pair)
}

// Says whether a drawing laid as many triangles as the first.
fn compare(rt: &HostRuntime, first: u32, count: u32) -> anyhow::Result<()> {
    if first == count {
        println!(rt; "  both lay {count} triangles, the first drawing and this")?;
    } else {
        println!(rt; "  the first drawing lays {first} triangles, this {count}")?;
    }
    Ok(())
}

// Calls that are refused, and tray 0 emptied each time that it is full.
fn with_refusals(pair: Pair) -> [Call; 14] {
    let asked = housing::asked(Letter::H, pair);
    let mut none_solid = asked;
    none_solid.test.threshold = 0;
    [
        draw(0, 60),
        Call::Open(none_solid),
        Call::Open(Asked { h: 18, ..asked }),
        Call::Open(asked),
        Call::DrawOther {
            other: 0,
            tray: 0,
            budget: 60,
        },
        draw(0, 0),
        draw(0, 60),
        Call::Close,
        draw(0, 200),
        Call::Empty { tray: 0 },
        draw(0, 200),
        Call::Empty { tray: 0 },
        draw(0, 200),
        Call::Close,
    ]
}

// Tray 0 filled, and the rest drawn into tray 1.
fn over_two_trays(letter: Letter, pair: Pair) -> [Call; 4] {
    [
        Call::Open(housing::asked(letter, pair)),
        draw(0, 200),
        draw(1, 200),
        Call::Close,
    ]
}

// The call that draws on.
fn draw(tray: usize, budget: u32) -> Call {
    Call::Draw { tray, budget }
}

// The calls, with no answer yet.
fn unanswered(heap: Global, calls: &[Call]) -> Result<Vec<Entry>, AllocError> {
    calls
        .iter()
        .map(|call| Entry {
            call: *call,
            answer: None,
        })
        .collect(heap)
}

// Draws the housing into two trays by a list of calls, and answers the number of triangles in all.
fn draw_by(rt: &HostRuntime, phantom: &Phantom, calls: &[Call]) -> anyhow::Result<u32> {
    let heap = rt.alloc();
    let mut trays = [with_places(heap, FEW)?, with_places(heap, MANY)?];
    let state = make(rt, phantom, &mut trays, calls)?;
    let (few, many) = (trays[0].held(), trays[1].held());
    println!(rt; "  triangles held in the end: {few} in tray 0, {many} in tray 1")?;
    match state {
        State::Finished(closed) => Ok(closed.report().triangles),
        _ => Err(anyhow!("the drawing is not closed")),
    }
}

// Makes the calls on a scan and some trays, tells each with its answer, and answers how things stand in the end.
fn make<S: Scan>(
    rt: &HostRuntime,
    scan: &S,
    trays: &mut [RecordTray],
    calls: &[Call],
) -> anyhow::Result<State> {
    let others = [housing::phantom(rt.alloc(), 5)?];
    let mut entries = unanswered(rt.alloc(), calls)?;
    let state = session::run(scan, &others, trays, entries.as_mut_slice());
    for entry in entries.iter() {
        println!(rt; "  {entry}")?;
    }
    Ok(state)
}
