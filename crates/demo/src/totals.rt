// A drawing made at one go: opened, drawn, closed, and asked for its report.
use crate::housing;
use crate::trays::with_places;
use anyhow::Context;
use cube::Pair;
use drawing::{Drawing, Letter, Report};
use scan::Phantom;
use tray::RecordTray;

// Draws the housing once more, by the calls themselves.
pub(crate) fn show(rt: &HostRuntime) -> anyhow::Result<()> {
    let phantom = housing::phantom(rt.alloc(), 7)?;
    let mut tray = with_places(rt.alloc(), 400)?;
    let pair = Pair::S18H6;
    let report = drawn_whole(&phantom, &mut tray, pair).context("the housing is not drawn")?;
    println!(rt; "Drawn at one go under {pair}: {report}")?;
    Ok(())
}

// The totals of the scan drawn into the tray; none where it is refused or the tray is too small.
fn drawn_whole(phantom: &Phantom, tray: &mut RecordTray, pair: Pair) -> Option<Report> {
    let mut drawing = Drawing::open(phantom, housing::asked(Letter::H, pair)).ok()?;
    drawing.draw(phantom, tray, 200).ok()?;
    let closed = drawing.close().ok()?;
    Some(closed.report())
}
