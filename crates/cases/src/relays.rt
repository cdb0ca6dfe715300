// A scan that only passes another one on, asked, opened and drawn. It stands for the scans that are not of this repository:
// what every scan owes leaves room for it.
ghost use Rattle.cases.specs.Relays.{relayed, relayed_lawful};

use crate::block::block;
use crate::trays::with_places;
use drawing::{Asked, Drawing, Ending, Letter, Progress, SolidTest};
use grid::{Sides, Voxel};
use scan::{Cause, Cutout, Fault, Scan, lowest_lacking};
use std::test::Fail;
use tray::Tray;

// A scan as another one tells it: it counts itself in each fault, also in that of a place outside.
#[derive(Drop)]
struct Relay<S> {
    below: S,
}

impl<S: Scan> Scan for Relay<S> {
    ghost means = { λ r. relayed (S.Scan.means r.below) };

    ghost lawful = { λ r. relayed_lawful (S.Scan.means r.below) (S.Scan.lawful r.below) };

    fn sides(&self) -> Sides {
        self.below.sides()
    }

    fn read(&self, place: Voxel) -> Result<u16, Fault> {
        self.below.read(place).map_err(Fault::pass_up)
    }
}

// The fault of a place that one scan passed up.
fn passed(cause: Cause, at: [u32; 3]) -> Result<u16, Fault> {
    Err(Fault::own(cause, at.into()).pass_up())
}

// A block of 3 x 3 x 3 values, 0 but for the one in the middle.
fn shell(middle: u16) -> [u16; 27] {
    let mut values = [0; 27];
    values[13] = middle;
    values
}

#[test]
fn a_relay_passes_each_fault_up(rt: HostRuntime) -> Result<(), Fail> {
    let block = block(rt.alloc(), [3, 3, 3], &shell(65_535))?;
    let relay = Relay { below: &block };
    assert!(rt; relay.sides() == block.sides());
    assert_eq!(rt; relay.read([0, 0, 0].into()), Ok(0));
    let hole = passed(Cause::NoReading, [1, 1, 1]);
    assert_eq!(rt; relay.read([1, 1, 1].into()), hole);
    let outside = passed(Cause::Outside, [3, 0, 4_294_967_295]);
    assert_eq!(rt; relay.read([3, 0, 4_294_967_295].into()), outside);
    assert!(rt; lowest_lacking(&relay).is_none());
    let part = Cutout::new(&relay, [1, 1, 1].into(), [1; 3].into());
    let twice = hole.map_err(Fault::pass_up);
    assert_eq!(rt; part.read([0, 0, 0].into()), twice);
    Ok(())
}

#[test]
fn a_relay_is_drawn_as_the_scan_below(rt: HostRuntime) -> Result<(), Fail> {
    let heap = rt.alloc();
    let letter = Letter::H;
    let test = SolidTest {
        threshold: 5,
        letter,
    };
    let asked = Asked { test, s: 18, h: 6 };
    let block = block(heap, [3, 3, 3], &shell(9))?;
    let relay = Relay { below: &block };
    let mut direct = with_places(heap, 8)?;
    let mut relayed = with_places(heap, 8)?;
    let done = Progress {
        drawn: 8,
        laid: 8,
        left: 0,
        ending: Ending::Done,
    };
    assert_eq!(rt;
        Drawing::open(&block, asked)?.draw(&block, &mut direct, 8),
        Ok(done)
    );
    assert_eq!(rt;
        Drawing::open(&relay, asked)?.draw(&relay, &mut relayed, 8),
        Ok(done)
    );
    assert!(rt; relayed.triangles() == direct.triangles());
    Ok(())
}

#[test]
fn a_relay_stops_at_a_hole(rt: HostRuntime) -> Result<(), Fail> {
    let heap = rt.alloc();
    let letter = Letter::H;
    let test = SolidTest {
        threshold: 5,
        letter,
    };
    let block = block(heap, [3, 3, 3], &shell(65_535))?;
    let relay = Relay { below: &block };
    let mut tray = with_places(heap, 8)?;
    let mut drawing = Drawing::open(&relay, Asked { test, s: 18, h: 6 })?;
    let cube = Voxel::from([0, 0, 0]);
    let fault = Fault::own(Cause::NoReading, [1, 1, 1].into()).pass_up();
    let stopped = Progress {
        drawn: 0,
        laid: 0,
        left: 8,
        ending: Ending::Lacking { cube, fault },
    };
    assert_eq!(rt; drawing.draw(&relay, &mut tray, 8), Ok(stopped));
    assert_eq!(rt; tray.held(), 0);
    Ok(())
}
