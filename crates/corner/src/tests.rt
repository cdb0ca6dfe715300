// Fractions at the ends of the range of readings, coordinates where rounding shows, and corners placed and refused.
ghost use Rattle.std.specs.Prelude.{◌≢◌};
ghost use Rattle.corner.specs.Fractions.{IsProper};
ghost use Rattle.drawing.specs.Solids.{solid_by};
ghost use Rattle.drawing.specs.declared.letter.Letter.TheVariants.{H};

use crate::coordinate::{along, at};
use crate::*;
use drawing::{Asked, Drawing, Letter, SolidTest};
use scan::{Block, Lengths};
use std::alloc::Global;
use std::test::Fail;

// The fraction at a threshold under H.
fn fraction(low: u16, high: u16, threshold: u16) -> f32
    requires { solid_by H threshold low ≢ solid_by H threshold high }
    ensures { IsProper result }
{
    let letter = Letter::H;
    crate::fraction::fraction(SolidTest { threshold, letter }, low, high)
}

#[test]
fn fractions(rt: HostRuntime) {
    let table = [
        // The smallest and the largest, rising and falling.
        (fraction(0, 65_534, 1), 7.629627e-6),
        (fraction(0, 65_534, 65_534), 0.9999924),
        (fraction(65_534, 0, 1), 0.9999924),
        (fraction(65_534, 0, 65_534), 7.629627e-6),
        // Halfway, and rounded up and down.
        (fraction(0, 9, 5), 0.5),
        (fraction(9, 0, 5), 0.5),
        (fraction(0, 3, 1), 0.16666667),
        (fraction(0, 7, 3), 0.35714287),
    ];
    for (found, expected) in table {
        assert_eq!(rt; found, expected);
    }
}

#[test]
fn coordinates(rt: HostRuntime) {
    let small = fraction(0, 65_534, 1);
    let large = fraction(0, 65_534, 65_534);
    let table = [
        (at(10_000, 255), 2_550_000.0),
        (at(7, 0), 0.0),
        (along(50, 0, fraction(0, 9, 5)), 25.0),
        (along(1, 200, small), 200.00002),
        // The sum reaches the upper voxel.
        (along(1, 200, large), 201.0),
        (along(10_000, 255, large), 2_560_000.0),
        (along(10_000, 255, small), 2_550_000.2),
    ];
    for (found, expected) in table {
        assert_eq!(rt; found, expected);
    }
}

#[test]
fn places_and_points(rt: HostRuntime) {
    assert!(rt; Place::X(0.5) == Place::X(0.5));
    assert!(rt; Place::X(0.5) != Place::Y(0.5));
    let point = Point {
        x: 1.0,
        y: 2.0,
        z: 3.0,
    };
    assert!(rt; point == Point { ..point });
    assert!(rt; point != Point { z: 4.0, ..point });
    samples();
}

// A block of 3 x 3 x 3 values with a spacing of 50, 60 and 70.
fn block(heap: Global, values: &[u16]) -> Result<Block, Fail> {
    let sides = Lengths { x: 3, y: 3, z: 3 };
    let spacing = Lengths {
        x: 50,
        y: 60,
        z: 70,
    };
    Ok(Block::new(sides, spacing, values.to_vec(heap)?)?)
}

// That block with one reading in the middle and 0 around it.
fn shell(heap: Global, middle: u16) -> Result<Block, Fail> {
    let mut values = [0u16; 27];
    values[13] = middle;
    block(heap, &values)
}

// A drawing of a block under (18,6).
fn opened(block: &Block, threshold: u16, letter: Letter) -> Result<Drawing, Fail> {
    let test = SolidTest { threshold, letter };
    Ok(Drawing::open(block, Asked { test, s: 18, h: 6 })?)
}

#[test]
fn extremes(rt: HostRuntime) -> Result<(), Fail> {
    let block = shell(rt.alloc(), 65_534)?;
    let table = [
        (1, 36, Place::X(7.629627e-6)),
        (1, 39, Place::X(0.9999924)),
        (65_534, 36, Place::X(0.9999924)),
        (65_534, 39, Place::X(7.629627e-6)),
        (1, 14, Place::Z(7.629627e-6)),
        (65_534, 40, Place::Y(7.629627e-6)),
    ];
    for letter in [Letter::H, Letter::L] {
        for (threshold, link, expected) in table {
            let drawing = opened(&block, threshold, letter)?;
            let found = place(&drawing, &block, link).map(|corner| corner.place);
            assert_eq!(rt; found, Ok(expected));
        }
    }
    Ok(())
}

#[test]
fn corners_along_each_axis(rt: HostRuntime) -> Result<(), Fail> {
    let block = shell(rt.alloc(), 8)?;
    let drawing = opened(&block, 5, Letter::H)?;
    let table = [
        (36, Place::X(0.5625), [28.125, 60.0, 70.0]),
        (39, Place::X(0.4375), [71.875, 60.0, 70.0]),
        (31, Place::Y(0.5625), [50.0, 33.75, 70.0]),
        (40, Place::Y(0.4375), [50.0, 86.25, 70.0]),
        (14, Place::Z(0.5625), [50.0, 60.0, 39.375]),
        (41, Place::Z(0.4375), [50.0, 60.0, 100.625]),
    ];
    for (link, expected, [x, y, z]) in table {
        let corner = Corner {
            place: expected,
            point: Point { x, y, z },
        };
        assert_eq!(rt; place(&drawing, &block, link), Ok(corner));
    }
    Ok(())
}

// Voxel 13 lacks a reading in this block, and voxel 12 before it.
fn lacking(heap: Global) -> Result<Block, Fail> {
    let mut values = [0u16; 27];
    values[12] = 65_535;
    values[13] = 65_535;
    block(heap, &values)
}

#[test]
fn refusals(rt: HostRuntime) -> Result<(), Fail> {
    let whole = shell(rt.alloc(), 9)?;
    let lacking = lacking(rt.alloc())?;
    let drawing = opened(&whole, 5, Letter::H)?;
    let table = [
        // The last link along z has an end outside, and no voxel has the number 27.
        (80, PlaceRefusal::NoLink),
        (81, PlaceRefusal::NoLink),
        // Both ends lack a reading, the lower alone, and the upper alone.
        (36, PlaceRefusal::Lacking),
        (39, PlaceRefusal::Lacking),
        (14, PlaceRefusal::Lacking),
        (0, PlaceRefusal::OneKind),
    ];
    for (link, expected) in table {
        assert_eq!(rt; place(&drawing, &lacking, link), Err(expected));
    }
    assert!(rt; place(&drawing, &whole, 41).is_ok());
    // Under L both ends of that link are solid.
    let drawing = opened(&whole, 5, Letter::L)?;
    assert_eq!(rt; place(&drawing, &whole, 0), Err(PlaceRefusal::OneKind));
    Ok(())
}

#[test]
fn other_sides_come_first(rt: HostRuntime) -> Result<(), Fail> {
    let heap = rt.alloc();
    let whole = shell(heap, 9)?;
    let drawing = opened(&whole, 5, Letter::H)?;
    let all = |n| Lengths { x: n, y: n, z: n };
    let other = Block::new(all(2), all(1), vec![in heap; 65_535; 8]?)?;
    for link in [0, 41, 80, 81] {
        let expected = Err(PlaceRefusal::OtherSides);
        assert_eq!(rt; place(&drawing, &other, link), expected);
    }
    Ok(())
}

#[test]
fn numbers(rt: HostRuntime) {
    let table = [
        (PlaceRefusal::OtherSides, 9),
        (PlaceRefusal::NoLink, 14),
        (PlaceRefusal::Lacking, 15),
        (PlaceRefusal::OneKind, 16),
    ];
    for (refusal, number) in table {
        assert_eq!(rt; u8::from(refusal), number);
    }
}

// What the demo does not print.
#[test]
fn printed_refusals(rt: HostRuntime) -> Result<(), Fail> {
    let heap = rt.alloc();
    let lacking = PlaceRefusal::Lacking;
    assert_eq!(rt;
        format!(in heap; "{lacking}")?.as_str(),
        "refused with 15, an end lacks a reading"
    );
    let sides = PlaceRefusal::OtherSides;
    assert_eq!(rt;
        format!(in heap; "{sides}")?.as_str(),
        "refused with 9, the scan has other sides"
    );
    Ok(())
}
