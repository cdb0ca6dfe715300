// Sides, numbers and places on small examples.
use grid::{Axis, Link, Sides, Voxel};
use std::test::Fail;

// Sides that are within their range.
fn made(x: u32, y: u32, z: u32) -> Result<Sides, Fail> {
    Sides::new(x, y, z).ok_or_else(|| Fail::new("sides within their range"))
}

#[test]
fn sides_within_their_range(rt: HostRuntime) {
    let table = [
        (1, 1, 1, true),
        (256, 256, 256, true),
        (0, 1, 1, false),
        (1, 257, 1, false),
        (1, 1, 4294967295, false),
    ];
    for (x, y, z, made) in table {
        assert_eq!(rt; Sides::new(x, y, z).is_some(), made);
    }
}

#[test]
fn voxels_and_numbers(rt: HostRuntime) -> Result<(), Fail> {
    let sides = made(3, 4, 5)?;
    let table = [
        (Voxel::from([0, 0, 0]), Some(0), true),
        (Voxel::from([1, 0, 0]), Some(1), true),
        (Voxel::from([1, 2, 0]), Some(7), true),
        (Voxel::from([1, 2, 3]), Some(43), false),
        (Voxel::from([2, 3, 4]), Some(59), true),
        (Voxel::from([3, 0, 0]), None, false),
        (Voxel::from([0, 0, 5]), None, false),
    ];
    for (v, number, border) in table {
        assert_eq!(rt; sides.voxel_number(v), number);
        assert_eq!(rt; sides.holds(v), number.is_some());
        assert_eq!(rt; sides.on_border(v), border);
        if let Some(n) = number {
            assert_eq!(rt; sides.voxel_at(n), Some(v));
        }
    }
    assert_eq!(rt; sides.voxel_count(), 60);
    assert_eq!(rt; sides.voxel_at(60), None);
    Ok(())
}

#[test]
fn links_and_numbers(rt: HostRuntime) -> Result<(), Fail> {
    let sides = made(3, 3, 3)?;
    let z = Link {
        lower: Voxel::from([1, 1, 1]),
        axis: Axis::Z,
    };
    assert_eq!(rt; sides.link_at(41), Some(z));
    assert_eq!(rt; sides.link_number(z), Some(41));
    assert_eq!(rt; z.upper(), Some(Voxel::from([1, 1, 2])));
    for number in [6, 80, 81, 4294967295] {
        assert_eq!(rt; sides.link_at(number), None);
    }
    let far = Link {
        lower: Voxel::from([4294967295, 0, 0]),
        axis: Axis::X,
    };
    assert_eq!(rt; far.upper(), None);
    assert_eq!(rt; sides.link_number(far), None);
    Ok(())
}

#[test]
fn cubes_and_numbers(rt: HostRuntime) -> Result<(), Fail> {
    let sides = made(3, 4, 5)?;
    assert_eq!(rt; sides.cube_count(), 24);
    assert_eq!(rt; sides.cube_at(9), Some(Voxel::from([1, 1, 1])));
    assert_eq!(rt; sides.cube_number(Voxel::from([1, 1, 1])), Some(9));
    assert_eq!(rt; sides.cube_number(Voxel::from([2, 0, 0])), None);
    assert_eq!(rt; sides.cube_at(24), None);
    let flat = made(3, 1, 5)?;
    assert_eq!(rt; flat.cube_count(), 0);
    assert_eq!(rt; flat.cube_at(0), None);
    Ok(())
}

#[test]
fn the_first_answer_on_a_border(rt: HostRuntime) -> Result<(), Fail> {
    let sides = made(3, 3, 3)?;
    let high = sides.first_on_border(|v| (v.z == 1).then_some(v));
    assert_eq!(rt; high, Some(Voxel::from([0, 0, 1])));
    let inner = sides.first_on_border(|v| (v == Voxel::from([1, 1, 1])).then_some(v));
    assert_eq!(rt; inner, None);
    Ok(())
}
