// Triangles, their lines and the trays that hold them.
use std::alloc::Global;
use std::process::Abort;
use std::test::Fail;
use tray::text::{self, TextRefusal};
use tray::{RecordTray, TextTray, Tray, Triangle, pour, read_line, write_line_at};

// An empty record tray with this number of places, over a list of one triangle again and again.
pub(crate) fn with_places(heap: Global, places: usize) -> Result<RecordTray, Fail> {
    let blank = Triangle::new(0, 1, 2)?;
    Ok(RecordTray::new(vec![in heap; blank; places]?))
}

#[test]
fn refused_triangles(rt: HostRuntime) -> Result<(), Fail> {
    let refused = [
        (5, 5, 6),
        (6, 5, 5),
        (5, 6, 5),
        (50_331_648, 0, 1),
        (0, 50_331_648, 1),
        (0, 1, 50_331_648),
    ];
    for (first, second, third) in refused {
        assert_eq!(rt;
            Triangle::new(first, second, third).map_err(u8::from),
            Err(19)
        );
    }
    assert_eq!(rt; Triangle::new(50_331_647, 0, 1)?.first(), 50_331_647);
    Ok(())
}

#[test]
fn line_of_a_triangle(rt: HostRuntime) -> Result<(), Fail> {
    let triangle = Triangle::new(36, 14, 31)?;
    let mut bytes = [b'.'; 27];
    write_line_at(&mut bytes, 0, triangle)?;
    assert_eq!(rt; bytes, *b"00000036,00000014,00000031\n");
    assert_eq!(rt; read_line(&bytes), Some(triangle));
    Ok(())
}

// A buffer of 27 times some places, and some bytes over.
fn filled(rt: &impl Abort, heap: Global, places: u8, over: u8) -> Result<(), Fail> {
    let triangle = Triangle::new(8, 7, 50_331_647)?;
    let whole = 27 * places as usize;
    let mut tray = TextTray::new(vec![in heap; b'.'; whole + over as usize]?);
    assert_eq!(rt; tray.free(), places as usize);
    // As often as there are places.
    for _ in 0..places {
        tray.put(triangle)?;
    }
    assert!(rt; tray.put(triangle).is_err());
    assert_eq!(rt; text::count(tray.text()), Ok(places as usize));
    for byte in tray.into_bytes().iter().skip(whole) {
        assert_eq!(rt; *byte, b'.');
    }
    Ok(())
}

#[test]
fn every_length(rt: HostRuntime) -> Result<(), Fail> {
    // Lengths are numbers.
    for places in 0..4 {
        for over in 0..27 {
            filled(&rt, rt.alloc(), places, over)?;
        }
    }
    Ok(())
}

#[test]
fn each_byte_damaged(rt: HostRuntime) -> Result<(), Fail> {
    let list = [Triangle::new(36, 14, 31)?, Triangle::new(39, 31, 14)?];
    let mut bytes = [0u8; 54];
    assert_eq!(rt; text::write(&list, &mut bytes), Ok(54));
    // By index: each place in turn is that of the damaged byte.
    for i in 0..54usize {
        let mut damaged = bytes;
        damaged[i] = b'x';
        assert_eq!(rt; text::count(&damaged), Err(TextRefusal::Line(i / 27 + 1)));
    }
    assert_eq!(rt; text::count(&bytes[0..53]), Err(TextRefusal::Line(2)));
    Ok(())
}

#[test]
fn records_written_over(rt: HostRuntime) -> Result<(), Fail> {
    let blank = Triangle::new(0, 1, 2)?;
    let first = Triangle::new(36, 14, 31)?;
    let second = Triangle::new(39, 31, 14)?;
    let mut tray = with_places(rt.alloc(), 3)?;
    tray.put(first)?;
    tray.put(second)?;
    assert_eq!(rt; tray.triangles(), [first, second].as_slice());
    tray.empty();
    assert_eq!(rt; (tray.held(), tray.free(), tray.nth(0)), (0, 3, None));
    tray.put(second)?;
    assert_eq!(rt; tray.triangles(), [second].as_slice());
    assert_eq!(rt;
        tray.into_list().as_slice(),
        [second, second, blank].as_slice()
    );
    Ok(())
}

#[test]
fn a_full_record_tray(rt: HostRuntime) -> Result<(), Fail> {
    let first = Triangle::new(36, 14, 31)?;
    let second = Triangle::new(39, 31, 14)?;
    let mut tray = with_places(rt.alloc(), 1)?;
    tray.put(first)?;
    assert!(rt; tray.put(second).is_err());
    assert_eq!(rt; tray.into_list().as_slice(), [first].as_slice());
    Ok(())
}

#[test]
fn poured_until_full(rt: HostRuntime) -> Result<(), Fail> {
    let mut records = with_places(rt.alloc(), 2)?;
    let from = *b"00000036,00000014,00000031\n00000039,00000031,00000014\n";
    assert_eq!(rt; text::read(&from, &mut records), Ok(2));
    let mut lines = TextTray::new(vec![in rt.alloc(); b'.'; 53]?);
    assert_eq!(rt; pour(&records, &mut lines), 1);
    assert_eq!(rt; lines.nth(0), records.nth(0));
    assert_eq!(rt; lines.nth(1), None);
    assert_eq!(rt;
        text::read(&from, &mut lines),
        Err(TextRefusal::NoRoom {
            triangles: 2,
            free: 0,
        })
    );
    lines.empty();
    assert_eq!(rt; lines.free(), 1);
    Ok(())
}

#[test]
fn printed_refusals(rt: HostRuntime) -> Result<(), Fail> {
    let heap = rt.alloc();
    let line = TextRefusal::Line(3);
    assert_eq!(rt;
        format!(in heap; "{line}")?.as_str(),
        "line 3 is the line of no triangle"
    );
    let room = TextRefusal::NoRoom {
        triangles: 2,
        free: 1,
    };
    assert_eq!(rt;
        format!(in heap; "{room}")?.as_str(),
        "2 triangles want a place and 1 are free"
    );
    Ok(())
}
