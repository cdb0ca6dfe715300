// Lists of calls on text trays, byte by byte.
use crate::block::block;
use crate::drawings::{draw, entry, open};
use scan::Block;
use session::{Answer, Call, Entry};
use std::alloc::Global;
use std::process::Abort;
use std::test::Fail;
use tray::TextTray;

// One solid voxel in 3 x 3 x 3: each of the eight cubes has a triangle.
fn one_voxel(heap: Global) -> Result<Block, Fail> {
    let mut values = [0u16; 27];
    values[13] = 9;
    block(heap, [3, 3, 3], &values)
}

// Makes the calls on that block and a tray of 113 bytes and one of 60, with another scan of other sides, and hands back the bytes.
fn bytes_after(heap: Global, entries: &mut [Entry]) -> Result<(Vec<u8>, Vec<u8>), Fail> {
    let others = [block(heap, [2, 2, 2], &[0; 8])?];
    let mut trays = [
        TextTray::new(vec![in heap; b'.'; 113]?),
        TextTray::new(vec![in heap; b'-'; 60]?),
    ];
    let _ = session::run(&one_voxel(heap)?, &others, &mut trays, entries);
    let [first, second] = trays;
    Ok((first.into_bytes(), second.into_bytes()))
}

// Whether an entry's answer tells this number of a refusal.
fn tells(entry: Entry, number: u8) -> bool {
    entry.answer.and_then(Answer::number) == Some(number)
}

#[test]
fn older_lines_stand(rt: HostRuntime) -> Result<(), Fail> {
    let mut entries = [
        open(5),
        // Three lines, and after the emptying one over the first.
        draw(0, 3),
        entry(Call::Empty { tray: 0 }),
        draw(0, 1),
        // A line that stays when its tray is emptied, and when a draw is refused there.
        draw(1, 1),
        entry(Call::Empty { tray: 1 }),
        draw(1, 0),
    ];
    let (first, second) = bytes_after(rt.alloc(), &mut entries)?;
    assert_eq!(rt;
        first.as_slice(),
        b"00000039,00000014,00000040\n00000039,00000031,00000014\n00000036,00000040,00000014\n................................".as_slice()
    );
    assert_eq!(rt;
        second.as_slice(),
        b"00000036,00000031,00000041\n---------------------------------".as_slice()
    );
    Ok(())
}

#[test]
fn refused_and_unmade_calls_write_nothing(rt: HostRuntime) -> Result<(), Fail> {
    let other = Call::DrawOther {
        other: 0,
        tray: 0,
        budget: 1,
    };
    let mut entries = [
        draw(0, 3),
        open(5),
        draw(0, 0),
        entry(other),
        entry(Call::Close),
        entry(Call::Empty { tray: 2 }),
        open(5),
        draw(1, 8),
        draw(1, 0),
    ];
    let (first, second) = bytes_after(rt.alloc(), &mut entries)?;
    for (at, number) in [(2, 10), (3, 9), (4, 13), (7, 12), (8, 10)] {
        assert!(rt; tells(entries[at], number));
    }
    for at in [0, 5, 6] {
        assert_eq!(rt; entries[at].answer, None);
    }
    assert_eq!(rt; first.as_slice(), [b'.'; 113].as_slice());
    assert_eq!(rt;
        second.as_slice(),
        b"00000036,00000014,00000031\n00000039,00000031,00000014\n------".as_slice()
    );
    Ok(())
}
