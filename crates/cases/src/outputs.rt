// Whole outputs, as tables.
use crate::inputs::{SAMPLE, longest};
use listing::{Outcome, Unread, listing};
use std::alloc::Global;
use std::process::Abort;
use std::test::Fail;

pub(crate) const SAMPLE_OUTPUT: &[u8] =
    b"00000036,00000014,00000031\n00000039,00000031,00000014\n00000036,00000040,00000014\n00000039,00000014,00000040\n00000036,00000031,00000041\n00000039,00000041,00000031\n00000036,00000041,00000040\n00000039,00000040,00000041\nE,00000008,00000008\n";

// The same triangles turned over: their last two corners exchanged.
const TURNED_OUTPUT: &[u8] =
    b"00000036,00000031,00000014\n00000039,00000014,00000031\n00000036,00000014,00000040\n00000039,00000040,00000014\n00000036,00000041,00000031\n00000039,00000031,00000041\n00000036,00000040,00000041\n00000039,00000041,00000040\nE,00000008,00000008\n";

#[test]
fn finished(rt: HostRuntime) -> Result<(), Fail> {
    let outputs: [(&[u8], &[u8]); 4] = [
        (SAMPLE, SAMPLE_OUTPUT),
        // The other letter and the swapped pair, then the other letter on the other readings.
        (
            b"S,3,3,3,5,L,6,18\nV,0,0,0\nV,0,0,0\nV,0,0,0\nV,0,0,0\nV,0,9,0\nV,0,0,0\nV,0,0,0\nV,0,0,0\nV,0,0,0\n",
            TURNED_OUTPUT,
        ),
        (
            b"S,3,3,3,5,L,18,6\nV,9,9,9\nV,9,9,9\nV,9,9,9\nV,9,9,9\nV,9,0,9\nV,9,9,9\nV,9,9,9\nV,9,9,9\nV,9,9,9\n",
            SAMPLE_OUTPUT,
        ),
        (
            b"S,2,2,2,5,H,26,6\nV,9,9\nV,9,9\nV,9,9\nV,9,9\n",
            b"E,00000001,00000000\n",
        ),
    ];
    for (bytes, output) in outputs {
        let all = listing(rt.alloc(), bytes)?;
        assert_eq!(rt; all.bytes.as_slice(), output);
        assert_eq!(rt; all.outcome, Outcome::Finished);
    }
    Ok(())
}

#[test]
fn refused(rt: HostRuntime) -> Result<(), Fail> {
    let outputs: [(&[u8], &[u8]); 7] = [
        (b"S,1,1,1,0,H,18,18\nV,65535\n", b"R,04,00000000\n"),
        (
            b"S,2,2,2,0,H,18,18\nV,0,0\nV,0,0\nV,0,0\nV,0,65535\n",
            b"R,05,00000000\n",
        ),
        (
            b"S,2,2,2,5,H,18,18\nV,0,0\nV,0,0\nV,0,0\nV,0,65535\n",
            b"R,06,00000000\n",
        ),
        (
            b"S,2,2,2,5,H,18,6\nV,9,0\nV,0,0\nV,65535,0\nV,0,65535\n",
            b"R,07,00000004\n",
        ),
        (
            b"S,2,2,2,5,H,18,6\nV,9,0\nV,0,0\nV,0,0\nV,0,0\n",
            b"R,08,00000001\n",
        ),
        (
            b"S,3,3,3,5,H,18,6\nV,0,0,0\nV,0,0,0\nV,0,0,0\nV,0,0,0\nV,0,65535,0\nV,0,0,0\nV,0,0,0\nV,0,0,0\nV,0,0,0\n",
            b"R,11,00000013\n",
        ),
        // The third cube of the first row lacks a reading; the two before it have a triangle each.
        (
            b"S,5,3,3,5,H,18,6\nV,0,0,0,0,0\nV,0,0,0,0,0\nV,0,0,0,0,0\nV,0,0,0,0,0\nV,0,9,0,65535,0\nV,0,0,0,0,0\nV,0,0,0,0,0\nV,0,0,0,0,0\nV,0,0,0,0,0\n",
            b"00000060,00000020,00000049\n00000063,00000049,00000020\nR,11,00000023\n",
        ),
    ];
    for (bytes, output) in outputs {
        let all = listing(rt.alloc(), bytes)?;
        assert_eq!(rt; all.bytes.as_slice(), output);
        assert_eq!(rt; all.outcome, Outcome::Refused);
    }
    Ok(())
}

// Nothing is allocated here, so that each line is told whichever allocation fails.
#[test]
fn out_of_form(rt: HostRuntime) -> Result<(), Fail> {
    let told: [(&[u8], u32, &[u8; 14]); 5] = [
        (b"", 1, b"R,18,00000001\n"),
        (b"S,2,2,2,5,h,18,6\nV,0,0\n", 1, b"R,18,00000001\n"),
        (b"S,257,2,2,5,H,18,6\n", 1, b"R,18,00000001\n"),
        (
            b"S,2,2,2,5,H,18,6\nV,0,0\nV,0,0\r\nV,0,0\nV,0,0\n",
            3,
            b"R,18,00000003\n",
        ),
        (
            b"S,2,2,2,5,H,18,6\nV,0,0\nV,0,0\nV,0,0\nV,0,0\n\n",
            6,
            b"R,18,00000006\n",
        ),
    ];
    for (bytes, number, line) in told {
        let unread = listing(rt.alloc(), bytes).err();
        assert_eq!(rt; unread, Some(Unread::Line(number)));
        assert_eq!(rt; unread.and_then(Unread::line), Some(*line));
    }
    assert_eq!(rt; Unread::Memory.line(), None);
    assert_eq!(rt; Unread::Line(99_999_999).line(), Some(*b"R,18,99999999\n"));
    assert_eq!(rt; Unread::Line(100_000_000).line(), None);
    Ok(())
}

#[test]
fn length(rt: HostRuntime) -> Result<(), Fail> {
    let bytes = longest(rt.alloc(), b"")?;
    let all = listing(rt.alloc(), bytes.as_slice())?;
    assert_eq!(rt; all.bytes.as_slice(), b"R,04,00000000\n".as_slice());
    assert_eq!(rt;
        listing(rt.alloc(), &[b'0'; 32_768]).err(),
        Some(Unread::Line(1))
    );
    assert_eq!(rt;
        listing(rt.alloc(), &[b'0'; 32_769]).err(),
        Some(Unread::TooLong)
    );
    assert_eq!(rt; Unread::TooLong.line(), Some(*b"R,17,00000000\n"));
    Ok(())
}

// Nine solid voxels apart from one another, with eight triangles each.
fn nine_voxels(heap: Global) -> Result<Vec<u8>, Fail> {
    let none: &[u8] = b"V,0,0,0,0,0,0,0,0,0,0,0,0,0,0,0,0,0,0,0\n";
    let nine: &[u8] = b"V,0,9,0,9,0,9,0,9,0,9,0,9,0,9,0,9,0,9,0\n";
    let mut bytes = vec![in heap]?;
    bytes.extend_from_slice(b"S,19,3,3,5,H,6,26\n")?;
    for row in [none, none, none, none, nine, none, none, none, none] {
        bytes.extend_from_slice(row)?;
    }
    Ok(bytes)
}

#[test]
fn more_triangles_than_places(rt: HostRuntime) -> Result<(), Fail> {
    let bytes = nine_voxels(rt.alloc())?;
    let all = listing(rt.alloc(), bytes.as_slice())?;
    let Some((text, end)) = all.bytes.as_slice().split_at_checked(72 * 27) else {
        return Err(Fail::new("the output is too short"));
    };
    assert_eq!(rt; end, b"E,00000072,00000072\n".as_slice());
    assert_eq!(rt; tray::text::count(text), Ok(72));
    let lines: [(usize, &[u8]); 3] = [
        (63, b"00000255,00000256,00000257\n"),
        (64, b"00000258,00000263,00000262\n"),
        (71, b"00000279,00000280,00000281\n"),
    ];
    for (n, line) in lines {
        assert_eq!(rt; text.chunks(27).nth(n), Some(line));
    }
    Ok(())
}
