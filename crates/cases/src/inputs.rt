// Inputs that are read and refused, and closing lines.
use drawing::{Asked, Letter, SolidTest};
use listing::{Header, Unread, end_line, read, refusal_line};
use std::alloc::Global;
use std::process::Abort;
use std::test::Fail;

pub(crate) const SAMPLE: &[u8] =
    b"S,3,3,3,5,H,18,6\nV,0,0,0\nV,0,0,0\nV,0,0,0\nV,0,0,0\nV,0,9,0\nV,0,0,0\nV,0,0,0\nV,0,0,0\nV,0,0,0\n";

#[test]
fn sample(rt: HostRuntime) -> Result<(), Fail> {
    let input = read(rt.alloc(), SAMPLE)?;
    assert_eq!(rt;
        input.header,
        Header {
            nx: 3,
            ny: 3,
            nz: 3,
            asked: Asked {
                test: SolidTest {
                    threshold: 5,
                    letter: Letter::H,
                },
                s: 18,
                h: 6,
            },
        }
    );
    assert_eq!(rt; input.readings.len(), 27);
    for (place, reading) in input.readings.iter().enumerate() {
        assert_eq!(rt; *reading, if place == 13 { 9 } else { 0 });
    }
    Ok(())
}

#[test]
fn accepted(rt: HostRuntime) -> Result<(), Fail> {
    let inputs: [(&[u8], u16); 4] = [
        (b"S,1,1,1,5,L,18,6\nV,65535\n", 65_535),
        (b"S,1,1,1,0,H,65535,0\nV,00000\n", 0),
        (b"S,00001,1,01,5,H,18,6\nV,00042\n", 42),
        (b"S,1,1,1,65535,L,0,65535\nV,9\n", 9),
    ];
    for (bytes, reading) in inputs {
        let input = read(rt.alloc(), bytes)?;
        assert_eq!(rt; input.readings.as_slice(), [reading].as_slice());
    }
    let wide = read(rt.alloc(), b"S,2,1,2,7,L,6,26\nV,1,2\nV,3,4\n")?;
    assert_eq!(rt; wide.header.asked.test.letter, Letter::L);
    assert_eq!(rt; wide.readings.as_slice(), [1, 2, 3, 4].as_slice());
    Ok(())
}

// Each line is told whichever allocation fails.
#[test]
fn first_line_out_of_form(rt: HostRuntime) -> Result<(), Fail> {
    let told: [(&[u8], u32); 39] = [
        (b"", 1),
        (b"\n", 1),
        (b"S,1,1,1,5,H,18,6", 1),
        (b"S,1,1,1,5,H,18,6\r\nV,0\n", 1),
        (b"V,0\n", 1),
        (b"s,1,1,1,5,H,18,6\nV,0\n", 1),
        (b"S;1,1,1,5,H,18,6\nV,0\n", 1),
        (b"S,1,1,1,5,h,18,6\nV,0\n", 1),
        (b"S,1,1,1,5,M,18,6\nV,0\n", 1),
        (b"S,1,1,1,5,HH,18,6\nV,0\n", 1),
        (b"S,1,1,1,5,,18,6\nV,0\n", 1),
        (b"S,0,1,1,5,H,18,6\n", 1),
        (b"S,1,0,1,5,H,18,6\n", 1),
        (b"S,1,1,0,5,H,18,6\n", 1),
        (b"S,257,1,1,5,H,18,6\nV,0\n", 1),
        (b"S,1,257,1,5,H,18,6\nV,0\n", 1),
        (b"S,1,1,257,5,H,18,6\nV,0\n", 1),
        (b"S,1,1,1,65536,H,18,6\nV,0\n", 1),
        (b"S,1,1,1,000005,H,18,6\nV,0\n", 1),
        (b"S,1,1,1,5,H,18\nV,0\n", 1),
        (b"S,1,1,1,5,H,18,6,0\nV,0\n", 1),
        (b"S,1,1,1,5,H,18,6,\nV,0\n", 1),
        (b"S,1,1,1, 5,H,18,6\nV,0\n", 1),
        (b"S,1,1,1,5,H,+18,6\nV,0\n", 1),
        (b"S,1,1,1,5,H,18,6\n", 2),
        (b"S,1,1,1,5,H,18,6\nV,0", 2),
        (b"S,1,1,1,5,H,18,6\nV,0\r\n", 2),
        (b"S,1,1,1,5,H,18,6\nV,\n", 2),
        (b"S,1,1,1,5,H,18,6\nV\n", 2),
        (b"S,1,1,1,5,H,18,6\nV,65536\n", 2),
        (b"S,1,1,1,5,H,18,6\nV,000000\n", 2),
        (b"S,1,1,1,5,H,18,6\nV,0,0\n", 2),
        (b"S,2,1,1,5,H,18,6\nV,0\n", 2),
        (b"S,1,1,1,5,H,18,6\nS,0\n", 2),
        (b"S,1,1,1,5,H,18,6\nV,-1\n", 2),
        (b"S,1,2,2,5,H,18,6\nV,0\nV,0\nV,0\n", 5),
        (b"S,1,1,1,5,H,18,6\nV,0\nV,0\n", 3),
        (b"S,1,1,1,5,H,18,6\nV,0\n\n", 3),
        (b"S,1,1,1,5,H,18,6\nV,0\n ", 3),
    ];
    for (bytes, line) in told {
        assert_eq!(rt; read(rt.alloc(), bytes).err(), Some(Unread::Line(line)));
    }
    Ok(())
}

// An input in form of just 32,768 bytes, and what stands after it.
pub(crate) fn longest(heap: Global, after: &[u8]) -> Result<Vec<u8>, Fail> {
    let mut bytes = vec![in heap]?;
    bytes.extend_from_slice(b"S,00237,00001,00023,00005,H,00018,0006\n")?;
    for _ in 0..23 {
        bytes.extend_from_slice(b"V,0000")?;
        for _ in 0..236 {
            bytes.extend_from_slice(b",00000")?;
        }
        bytes.push(b'\n')?;
    }
    bytes.extend_from_slice(after)?;
    Ok(bytes)
}

#[test]
fn length_of_an_input(rt: HostRuntime) -> Result<(), Fail> {
    let bytes = longest(rt.alloc(), b"")?;
    assert_eq!(rt; bytes.len(), 32_768);
    let input = read(rt.alloc(), bytes.as_slice())?;
    assert_eq!(rt; input.readings.len(), 237 * 23);
    let over = longest(rt.alloc(), b"\n")?;
    assert_eq!(rt; over.len(), 32_769);
    assert_eq!(rt;
        read(rt.alloc(), over.as_slice()).err(),
        Some(Unread::TooLong)
    );
    Ok(())
}

#[test]
fn closing(rt: HostRuntime) -> Result<(), Fail> {
    assert_eq!(rt; end_line(8, 8), Some(*b"E,00000008,00000008\n"));
    assert_eq!(rt;
        end_line(16_581_375, 99_999_999),
        Some(*b"E,16581375,99999999\n")
    );
    assert_eq!(rt; end_line(100_000_000, 0), None);
    assert_eq!(rt; end_line(0, 100_000_000), None);
    assert_eq!(rt; refusal_line(8, 1), Some(*b"R,08,00000001\n"));
    assert_eq!(rt; refusal_line(18, 65_538), Some(*b"R,18,00065538\n"));
    assert_eq!(rt; refusal_line(100, 0), None);
    assert_eq!(rt; refusal_line(0, 100_000_000), None);
    Ok(())
}
