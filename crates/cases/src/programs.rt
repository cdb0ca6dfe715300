// Inputs that are read, and outputs that are written behind what stands there.
use crate::inputs::{SAMPLE, longest};
use crate::streams::{Source, Target};
use listing::{Outcome, RunError, run};
use std::io::ErrorKind;
use std::process::Abort;
use std::test::Fail;

const SAMPLE_OUTPUT: &[u8] = crate::outputs::SAMPLE_OUTPUT;

#[test]
fn written_behind(rt: HostRuntime) -> Result<(), Fail> {
    let mut from = SAMPLE;
    let mut to = vec![in rt.alloc(); b'#', b'\n']?;
    assert_eq!(rt; run(rt.alloc(), &mut from, &mut to)?, Outcome::Finished);
    assert_eq!(rt; from.len(), 0);
    let Some((held, output)) = to.as_slice().split_at_checked(2) else {
        return Err(Fail::new("what stood there is gone"));
    };
    assert_eq!(rt; held, b"#\n".as_slice());
    assert_eq!(rt; output, SAMPLE_OUTPUT);
    Ok(())
}

#[test]
fn cut_after_the_limit(rt: HostRuntime) -> Result<(), Fail> {
    let ends: [(&[u8], usize, &[u8]); 3] = [
        (b"", 0, b"R,04,00000000\n"),
        (b"\n", 0, b"R,17,00000000\n"),
        (b"a long end", 9, b"R,17,00000000\n"),
    ];
    for (end, left, output) in ends {
        let bytes = longest(rt.alloc(), end)?;
        let mut from = bytes.as_slice();
        let mut to = vec![in rt.alloc()]?;
        assert_eq!(rt; run(rt.alloc(), &mut from, &mut to)?, Outcome::Refused);
        assert_eq!(rt; from.len(), left);
        assert_eq!(rt; to.as_slice(), output);
    }
    Ok(())
}

// Three bytes are read and four are written at a time, and each call is interrupted first.
#[test]
fn interrupted(rt: HostRuntime) -> Result<(), Fail> {
    let mut from = Source::new(SAMPLE, None);
    let mut to = Target::new(rt.alloc(), usize::MAX);
    assert_eq!(rt; run(rt.alloc(), &mut from, &mut to)?, Outcome::Finished);
    assert_eq!(rt; to.held(), SAMPLE_OUTPUT);
    Ok(())
}

#[test]
fn failed_reads(rt: HostRuntime) -> Result<(), Fail> {
    for before in [0, 1, 50, SAMPLE.len()] {
        let mut from = Source::new(SAMPLE, Some(before));
        let mut to = Target::new(rt.alloc(), usize::MAX);
        match run(rt.alloc(), &mut from, &mut to) {
            Err(RunError::Reading(error)) => assert!(rt; error.kind() == ErrorKind::Other),
            _ => return Err(Fail::new("a failed read is not told")),
        }
        assert_eq!(rt; to.held().len(), 0);
    }
    Ok(())
}

#[test]
fn failed_writes(rt: HostRuntime) -> Result<(), Fail> {
    for room in [0, 1, 27, SAMPLE_OUTPUT.len() - 1] {
        let mut from = SAMPLE;
        let mut to = Target::new(rt.alloc(), room);
        match run(rt.alloc(), &mut from, &mut to) {
            Err(RunError::Writing(error)) => assert!(rt; error.kind() == ErrorKind::WriteZero),
            _ => return Err(Fail::new("a failed write is not told")),
        }
        assert_eq!(rt; Some(to.held()), SAMPLE_OUTPUT.get(..room));
    }
    Ok(())
}

// Nothing is allocated here, so that refusals 17 and 18 are written whichever allocation fails.
#[test]
fn refused_without_memory(rt: HostRuntime) -> Result<(), Fail> {
    let long = [b'0'; 32_769];
    let inputs: [(&[u8], &[u8]); 3] = [
        (&long, b"R,17,00000000\n"),
        (b"S,1,2,1,5,H,18,6\nV,0\nV\n", b"R,18,00000003\n"),
        (b"S,1,2,1,5,H,18,6\nV,0\nV,0\n\n", b"R,18,00000004\n"),
    ];
    for (bytes, output) in inputs {
        let mut from = bytes;
        let mut room = [0; 14];
        assert_eq!(rt;
            run(rt.alloc(), &mut from, &mut room.as_mut_slice())?,
            Outcome::Refused
        );
        assert_eq!(rt; room.as_slice(), output);
    }
    Ok(())
}

#[test]
fn printed_failures(rt: HostRuntime) -> Result<(), Fail> {
    let read = RunError::Reading(ErrorKind::NotFound.into());
    let text = format!(in rt.alloc(); "{read}")?;
    assert!(rt; text.starts_with("reading failed: "));
    let written = RunError::Writing(ErrorKind::NotFound.into());
    let text = format!(in rt.alloc(); "{written}")?;
    assert!(rt; text.starts_with("writing failed: "));
    Ok(())
}
