// The line of a triangle: three link numbers of eight digits, parted by commas, and a line feed.
ghost use Rattle.std.specs.Prelude.{◌≡◌, ℕ, ◌+◌, ◌*◌, ◌^◌, ◌<◌, ◌≤◌, length, take, drop, MatchOption, MatchResult, ◌≢◌};
ghost use Rattle.tray.specs.Lines.{LineRead, cell, line_of, mark_byte, with_line};

use crate::digits::{read_digits, write_digits};
use crate::tray::Full;
use crate::triangle::Triangle;

// The bytes of a line.
pub(crate) const LINE: usize = 27;

// The bytes of a number and the mark after it.
const CELL: usize = 9;

// What stands after a number of a line.
#[derive(Clone, Copy)]
enum Mark {
    Comma,
    LineFeed,
}

// The byte of a mark.
impl From<Mark> for u8 {
    ghost from_gives = { λ mark byte. byte ≡ mark_byte mark };

    fn from(mark: Mark) -> u8 {
        match mark {
            Mark::Comma => b',',
            Mark::LineFeed => b'\n',
        }
    }
}

// Writes the line of a triangle into place n, by lending the 27 bytes from 27 n on to the line writer; refused, with no change, where the
// bytes end before it does.
pub fn write_line_at(bytes: &mut [u8], n: usize, triangle: Triangle) -> Result<(), Full>
    ensures { MatchResult result (λ _. (27 * n + 27 ≤ length bytes.old) × (bytes.new ≡ with_line bytes.old n triangle)) (λ _. (length bytes.old < 27 * n + 27) × (bytes.new ≡ bytes.old)) }
{
    if n >= bytes.len() / LINE {
        return Err(Full);
    }
    // By range: `chunks_exact_mut` and `as_chunks_mut` say nothing of what the bytes end as.
    let start = LINE * n;
    write_line(&mut bytes[start..start + LINE], triangle);
    Ok(())
}

// Writes the line of a triangle over 27 bytes. The three corners by name, here and in reading: the last has another mark.
#[tactic(auto, unfolding(crate::specs::Lines::line_of))]
fn write_line(line: &mut [u8], triangle: Triangle)
    requires { length line.old ≡ 27 }
    ensures { line.new ≡ line_of triangle }
{
    let (one, rest) = line.split_at_mut(CELL);
    let (two, three) = rest.split_at_mut(CELL);
    write_cell(one, triangle.first(), Mark::Comma);
    write_cell(two, triangle.second(), Mark::Comma);
    write_cell(three, triangle.third(), Mark::LineFeed);
}

// Writes a number in eight digits over 9 bytes, and the mark after it.
#[tactic(auto, unfolding(crate::specs::Lines::cell))]
fn write_cell(bytes: &mut [u8], number: u32, mark: Mark)
    requires { length bytes.old ≡ 9 }
    ensures { bytes.new ≡ cell number (mark_byte mark) }
{
    let (last, digits) = bytes.split_last_mut().unwrap();
    write_digits(digits, number.into());
    *last = mark.into();
}

// The triangle whose line stands in place n; none where the 27 bytes from 27 n on, or fewer at the end, are the line of no triangle.
#[tactic(auto, using(crate::proofs::LineReads::read_past, crate::proofs::LineReads::chunk_at))]
pub fn read_line_at(bytes: &[u8], n: usize) -> Option<Triangle>
    ensures { LineRead (take 27 (drop (27 * n) bytes.now)) result }
{
    let (lines, _) = bytes.as_chunks::<LINE>();
    read_line(lines.get(n)?)
}

// The triangle whose line these bytes are; none where they are the line of no triangle.
#[tactic(auto, using(crate::proofs::LineLaws::length_line))]
pub fn read_line(line: &[u8]) -> Option<Triangle>
    ensures { LineRead line.now result }
{
    let (one, rest) = line.split_at_checked(CELL)?;
    let (two, three) = rest.split_at_checked(CELL)?;
    let first = read_cell(one, Mark::Comma)?;
    let second = read_cell(two, Mark::Comma)?;
    let third = read_cell(three, Mark::LineFeed)?;
    Triangle::new(first, second, third).ok()
}

// The number that eight digits before a mark write; none for any other bytes.
fn read_cell(bytes: &[u8], mark: Mark) -> Option<u32>
    ensures { MatchOption result ((n : ℕ) → n < 100000000 → bytes.now ≢ cell n (mark_byte mark)) (λ n. (n < 100000000) × (bytes.now ≡ cell n (mark_byte mark))) }
{
    read_digits(bytes.strip_suffix(&[mark.into()])?)
}
