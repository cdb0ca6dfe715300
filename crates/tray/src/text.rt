// The text of a list of triangles: their lines, one after the other.
ghost use Rattle.std.specs.Prelude.{◌≡◌, ◌≤◌, List, length, Ok, Some};
ghost use Rattle.tray.specs.declared.triangle.Triangle.{Triangle};
ghost use Rattle.tray.specs.Holding.{KeepsRest, added_all};
ghost use Rattle.tray.specs.Reading.{Counted, Read, Written};
ghost use Rattle.tray.specs.Refusals.{text_refused_text};
ghost use Rattle.tray.specs.Texts.{list_of, text_of};

use crate::line::{LINE, read_line, write_line_at};
use crate::tray::Tray;
use crate::triangle::Triangle;
use std::error::Error;
use std::fmt;

// Why a list was not written, or a text not read.
#[derive(Clone, Copy, PartialEq, Eq, Debug)]
pub enum TextRefusal {
    // This line, counted from 1, is the first that is the line of no triangle.
    Line(usize),
    // There are more triangles than free places for them.
    NoRoom { triangles: usize, free: usize },
}

impl fmt::Display for TextRefusal {
    ghost output = { λ refusal. Some (text_refused_text refusal) };

    fn fmt<W: fmt::Write>(&self, f: &mut fmt::Formatter<W>) -> fmt::Result {
        match *self {
            TextRefusal::Line(line) => write!(f, "line {line} is the line of no triangle"),
            TextRefusal::NoRoom { triangles, free } => {
                write!(f, "{triangles} triangles want a place and {free} are free")
            }
        }
    }
}

impl Error for TextRefusal {}

// Writes the text of a list over the front of the bytes, and answers how many bytes that were; refused, with no change, where the bytes
// have fewer places than the list has triangles.
pub fn write(list: &[Triangle], bytes: &mut [u8]) -> Result<usize, TextRefusal>
    ensures { Written list.now bytes.old result bytes.new }
{
    let triangles = list.len();
    let free = bytes.len() / LINE;
    if triangles > free {
        return Err(TextRefusal::NoRoom { triangles, free });
    }
    // By place: a loop over `chunks_exact_mut` says nothing of what the bytes end as.
    for (n, triangle) in list.iter().enumerate() {
        write_line_at(bytes, n, *triangle).unwrap();
    }
    Ok(LINE * triangles)
}

// How many triangles have this text; refused with the line at fault where it is no text of a list.
pub fn count(text: &[u8]) -> Result<usize, TextRefusal>
    ensures told { Counted text.now result }
    ensures back { (ts : List Triangle) → text.now ≡ text_of ts → result ≡ Ok (length ts) }
{
    for (n, line) in text.chunks(LINE).enumerate() {
        if read_line(line).is_none() {
            return Err(TextRefusal::Line(n + 1));
        }
    }
    Ok(text.len() / LINE)
}

// Puts the triangles of a text into a tray, in order, and answers how many; refused, with no change, where a line is at fault or the tray
// has fewer free places than there are triangles.
#[tactic(auto, using(crate::proofs::TextReads::list_whole, crate::proofs::TextReads::read_back))]
pub fn read<T: Tray>(text: &[u8], into: &mut T) -> Result<usize, TextRefusal>
    ensures told { Read text.now (T.Tray.holds into.old) result (T.Tray.holds into.new) }
    ensures back { (ts : List Triangle) → text.now ≡ text_of ts → length ts ≤ (T.Tray.holds into.old).free → (result ≡ Ok (length ts)) × (T.Tray.holds into.new ≡ added_all (T.Tray.holds into.old) ts) }
    ensures rest { KeepsRest T.Tray.holds T.Tray.keeps into.old into.new }
{
    // The same refusal as in `write`, of what is free there: a call for it would be longer than the test.
    let triangles = count(text)?;
    let free = into.free();
    if triangles > free {
        return Err(TextRefusal::NoRoom { triangles, free });
    }
    put_lines(text, into);
    Ok(triangles)
}

// Puts the triangles of the text of a list into a tray that has room for them. A loop of its own, as `pour` has one: each
// takes its triangles from something else, by what is known there; that there is room is a clause on the list at hand.
fn put_lines<T: Tray>(text: &[u8], into: &mut T)
    requires spelled { text.now ≡ text_of (list_of text.now) }
    requires room { length (list_of text.now) ≤ (T.Tray.holds into.old).free }
    ensures added { T.Tray.holds into.new ≡ added_all (T.Tray.holds into.old) (list_of text.now) }
    ensures rest { KeepsRest T.Tray.holds T.Tray.keeps into.old into.new }
{
    for line in text.chunks_exact(LINE) {
        into.put(read_line(line).unwrap()).unwrap();
    }
}
