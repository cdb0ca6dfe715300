// The calls of a text tray.
ghost use Rattle.std.specs.Prelude.{◌≡◌, ◌*◌, ◌/◌, [], length, take, drop, MatchResult};
ghost use Rattle.tray.specs.declared.text_tray.TextTray.{TextTray};
ghost use Rattle.tray.specs.Buffers.{bytes_of, text_holds, TextKeeps, text_lawful};
ghost use Rattle.tray.specs.Holding.{KeepsRest, Put, emptied};
ghost use Rattle.tray.specs.Lines.{with_line};
ghost use Rattle.tray.specs.Texts.{text_of};

use crate::line::{LINE, read_line_at, write_line_at};
use crate::text_tray::TextTray;
use crate::tray::{Full, Tray};
use crate::triangle::Triangle;

impl TextTray {
    // An empty tray over the bytes, which stay as they are.
    pub fn new(bytes: Vec<u8>) -> TextTray
        ensures holds { text_holds result ≡ record { list = []; free = length bytes.items / 27 } }
        ensures bytes { result.bytes ≡ bytes }
    {
        TextTray { bytes, held: 0 }
    }

    // The text of what it holds.
    pub fn text(&self) -> &[u8]
        ensures { result.now ≡ text_of (text_holds self.now).list }
    {
        let end = LINE * self.held;
        &self.bytes[..end]
    }

    // Ends the tray, and hands all of the bytes back: in front the text of what it held, and behind it each byte as it stood at
    // any time since which no line past the text was written.
    pub fn into_bytes(self) -> Vec<u8>
        ensures bytes { result ≡ self.bytes }
        ensures text { take (27 * length (text_holds self).list) result.items ≡ text_of (text_holds self).list }
        ensures given { (before : TextTray) → KeepsRest text_holds TextKeeps before self → drop (27 * length (text_holds self).list) result.items ≡ drop (27 * length (text_holds self).list) (bytes_of before) }
    {
        let TextTray { bytes, held: _ } = self;
        bytes
    }
}

impl Tray for TextTray {
    ghost holds = { text_holds };

    ghost keeps = { TextKeeps };

    ghost lawful = { text_lawful };

    fn free(&self) -> usize {
        self.bytes.len() / LINE - self.held
    }

    fn held(&self) -> usize {
        self.held
    }

    #[tactic(auto, using(crate::proofs::TextLaws::text_nth))]
    fn nth(&self, n: usize) -> Option<Triangle> {
        read_line_at(self.text(), n)
    }

    // Writes the line into the next place, and changes no other byte: the buffer goes whole to the call that lends 27 bytes of it on.
    fn put(&mut self, triangle: Triangle) -> Result<(), Full>
        ensures put { Put (text_holds self.old) triangle result (text_holds self.new) }
        ensures rest { KeepsRest text_holds TextKeeps self.old self.new }
        ensures bytes { MatchResult result (λ _. bytes_of self.new ≡ with_line (bytes_of self.old) (length (text_holds self.old).list) triangle) (λ _. bytes_of self.new ≡ bytes_of self.old) }
    {
        let n = self.held;
        write_line_at(self.bytes.as_mut_slice(), n, triangle)?;
        self.held = n + 1;
        Ok(())
    }

    // Changes no byte.
    fn empty(&mut self)
        ensures emptied { text_holds self.new ≡ emptied (text_holds self.old) }
        ensures rest { TextKeeps 0 self.old self.new }
        ensures bytes { bytes_of self.new ≡ bytes_of self.old }
    {
        self.held = 0;
    }
}
