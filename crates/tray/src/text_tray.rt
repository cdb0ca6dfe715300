// A tray over bytes: the text of what it holds stands in front.
ghost use Rattle.tray.specs.Texts.{Spells};

pub mod calls;

// A tray with one place for each whole 27 of the bytes that it is given; line n stands in bytes 27 n onward.
#[derive(Drop)]
pub struct TextTray {
    // Whole, as they were given and as they are handed back; so the number of lines stands beside them.
    bytes: Vec<u8>,
    held: usize,
    ghost spells: { Spells bytes.items held },
}
