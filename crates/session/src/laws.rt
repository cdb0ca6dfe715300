// Laws of what is left in text trays, apart from any call; the answer says nothing.
ghost use Rattle.std.specs.Prelude.{List};
ghost use Rattle.scan.specs.Meaning.{Meaning};
ghost use Rattle.session.specs.Bytes.{Overwritten, SameBytes};

// Each call leaves the text of what a text tray then holds, and behind it the bytes that stood there; so the same calls on
// text trays that have the same bytes and hold the same leave the same bytes.
pub fn bytes_known()
    ensures each { Overwritten }
    ensures all { (m : Meaning) (others : List Meaning) → SameBytes m others }
{}
