// Bytes cut at separators.
ghost use Rattle.std.specs.Iterator.{YieldsFirstRef, item_count};
ghost use Rattle.std.specs.Prelude.{◌≡◌, ◌∷◌, ◌==◌, IfSome, MatchOption, None, Some, position};
ghost use Rattle.listing.specs.Cutting.{cut, left, pieces, unread};

// The pieces of bytes between the marks that part them, from the front on. Bytes with no mark are one piece.
#[derive(Drop)]
pub(crate) struct Pieces<'a> {
    mark: u8,
    // What is still to be cut; none once the last piece is taken.
    rest: Option<&'a [u8]>,
}

impl<'a> Pieces<'a> {
    // All pieces of these bytes.
    pub(crate) fn new(bytes: &'a [u8], mark: u8) -> Pieces<'a>
        ensures mark { result.mark ≡ mark }
        ensures all { left result ≡ pieces mark bytes.now }
        ensures whole { unread result ≡ bytes.now }
    {
        Pieces {
            mark,
            rest: Some(bytes),
        }
    }

    // The next piece, if a mark ends it; with no such piece nothing is taken.
    #[tactic(auto, using(crate::proofs::Cuts::cut_at, crate::proofs::Cuts::cut_none, crate::proofs::Cuts::pieces_before))]
    pub(crate) fn ended(&mut self) -> Option<&'a [u8]>
        ensures mark { self.new.mark ≡ self.old.mark }
        ensures cut { MatchOption result ((cut self.old.mark (unread self.old) ≡ None) × (self.new ≡ self.old)) (λ piece. cut self.old.mark (unread self.old) ≡ Some (piece.now, unread self.new)) }
        ensures first { IfSome result (λ piece. left self.old ≡ piece.now ∷ left self.new) }
    {
        let rest = self.rest?;
        let end = first_mark(rest, self.mark)?;
        self.rest = Some(&rest[end + 1..]);
        Some(&rest[..end])
    }

    // What is still to be cut.
    pub(crate) fn rest(&self) -> &'a [u8]
        ensures { result.now ≡ unread self.now }
    {
        self.rest.unwrap_or(&[])
    }
}

impl<'a> Iterator for Pieces<'a> {
    type Item = &'a [u8];

    ghost next_gives = { YieldsFirstRef left };

    ghost remaining = { item_count left };

    #[tactic(auto, using(crate::proofs::Cuts::pieces_whole))]
    fn next(&mut self) -> Option<&'a [u8]> {
        match self.ended() {
            Some(piece) => Some(piece),
            None => self.rest.take(),
        }
    }
}

// Where the first mark stands.
fn first_mark(bytes: &[u8], mark: u8) -> Option<usize>
    ensures { result ≡ position (λ byte. byte == mark) bytes.now }
{
    bytes.iter().position(|byte| *byte == mark)
}
