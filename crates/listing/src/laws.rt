// Laws of the forms, apart from any call; the answer says nothing.
ghost use Rattle.std.specs.Prelude.{ℕ};
ghost use Rattle.listing.specs.Cutting.{CutOnce};

// Cutting at a separator is unique.
#[tactic(auto, using(crate::proofs::CutLaws::cut_once))]
pub fn cut_once()
    ensures { (mark : ℕ) → CutOnce mark }
{}
