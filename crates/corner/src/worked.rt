// Worked cases.
ghost use Rattle.corner.specs.Samples.{Samples};

// The worked cases of the rules, shown together from the definitions.
#[tactic(auto, using(crate::proofs::Halfway::worked))]
pub fn samples()
    ensures { Samples }
{
    cube::samples();
}
