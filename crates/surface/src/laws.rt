// The laws of the whole surface, one to a function; the answer says nothing.
ghost use Rattle.surface.specs.Fronts.{OpenAtFront, Closed};
ghost use Rattle.surface.specs.Laws.{LaidByRule, Mirrored, AllCornered, AllJoined, LaidOnce};
ghost use Rattle.surface.specs.Placing.{AllPlaced};
ghost use Rattle.surface.specs.Samples.{Samples};
ghost use Rattle.surface.specs.Whole.{AllWhole};

// The voxels, kinds and links of a cube are those of the scan where its low voxel places it.
pub fn all_placed()
    ensures { AllPlaced }
{}

// The triangles of a cube are those of the rules at its kinds, in three different link numbers each.
pub fn laid_by_rule()
    ensures { LaidByRule }
{}

// Solid and hollow exchanged, with the pair swapped, turn every triangle over.
pub fn mirrored()
    ensures { Mirrored }
{}

// The corners are the links of drawn cubes between a solid and a hollow voxel.
pub fn all_cornered()
    ensures { AllCornered }
{}

// In the cube that laid an edge, the solid ends of its links are joined, and so are the hollow ends.
pub fn all_joined()
    ensures { AllJoined }
{}

// No directed edge is laid twice.
pub fn laid_once()
    ensures { LaidOnce }
{}

// With a border of one kind, only edges on the front of what is drawn lack their reverse, and all of those do.
pub fn open_at_front()
    ensures { OpenAtFront }
{}

// With a border of one kind and all cubes drawn, no reverse is missing.
pub fn closed()
    ensures { Closed }
{}

// All laws of the first n cubes together.
pub fn all_whole()
    ensures { AllWhole }
{}

// Worked cases, from the definitions: which way round triangles and their edges go.
pub fn samples()
    ensures { Samples }
{}
