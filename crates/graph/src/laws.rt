// What holds of the loops of every cube; the answer says nothing.
ghost use Rattle.graph.specs.Laws.{AllLooped};

// Under each connectedness of solid, each loop has three to seven corners, no corner is in two of them, and every corner is in one.
pub fn all_looped()
    ensures { AllLooped }
{}
