// The texts by which pairs and triangles are shown.
ghost use Rattle.std.specs.Prelude.{Some};
ghost use Rattle.cube.specs.Texts.{pair_text, no_pair_text, triangle_text};

use crate::numbers::NoPair;
use crate::pair::Pair;
use crate::triangle::CubeTriangle;
use std::error::Error;
use std::fmt;

impl fmt::Display for Pair {
    ghost output = { λ p. Some (pair_text p) };

    fn fmt<W: fmt::Write>(&self, f: &mut fmt::Formatter<W>) -> fmt::Result {
        let (solid, hollow) = <(u16, u16)>::from(*self);
        write!(f, "({solid},{hollow})")
    }
}

impl fmt::Display for NoPair {
    ghost output = { λ _. Some no_pair_text };

    fn fmt<W: fmt::Write>(&self, f: &mut fmt::Formatter<W>) -> fmt::Result {
        write!(f, "no such pair of connectedness")
    }
}

impl Error for NoPair {}

impl fmt::Display for CubeTriangle {
    ghost output = { λ t. Some (triangle_text t) };

    fn fmt<W: fmt::Write>(&self, f: &mut fmt::Formatter<W>) -> fmt::Result {
        let CubeTriangle(first, second, third) = *self;
        write!(f, "({first},{second},{third})")
    }
}
