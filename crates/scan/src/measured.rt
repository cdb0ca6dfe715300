// Scans that also tell how far apart their voxels lie.
ghost use Rattle.std.specs.Prelude.{◌≡◌};
ghost use Rattle.scan.specs.declared.spacing.Spacing.{Spacing};

use crate::scan::Scan;
use crate::spacing::Spacing;

// A scan with a spacing along each axis.
pub trait MeasuredScan: Scan {
    // The spacing of the scan.
    ghost spaced: { Self → Spacing };

    // The spacing of the scan.
    fn spacing(&self) -> Spacing
        ensures { result ≡ spaced self.now };
}

impl<'a, S: MeasuredScan> MeasuredScan for &'a S {
    ghost spaced = { λ s. S.MeasuredScan.spaced s.now };

    fn spacing(&self) -> Spacing {
        (**self).spacing()
    }
}
