ghost use Rattle.std.specs.Prelude.{◌≡◌, Result};
ghost use Rattle.parts.specs.declared.limits.OutOfLimits.{OutOfLimits};

use crate::limits::OutOfLimits;

// What a line of a file enters: numbers as they come, which make a record where they are within their
// limits.
pub trait Entry {
    type Record;

    ghost checked: { Self → Result Self.Record OutOfLimits };

    // The record, or the first field outside its limits.
    fn checked(&self) -> Result<Self::Record, OutOfLimits>
        ensures { result ≡ checked self.now };
}
