// Parts put into their places.
ghost use Rattle.std.specs.Prelude.{◌≡◌};
ghost use Rattle.tx_part_layout.specs.LaidParts.{put_to};
ghost use Rattle.tx_part_layout.specs.Slots.{put_below};

use crate::laid::PlacedPart;
use tx_tree::Path;

impl PlacedPart {
    /// Puts it at this path.
    pub fn put(&mut self, path: Path)
        ensures { self.new ≡ put_to path self.old }
    {
        self.path = path;
    }

    /// Puts it below so many lines of its unit.
    pub(crate) fn put_below(&mut self, above: u64)
        ensures { self.new ≡ put_below above self.old }
    {
        self.above = above;
    }
}
