ghost use Rattle.std.specs.Prelude.{◌≡◌, ◌*◌, ◌^◌, ◌<◌, ◌++◌, IsTrue};

use lane_rows::LaneRows;
use lanes::Lanes;

/// Forms whose rows are read off a table: those of a context, and those behind them, and a number that no form's sum of
/// sizes passes.
#[derive(Clone, Copy)]
pub struct ReadForms<'a> {
    pub forms: &'a [Lanes],
    pub further: &'a [Lanes],
    pub norm: u32,
}

impl ReadForms<'_> {
    /// Whether no number of a row that is read passes 31 bits.
    #[inline(always)]
    pub fn are_readable(&self, rows: &LaneRows) -> bool
        ensures { IsTrue result → self.now.norm * rows.now.most < 2 ^ 31 }
    {
        (self.norm as u64) * (rows.most() as u64) < 1 << 31
    }
}
