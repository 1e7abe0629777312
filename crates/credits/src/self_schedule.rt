//! The Self-Scheduled hours of a Resource: blocks of them against its Minimum Run Time, gaps against its minimum down time.
ghost use Rattle.std.specs.Prelude.{◌≡◌, ◌+◌, ◌<◌, ◌≤◌, ◌&&◌, if◌then◌else◌, nat_eq, nat_lt};
ghost use Rattle.credits.specs.DayAhead.{self_scheduled, qualifies, DayAheadByBlocks};

use crate::day_ahead::DayAheadDay;

impl DayAheadDay<'_> {
    /// Whether an hour is Self-Scheduled; hours count from 0.
    pub(crate) fn is_self_scheduled(&self, hour: usize) -> bool
        requires { hour < 24 }
        ensures { result ≡ self_scheduled self.now.resource.now hour }
    {
        (self.resource.self_scheduled >> hour) % 2 == 1
    }

    /// Whether a block of Self-Scheduled hours that ends before an hour is too short. A block from the day's first hour on adds
    /// the hours on line at midnight.
    fn is_short_block(&self, block: usize, hour: usize) -> bool
        requires { block ≤ 24 }
        ensures { result ≡ (nat_lt 0 block && nat_lt (block + (if nat_eq block hour then self.now.resource.now.hours_on_line else 0)) self.now.resource.now.minimum_run_hours) }
    {
        let before = if block == hour {
            usize::from(self.resource.hours_on_line)
        } else {
            0
        };
        block > 0 && block + before < usize::from(self.resource.minimum_run_hours)
    }

    /// Whether the gap before an hour that begins a block is too short; a gap from the day's first hour on is long enough.
    fn is_short_gap(&self, gap: usize, hour: usize) -> bool
        ensures { result ≡ (nat_lt 0 gap && (nat_lt gap hour && nat_lt gap self.now.resource.now.minimum_down_hours)) }
    {
        gap > 0 && gap < hour && gap < usize::from(self.resource.minimum_down_hours)
    }

    /// Whether every block of Self-Scheduled hours and every gap between two blocks is long enough.
    pub(crate) fn qualifies(&self) -> bool
        ensures value { result ≡ qualifies self.now.resource.now 24 }
        ensures blocks { DayAheadByBlocks self.now.resource.now }
    {
        let mut block = 0;
        let mut gap = 0;
        // hours are bits of a number, and rows of them are counted
        for hour in 0..24 {
            if self.is_self_scheduled(hour) {
                if self.is_short_gap(gap, hour) {
                    return false;
                }
                block += 1;
                gap = 0;
            } else {
                if self.is_short_block(block, hour) {
                    return false;
                }
                block = 0;
                gap += 1;
            }
        }
        true
    }
}
