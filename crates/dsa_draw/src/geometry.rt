//! Where things stand in a drawing.
//!
//! A column for each step, from left to right, and a number of 32 bits for each step: a place is
//! one of 64, so that no sum of these wraps.

ghost use Rattle.std.specs.Prelude.{◌≡◌, ◌+◌, ◌-◌, ◌*◌};
ghost use Rattle.dsa_draw.specs.Bands.{level_height};

/// The left end of the first column, behind the names of the rows.
const LEFT: u64 = 112;

/// The width of a column.
const COLUMN: u64 = 14;

/// The height of a band of levels.
pub const BAND: u64 = 48;

/// The least height of a level that is not 0.
const LEAST: u64 = 2;

/// The height of a lane of bars.
pub const LANE: u64 = 13;

/// The left end of the column of a step, which is where the column before it ends.
pub fn column_left(step: u32) -> u64
    ensures { result ≡ 112 + 14 * step }
{
    LEFT + COLUMN * u64::from(step)
}

/// The width of the columns from `begin` up to, but without, `end`; 0 if there are none.
pub fn columns_wide(begin: u32, end: u32) -> u64
    ensures { result ≡ 14 * (end - begin) }
{
    COLUMN * u64::from(end.saturating_sub(begin))
}

/// How high a level stands in a band that is full at `most`; one that is not 0 can be seen.
pub fn level_high(level: u16, most: u16) -> u64
    ensures { result ≡ level_height most level }
{
    if level == 0 {
        return 0;
    }
    let high = BAND * u64::from(level.min(most)) / u64::from(most.max(1));
    high.max(LEAST)
}

/// The upper end of a lane, counted from 0, of those that begin at `top`.
pub fn lane_top(top: u32, lane: u32) -> u64
    ensures { result ≡ top + 13 * lane }
{
    u64::from(top) + LANE * u64::from(lane)
}
