//! The scale of a drawing, in pixels.

use run_story::Moment;

/// Where the lanes begin.
pub const LEFT: u64 = 104;

/// How high a lane is.
pub const HEIGHT: u64 = 84;

/// Between two lanes, where the marks are.
pub const GAP: u64 = 30;

/// Above the first lane, where the legend is.
pub const TOP: u64 = 52;

/// About how wide the lanes are together.
const WIDTH: u64 = 1080;

/// The scale of a drawing.
#[derive(Clone, Copy)]
pub struct Scale {
    /// The number of the first entry.
    pub first: u64,
    /// How many entries are drawn.
    pub count: u64,
    /// How wide an entry is.
    pub step: u64,
    /// The greatest offset that is drawn, at the top of each lane.
    pub top: u64,
}

impl Scale {
    /// Where an entry begins: `index` counts from the first entry that is drawn.
    pub fn x(&self, index: u64) -> u64 {
        LEFT.saturating_add(index.min(self.count).saturating_mul(self.step))
    }

    /// Where an entry of the run begins; one outside of the part is at its edge.
    pub fn x_of(&self, entry: usize) -> u64 {
        self.x((entry as u64).saturating_sub(self.first))
    }

    /// How far an offset is above the bottom of a lane.
    pub fn rise(&self, offset: u64) -> u64 {
        let part = offset.min(self.top) as u128 * HEIGHT as u128 / self.top.max(1) as u128;
        u64::try_from(part).unwrap_or(HEIGHT)
    }
}

/// The greatest offset in a moment.
fn top_of(moment: &Moment) -> u64 {
    let mut top = moment.high_watermark.max(moment.log_start);
    for log in moment.logs.as_slice() {
        top = top.max(log.end);
    }
    top
}

/// Returns the scale of a drawing of these moments, the first of which is of this entry.
pub fn scale_of(moments: &[Moment], first: usize) -> Scale {
    let mut top = 1;
    for moment in moments {
        top = top_of(moment).max(top);
    }
    let count = moments.len() as u64;
    Scale {
        first: first as u64,
        count,
        step: (WIDTH / count.max(1)).max(4).min(40),
        top,
    }
}
