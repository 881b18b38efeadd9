//! How wide the strips of a digest are, or how high the parts of one, and how many points the rings may
//! have in one.
ghost use Rattle.std.specs.Prelude.{◌<◌, IfSome};

/// How often strips are halved before one is hashed part by part though a narrower one may have room. So
/// strips aren't halved without end where dense columns and empty ones take turns.
const MOST_TRIES: u32 = 32;

/// How many more strips may be halved after a strip that has used much of its room.
const PAID_TRIES: u32 = 4;

/// How wide the first strip is at least that is hashed part by part.
const FIRST_WIDTH: u64 = 16;

/// How many points the rings of a strip have, and how many of them are on its left and right sides, or
/// on the lower and upper sides of a part.
#[derive(Clone, Copy)]
pub(crate) struct Points {
    pub all: usize,
    pub on_sides: usize,
}

impl Points {
    /// The number of points that aren't on the sides.
    fn inner(self) -> usize {
        self.all.saturating_sub(self.on_sides)
    }
}

/// How wide the next strip may be, how many points the rings may have in it, how many more strips may be
/// halved, and, if the next one is hashed part by part, how wide that one may be.
#[derive(Clone, Copy)]
pub(crate) struct Pace {
    pub width: u64,
    pub points: usize,
    tries: u32,
    in_parts: Option<u64>,
}

/// The width of the strip after one of this width, with `inner` points where there was room for
/// `room`: twice as wide after a third of them, and much wider after next to none.
fn next_width(width: u64, inner: usize, room: usize) -> u64
    ensures { 0 < width → 0 < result }
{
    if inner <= room / 64 {
        return width.saturating_mul(32);
    }
    if inner <= room / 3 {
        return width.saturating_mul(2);
    }
    width
}

/// How a strip was hashed part by part: how wide it might be and was, how many parts it had, and
/// whether next to nothing was gathered.
#[derive(Clone, Copy)]
pub(crate) struct InParts {
    pub asked: u64,
    pub width: u64,
    pub parts: usize,
    pub is_empty: bool,
}

impl Pace {
    /// The pace of the first of the strips from one abscissa up to another, which may be as wide as all of
    /// them.
    pub(crate) fn new(from: i64, end: i64, points: usize) -> Pace
        ensures { 0 < result.width }
    {
        Pace {
            width: from.abs_diff(end).max(1),
            points,
            tries: MOST_TRIES,
            in_parts: None,
        }
    }

    /// The pace of the first of the parts from one ordinate up to another, which may be as high as all of
    /// them. They are halved as often as need be.
    pub(crate) fn of_parts(from: i64, end: i64, points: usize) -> Pace
        ensures { 0 < result.width }
    {
        Pace {
            tries: u32::MAX,
            ..Pace::new(from, end, points)
        }
    }

    /// The pace after a strip with these points. Rings that go on beyond the strip are in the next one
    /// too, however narrow it is, so only the other points say whether the next one may be wider. If these
    /// rings have taken more than half of the room, the next strip is hashed part by part.
    pub(crate) fn after(self, points: Points) -> Pace
        ensures { 0 < self.width → 0 < result.width }
    {
        let room = self.points.saturating_sub(points.on_sides);
        let paid = if points.all > self.points / 3 {
            PAID_TRIES
        } else {
            0
        };
        let width = next_width(self.width, points.inner(), room);
        let in_parts = if points.on_sides > self.points / 2 {
            Some(width)
        } else {
            None
        };
        Pace {
            width,
            tries: self.tries.saturating_add(paid),
            in_parts,
            ..self
        }
    }

    /// How wide the next strip may be that is hashed part by part: as wide as the one that had no room, since
    /// its end is lowered where it isn't empty.
    pub(crate) fn width_in_parts(self) -> u64
        ensures { 0 < result }
    {
        self.in_parts.unwrap_or(self.width).max(FIRST_WIDTH)
    }

    /// Whether the next strip is hashed part by part, without a look at whether it has room.
    pub(crate) fn is_in_parts(self) -> bool {
        self.in_parts.is_some()
    }

    /// The pace after a strip that was hashed part by part. If it was as wide as it might be and had one
    /// part, strips have room again.
    pub(crate) fn after_parts(self, strip: InParts) -> Pace
        ensures { 0 < self.width → 0 < result.width }
    {
        let is_whole = strip.width >= strip.asked;
        if is_whole && strip.parts <= 1 {
            return Pace {
                width: strip.width.saturating_mul(2).max(1),
                in_parts: None,
                ..self
            };
        }
        let times = if is_whole && strip.is_empty { 8 } else { 2 };
        Pace {
            in_parts: Some(strip.width.saturating_mul(times)),
            ..self
        }
    }

    /// The pace at which a strip is tried that is at most half as wide, or None if no narrower one is
    /// tried.
    pub(crate) fn halved(self) -> Option<Pace>
        ensures wide { IfSome result (λ pace. 0 < pace.width) }
        ensures narrower { IfSome result (λ pace. pace.width < self.width) }
    {
        if self.width <= 1 || self.tries == 0 {
            return None;
        }
        Some(Pace {
            width: self.width / 2,
            tries: self.tries - 1,
            ..self
        })
    }
}
