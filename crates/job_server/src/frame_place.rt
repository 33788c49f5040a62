//! Where a stream of frames stands.

ghost use Rattle.std.specs.Prelude.{◌≡◌, ◌≤◌, ◌-◌};

/// How far a frame has come: some bytes of its length, or of its text; or none, between frames.
#[derive(Clone, Copy)]
pub(crate) struct FramePlace {
    head: u32,
    length: u32,
    left: u32,
}

/// What came of frames in a piece: where the stream stands behind it, whether a frame began in it, how
/// many were whole, and whether one is longer than any may be, behind which nothing counts.
#[derive(Clone, Copy)]
pub(crate) struct PieceFrames {
    pub place: FramePlace,
    pub begins: bool,
    pub whole: u64,
    pub too_large: bool,
}

// The bytes of a length.
const HEAD_LEN: u32 = 4;

// The most bytes of a frame's text.
const LONGEST: u32 = 1_048_576;

impl FramePlace {
    /// Between frames.
    pub fn between() -> FramePlace {
        FramePlace {
            head: 0,
            length: 0,
            left: 0,
        }
    }

    /// Whether a part of a frame has come, and not all of it.
    pub fn is_within(self) -> bool {
        self.head > 0 || self.left > 0
    }

    // One byte further.
    fn after(self, byte: u8) -> FramePlace {
        let FramePlace { head, length, left } = self;
        if left > 0 {
            return FramePlace {
                head: 0,
                length: 0,
                left: left - 1,
            };
        }
        let length = (length % 0x100_0000) * 0x100 + u32::from(byte);
        if head >= HEAD_LEN - 1 {
            return FramePlace {
                head: 0,
                length: 0,
                left: length,
            };
        }
        FramePlace {
            head: head + 1,
            length,
            left: 0,
        }
    }

    // How many of so many further bytes stand in the frame's text, ahead of its last one.
    fn inside(self, len: usize) -> u32
        ensures within { result ≤ len }
        ensures text { result ≤ self.left }
    {
        let inside = self.left.saturating_sub(1);
        if (inside as usize) < len {
            inside
        } else {
            len as u32
        }
    }

    // So many bytes of the text further.
    fn past(self, count: u32) -> FramePlace
        requires { count ≤ self.left }
        ensures { result ≡ record self { left = self.left - count } }
    {
        FramePlace {
            left: self.left - count,
            ..self
        }
    }

    /// What came of frames in a piece. What stands inside a frame's text tells nothing, and is passed
    /// over.
    pub fn behind(self, piece: &[u8]) -> PieceFrames {
        let mut place = self;
        let mut begins = false;
        let mut whole: u64 = 0;
        let mut too_large = false;
        let mut rest = piece;
        'bytes: while let Some((byte, others)) = rest.split_first() {
            if !place.is_within() {
                begins = true;
            }
            place = place.after(*byte);
            if place.left > LONGEST {
                too_large = true;
            }
            if !place.is_within() && !too_large {
                whole = whole.saturating_add(1);
            }
            let inside = place.inside(others.len());
            place = place.past(inside);
            rest = others.split_at(inside as usize).1;
        }
        PieceFrames {
            place,
            begins,
            whole,
            too_large,
        }
    }
}
