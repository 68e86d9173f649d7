//! How many lines are told.

use crate::report::Room;

/// The room of a value by itself: a screen.
pub const ALONE: Room = Room {
    decisive: 40,
    lines: 40,
    shown: 6,
};

/// The room of both sides of a value.
pub const BOTH: Rooms = Rooms {
    first: Room {
        decisive: 28,
        lines: 16,
        shown: 2,
    },
    second: Room {
        decisive: 40,
        lines: 40,
        shown: 0,
    },
};

/// The room of both sides of a value before another one is told, which comes as near.
pub const BEFORE: Rooms = Rooms {
    first: Room {
        decisive: 22,
        lines: 9,
        shown: 1,
    },
    second: Room {
        decisive: 27,
        lines: 25,
        shown: 0,
    },
};

/// The same where in the first value nothing is found that decides.
pub const POOR: Rooms = Rooms {
    first: Room {
        decisive: 12,
        lines: 7,
        shown: 1,
    },
    second: Room {
        decisive: 16,
        lines: 15,
        shown: 0,
    },
};

/// The room of both sides of a second value.
pub const AFTER: Rooms = Rooms {
    first: Room {
        decisive: 35,
        lines: 30,
        shown: 1,
    },
    second: Room {
        decisive: 40,
        lines: 40,
        shown: 0,
    },
};

/// The room of two sides.
#[derive(Clone, Copy)]
pub struct Rooms {
    pub first: Room,
    pub second: Room,
}
