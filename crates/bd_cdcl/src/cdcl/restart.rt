//! Restarts: when the trail is taken back to level 0, and the decisions are made anew (Gomes, Selman
//! and Kautz, 1998). The measure of a learned clause is its glue or LBD, the number of levels that its
//! literals have (Audemard and Simon, Glucose, 2009): the fewer, the better.
//!
//! Two modes take turns, counted in learned clauses (Oh, 2015; Biere, CaDiCaL, 2019). In focused mode a
//! restart comes after each interval: where there is a short proof, this mostly finds it, while slower
//! restarts may miss it by a hundred times its length. In stable mode it comes where the fast average
//! of the glue is above that of all clauses (Audemard and Simon, 2012; the fast one as an exponential
//! moving average, as of Biere and Fröhlich, 2015): where no proof is short, it costs less. Each focused
//! mode is a new try: it begins with the variables in their first order.

/// How many clauses are learned in a turn of focused mode.
const FOCUSED_CLAUSES: u64 = 2_000;

/// How many clauses are learned in a turn of stable mode.
const STABLE_CLAUSES: u64 = 11_000;

/// How many clauses are learned between two restarts of focused mode.
const FOCUSED_INTERVAL: u64 = 7;

/// The fewest clauses that are learned between two restarts of stable mode.
const STABLE_INTERVAL: u64 = 6;

/// With each clause the fast average forgets one part in so many.
const FAST_EMA_WINDOW: u64 = 32;

/// In how many parts a level is counted.
const EMA_SCALE: u64 = 1 << 10;

/// The glue of the clauses that were learned.
#[derive(Drop)]
pub(crate) struct Restarts {
    /// The fast average, in parts of a level, times `FAST_EMA_WINDOW`.
    fast: u64,
    /// The sum over all clauses.
    total: u64,
    learned: u64,
    /// How many were learned since the last restart.
    since: u64,
}

impl Restarts {
    /// The averages before any clause was learned.
    pub(crate) fn new() -> Restarts {
        Restarts {
            fast: 0,
            total: 0,
            learned: 0,
            since: 0,
        }
    }

    /// Counts a learned clause of that glue. Answers whether a restart is due.
    pub(crate) fn count(&mut self, glue: u64) -> bool {
        let focused = self.learned % (FOCUSED_CLAUSES + STABLE_CLAUSES) < FOCUSED_CLAUSES;
        self.average(glue);
        self.since = self.since.saturating_add(1);
        let due = if focused {
            self.since >= FOCUSED_INTERVAL
        } else {
            self.since >= STABLE_INTERVAL && self.is_high()
        };
        if due {
            self.since = 0;
        }
        due
    }

    /// Whether a turn of focused mode begins with the next clause.
    pub(crate) fn begins_turn(&self) -> bool {
        self.learned % (FOCUSED_CLAUSES + STABLE_CLAUSES) == 0
    }

    /// Takes a clause of that glue into the averages.
    fn average(&mut self, glue: u64) {
        let parts = glue.saturating_mul(EMA_SCALE);
        self.fast = if self.learned == 0 {
            parts.saturating_mul(FAST_EMA_WINDOW)
        } else {
            (self.fast - self.fast / FAST_EMA_WINDOW).saturating_add(parts)
        };
        self.total = self.total.saturating_add(glue);
        self.learned = self.learned.saturating_add(1);
    }

    /// Whether the fast average is above that of all by a tenth.
    fn is_high(&self) -> bool {
        let fast = self.fast.saturating_mul(self.learned);
        let all = self.total.saturating_mul(FAST_EMA_WINDOW * EMA_SCALE);
        fast / 11 > all / 10
    }
}
