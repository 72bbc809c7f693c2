// The cost of partitions with endpoint modes from two neighbouring classes, which a block with
// separate modes can combine.
use ideal_weights::{MOST, Number, number};

/// An endpoint mode, and approximately the error with it in 1/256.
#[derive(Clone, Copy)]
pub struct Cost {
    pub error: Number,
    pub cem: u8,
}

/// The costs of a partition with an endpoint mode of a class, and with one of the class above it.
#[derive(Clone, Copy)]
pub struct Choice {
    pub low: Cost,
    pub high: Cost,
}

impl Choice {
    /// Returns the choice of a missing partition, with costs of 0.
    pub fn none() -> Choice {
        let none = Cost {
            error: number(0),
            cem: 0,
        };
        Choice {
            low: none,
            high: none,
        }
    }

    /// Returns the smaller cost.
    #[inline(always)]
    pub fn least(&self) -> Number {
        self.high.error.min(self.low.error)
    }
}

/// The choice of each partition; costs of 0 after the last one.
pub type Choices = [Choice; 4];

// How much the higher class reduces the cost of a partition.
#[derive(Clone, Copy)]
struct Win {
    saved: Number,
    part: usize,
}

// The wins of the partitions, the greatest first.
fn wins_of(choices: &Choices, parts: usize) -> [Win; 4] {
    let mut wins = [Win {
        saved: -MOST,
        part: 0,
    }; 4];
    for part in 0..parts.min(4) {
        let mut carried = Win {
            saved: choices[part].low.error - choices[part].high.error,
            part,
        };
        for win in wins.iter_mut() {
            if carried.saved > win.saved {
                std::mem::swap(win, &mut carried);
            }
        }
    }
    wins
}

/// Returns the least cost of all partitions if 0, 1, 2, 3 or 4 of them have the higher class.
pub fn costs_by_count(choices: &Choices, parts: usize) -> [Number; 5] {
    let wins = wins_of(choices, parts);
    let mut total = number(0);
    for choice in choices {
        total += choice.low.error;
    }
    let mut costs = [total; 5];
    for part in 0..parts.min(4) {
        total -= wins[part].saved;
        costs[part + 1] = total;
    }
    costs
}

/// Returns the endpoint modes with the least cost if `high` partitions have the higher class.
pub fn cems_of(choices: &Choices, parts: usize, high: usize) -> [u8; 4] {
    let mut cems = [0; 4];
    for part in 0..parts.min(4) {
        cems[part] = choices[part].low.cem;
    }
    for win in wins_of(choices, parts).iter().take(high) {
        cems[win.part & 3] = choices[win.part & 3].high.cem;
    }
    cems
}
