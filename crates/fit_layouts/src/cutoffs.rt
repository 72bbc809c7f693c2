// Selects the partitionings that are ranked by lines: those with the least misses, whose partitions
// are closest to one colour each.

/// For each partitioning, the distance of its partitions from one colour each, 0 to 255.
pub type Misses = [u8; 1024];

// The number of partitionings for each value of the miss.
type MissCounts = [u16; 256];

/// A cutoff that admits all partitionings with a miss below `most`, and the first `room` of those
/// whose miss is `most`.
#[derive(Clone, Copy)]
pub struct MissCutoff {
    most: u8,
    room: usize,
}

// Counts the misses of the first `first` partitionings.
fn count(counts: &mut MissCounts, misses: &Misses, first: usize) {
    for miss in misses.iter().take(first) {
        let place = usize::from(*miss);
        counts[place] = counts[place].wrapping_add(1);
    }
}

impl MissCutoff {
    /// Returns a cutoff that admits all partitionings whose miss is below 255.
    pub fn all() -> MissCutoff {
        MissCutoff { most: 255, room: 0 }
    }

    /// Returns the cutoff that admits `ranked` of the first `among` partitionings.
    pub fn of(misses: &Misses, among: usize, ranked: usize) -> MissCutoff {
        let mut counts = [0; 256];
        count(&mut counts, misses, among);
        let mut cutoff = MissCutoff {
            most: 0,
            room: ranked,
        };
        for own in counts.iter().take(255) {
            let own = usize::from(*own);
            if own > cutoff.room {
                return cutoff;
            }
            cutoff.room = cutoff.room.wrapping_sub(own);
            cutoff.most = cutoff.most.saturating_add(1);
        }
        cutoff
    }

    /// Returns whether the next partitioning is admitted. Calls must be in order.
    pub fn takes(&mut self, miss: u8) -> bool {
        if miss < self.most {
            return true;
        }
        let takes = miss == self.most && self.room > 0;
        if takes {
            self.room = self.room.wrapping_sub(1);
        }
        takes
    }
}
