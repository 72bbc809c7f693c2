// The adviser that repeats.
ghost use Rattle.std.specs.Prelude.{◌≡◌, ◌∷◌, [], true, Some, None, refl};
ghost use Rattle.astc_model.specs.Reading.{constant_block_bytes};

use crate::adviser::Adviser;
use crate::ask::Ask;
use astc_model::constant_bytes;

/// The adviser that proposes the bytes of its last report for every query.
#[derive(Drop)]
pub struct LastAdviser {
    asked: u64,
    last: [u8; 16],
    sum: u32,
    heard: Option<Ask>,
}

impl LastAdviser {
    /// An adviser without a query, which proposes the constant block of opaque black until its
    /// first report.
    pub fn new() -> LastAdviser
        ensures { ⟦<LastAdviser as Adviser>⟧.state result
            ≡ record {
              asked = 0;
              last = constant_block_bytes (0 ∷ 0 ∷ 0 ∷ 65535 ∷ []);
              sum = 0;
              echoes = true;
              heard = Some None;
            } }
    {
        LastAdviser {
            asked: 0,
            last: constant_bytes([0, 0, 0, 65535]),
            sum: 0,
            heard: None,
        }
    }
}

impl Adviser for LastAdviser {
    ghost state = { λ a. record {
      asked = a.asked;
      last = a.last;
      sum = a.sum;
      echoes = true;
      heard = Some a.heard;
    } };

    ghost offer = { λ a ask. Some a.last };

    ghost echo = { λ a ask echoes. refl };

    fn propose(&mut self, ask: &Ask) -> [u8; 16] {
        self.asked = self.asked.saturating_add(1);
        self.heard = Some(*ask);
        self.last
    }

    fn settled(&mut self, bytes: &[u8; 16], error: u32) {
        self.last = *bytes;
        self.sum = error;
    }
}
