// The interface of an adviser.
ghost use Rattle.std.specs.Prelude.{◌≡◌, ℕ, true, List, Some, Option};
ghost use Rattle.adviser_pool.specs.declared.ask.Ask.{Ask};
ghost use Rattle.adviser_pool.specs.Advisers.{AdviserState, after_ask, after_settled, Follows, Echoes};

use crate::ask::Ask;

/// An object that proposes blocks. Any bytes may be proposed: a proposal is read before use, and
/// counts only if it shows the texels with a smaller error than the blocks found without it.
///
/// Contracts see five meanings of an adviser, its `state`: the number of times that it was `asked`,
/// which stays at 2^64 - 1; the bytes of the `last` report, and their error, the `sum`; whether it
/// `echoes`, that is, always proposes `last`; and the ask that it `heard` last, which may be
/// unknown. The `offer` may be known too: the proposal to an ask in the present state.
pub trait Adviser: Drop {
    /// The five meanings.
    ghost state: { Self → AdviserState };

    /// The proposal to an ask in the present state, if it is known.
    ghost offer: { Self → Ask → Option (List ℕ) };

    /// Proposes the 16 bytes of a block. The call raises `asked` by one and makes this ask the last
    /// one heard; nothing else of the state changes.
    fn propose(&mut self, ask: &Ask) -> [u8; 16]
        ensures state { state self.new ≡ after_ask ask.now (state self.old) }
        ensures offered { Follows (offer self.old ask.now) result }
        ensures echoed { Echoes (state self.old) result };

    /// Takes the report that a block of the file has these bytes, and their error. Both are the
    /// last report; nothing else of the state changes.
    fn settled(&mut self, bytes: &[u8; 16], error: u32)
        ensures state { state self.new ≡ after_settled bytes.now error (state self.old) };

    ghost echo: { (adviser : Self) (ask : Ask) → (state adviser).echoes ≡ true → offer adviser ask
        ≡ Some (state adviser).last };
}
