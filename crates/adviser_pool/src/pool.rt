// Up to four advisers.
ghost use Rattle.std.specs.Prelude.{true, false, ◌≡◌, ◌++◌, ◌∷◌, [], ◌≤◌, ◌+◌, ◌<◌, ◌↔◌, ℕ, length, map, List, Option, Some, IsSome, IsErr, IfErr, OnErr, OnOk};
ghost use Rattle.std.specs.List.{filter, AllByRecursion, Contains};
ghost use Rattle.std.specs.Option.{option_to_list};
ghost use Rattle.arrayvec.specs.ArrayVec.{array_vec_len};
ghost use Rattle.astc_model.specs.Blocks.{Legal};
ghost use Rattle.astc_model.specs.declared.block.Block.{Block};
ghost use Rattle.astc_model.specs.FootprintNames.{sides_of};
ghost use Rattle.adviser_pool.specs.Advisers.{AdviserState, after_ask, after_settled, Follows, Echoes};
ghost use Rattle.adviser_pool.specs.Asking.{IsAsked, IsSubsequence, blocks_of, is_ready, kept, is_block};
ghost use Rattle.adviser_pool.specs.Pools.{advisers, states, offers};

use crate::adviser::Adviser;
use crate::ask::Ask;
use arrayvec::ArrayVec;
use astc_model::Block;
use block_reader::read_block;

/// Up to four advisers, in the order in which they were added, and whether the search is to fit
/// blocks as further proposals. A contract sees the list of the advisers in the pool.
#[derive(Drop)]
pub struct Pool {
    fits: bool,
    // A boxed adviser has no default value, so the places are not an array; any of them may be
    // empty.
    first: Option<Box<dyn Adviser>>,
    second: Option<Box<dyn Adviser>>,
    third: Option<Box<dyn Adviser>>,
    fourth: Option<Box<dyn Adviser>>,
}

// Asks an adviser.
fn ask_adviser(adviser: &mut Box<dyn Adviser>, ask: &Ask) -> [u8; 16]
    ensures state { state adviser.new ≡ after_ask ask.now (state adviser.old) }
    ensures offered { Follows (offer adviser.old ask.now) result }
    ensures echoed { Echoes (state adviser.old) result }
{
    adviser.propose(ask)
}

// Queries the adviser of one place, if there is one, and drops it if its proposal is not a block.
fn ask_place<const W: usize, const H: usize>(
    place: &mut Option<Box<dyn Adviser>>,
    ask: &Ask,
    blocks: &mut ArrayVec<Block, 4>,
)
    requires { array_vec_len blocks.old < 4 }
    ensures asked { (block : List Block) × (blocks.new.items ≡ blocks.old.items ++ block)
        × IsAsked W H ask.now (map (λ a. offer a ask.now) (option_to_list place.old))
        (map state (option_to_list place.old)) (map state (option_to_list place.new)) block }
    ensures room { array_vec_len blocks.new ≤ array_vec_len blocks.old + 1 }
{
    if let Some(mut adviser) = place.take() {
        let proposal = ask_adviser(&mut adviser, ask);
        if let Ok(block) = read_block::<W, H>(&proposal) {
            blocks.push(block);
            *place = Some(adviser);
        }
    }
}

// Tells the adviser of one place.
fn settle_place(place: &mut Option<Box<dyn Adviser>>, bytes: &[u8; 16], error: u32)
    ensures { map state (option_to_list place.new) ≡ map (after_settled bytes.now error)
        (map state (option_to_list place.old)) }
{
    if let Some(adviser) = place {
        adviser.settled(bytes, error);
    }
}

// Moves an adviser to an empty place from the next one.
fn close_up(place: &mut Option<Box<dyn Adviser>>, next: &mut Option<Box<dyn Adviser>>)
    ensures same { option_to_list place.new ++ option_to_list next.new
        ≡ option_to_list place.old ++ option_to_list next.old }
    ensures full { IsSome next.new → IsSome place.new × (place.new ≡ place.old)
        × (next.new ≡ next.old) }
{
    if place.is_none() {
        *place = next.take();
    }
}

impl Pool {
    /// A pool without advisers. Blocks are not fitted as proposals.
    pub fn new() -> Pool
        ensures none { advisers result ≡ [] }
        ensures plain { result.fits ≡ false }
    {
        Pool {
            fits: false,
            first: None,
            second: None,
            third: None,
            fourth: None,
        }
    }

    /// A pool without advisers. Blocks are fitted as proposals.
    pub fn with_fits() -> Pool
        ensures none { advisers result ≡ [] }
        ensures fits { result.fits ≡ true }
    {
        Pool {
            fits: true,
            ..Pool::new()
        }
    }

    /// Whether blocks are to be fitted as proposals too.
    pub fn fits(&self) -> bool
        ensures { result ≡ self.now.fits }
    {
        self.fits
    }

    /// The number of advisers, 0 to 4.
    pub fn count(&self) -> u8
        ensures { result ≡ length (advisers self.now) }
    {
        u8::from(self.first.is_some())
            + u8::from(self.second.is_some())
            + u8::from(self.third.is_some())
            + u8::from(self.fourth.is_some())
    }

    /// Puts an adviser last.
    ///
    /// # Errors
    ///
    /// The adviser itself, with the pool as before, exactly if there are four already.
    pub fn add(&mut self, adviser: Box<dyn Adviser>) -> Result<(), Box<dyn Adviser>>
        ensures full { IsErr result ↔ (length (advisers self.old) ≡ 4) }
        ensures last { OnOk result (advisers self.new ≡ advisers self.old ++ adviser ∷ []) }
        ensures same { OnErr result (advisers self.new ≡ advisers self.old) }
        ensures back { IfErr result (λ back. back ≡ adviser) }
        ensures fits { self.new.fits ≡ self.old.fits }
    {
        close_up(&mut self.first, &mut self.second);
        close_up(&mut self.second, &mut self.third);
        close_up(&mut self.third, &mut self.fourth);
        if self.fourth.is_some() {
            return Err(adviser);
        }
        self.fourth = Some(adviser);
        Ok(())
    }

    // Asks every adviser once, in order.
    fn ask_all<const W: usize, const H: usize>(&mut self, ask: &Ask) -> ArrayVec<Block, 4>
        ensures asked { IsAsked W H ask.now (offers ⟦<dyn Adviser as Adviser>⟧ ask.now self.old)
            (states ⟦<dyn Adviser as Adviser>⟧ self.old)
            (states ⟦<dyn Adviser as Adviser>⟧ self.new) result.items }
        ensures fits { self.new.fits ≡ self.old.fits }
    {
        let mut blocks = ArrayVec::new();
        ask_place::<W, H>(&mut self.first, ask, &mut blocks);
        ask_place::<W, H>(&mut self.second, ask, &mut blocks);
        ask_place::<W, H>(&mut self.third, ask, &mut blocks);
        ask_place::<W, H>(&mut self.fourth, ask, &mut blocks);
        blocks
    }

    /// Queries every adviser once, in order. An adviser is dropped at once exactly if its 16 bytes
    /// are not a block of the footprint; the others keep their order, and the result has the blocks
    /// that they proposed in it.
    pub fn ask<const W: usize, const H: usize>(&mut self, ask: &Ask) -> ArrayVec<Block, 4>
        requires { sides_of ask.now.name ≡ (W, H) }
        // If all offers are known, these are the blocks, and these advisers are left.
        ensures told { (bytes : List (List ℕ)) → offers ⟦<dyn Adviser as Adviser>⟧ ask.now self.old
            ≡ map (λ b. Some b) bytes
            → (result.items ≡ blocks_of W H bytes)
            × (states ⟦<dyn Adviser as Adviser>⟧ self.new
            ≡ map (after_ask ask.now)
            (kept (map (is_block W H) bytes)
            (states ⟦<dyn Adviser as Adviser>⟧ self.old))) }
        // In every case these hold.
        ensures one_each { length result.items ≡ length (advisers self.new) }
        ensures legal { AllByRecursion (Legal W H) result.items }
        ensures left { (stayed : List AdviserState)
            × IsSubsequence stayed (states ⟦<dyn Adviser as Adviser>⟧ self.old)
            × (states ⟦<dyn Adviser as Adviser>⟧ self.new ≡ map (after_ask ask.now) stayed) }
        ensures echoing { filter (λ a. a.echoes) (states ⟦<dyn Adviser as Adviser>⟧ self.new)
            ≡ map (after_ask ask.now)
            (filter (is_ready W H) (states ⟦<dyn Adviser as Adviser>⟧ self.old)) }
        ensures among { AllByRecursion (Contains result.items)
            (blocks_of W H (map (λ a. a.last)
            (filter (is_ready W H) (states ⟦<dyn Adviser as Adviser>⟧ self.old)))) }
        ensures fits { self.new.fits ≡ self.old.fits }
    {
        self.ask_all::<W, H>(ask)
    }

    /// Tells every adviser that a block of the file has these bytes, and their error. None leaves.
    pub fn settled(&mut self, bytes: &[u8; 16], error: u32)
        ensures told { states ⟦<dyn Adviser as Adviser>⟧ self.new
            ≡ map (after_settled bytes.now error) (states ⟦<dyn Adviser as Adviser>⟧ self.old) }
        ensures fits { self.new.fits ≡ self.old.fits }
    {
        settle_place(&mut self.first, bytes, error);
        settle_place(&mut self.second, bytes, error);
        settle_place(&mut self.third, bytes, error);
        settle_place(&mut self.fourth, bytes, error);
    }
}
