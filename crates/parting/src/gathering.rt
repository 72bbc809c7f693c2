// The parts that files are, gathered at their places.
ghost use Rattle.std.specs.Prelude.{◌≡◌, ◌≤◌, ◌<◌, ◌+◌, None, IfOk, OnOk, length, replicate, slice_index_or};
ghost use Rattle.std.specs.List.{AllByRecursion};
ghost use Rattle.tex_shelf.specs.Frames.{OnlyReads};
ghost use Rattle.outcomes.specs.Causes.{Loads};
ghost use Rattle.astc_words.specs.Commands.{texts};
ghost use Rattle.part_file.specs.Files.{IsPart, part_of};
ghost use Rattle.parting.specs.Joins.{is_same_shape, is_same_mark, is_of, with_part, placed};
ghost use Rattle.parting.specs.Gathering.{seen, part_at, AreSlots, Changes, AreGathered, GathersTo, Steps, CompletesAs, Completes};

use crate::JoinFault;
use part_file::{Front, JobMark, Part, PartStop, read_part};
use std::alloc::{AllocError, Global};
use tex_shelf::{Shelf, Stop};
use texture::{Layout, Shape};

/// Parts of one job, each at its place: None for an empty slot.
#[derive(Drop)]
pub struct GatheredParts {
    pub layout: Layout,
    pub mark: JobMark,
    pub slots: Vec<Option<Part>>,
}

/// Why no parts were gathered.
pub type JoinStop = Stop<JoinFault>;

// Opens the file of this name and reads it as a part.
fn open_part<S: Shelf>(alloc: Global, shelf: &mut S, name: &str) -> Result<Part, PartStop>
    requires can_open { S.can_open shelf.old name.now }
    ensures loads { Loads part_of (S.files shelf.old) name.now (S.read_faults shelf.old)
        (S.read_faults shelf.new) result }
    ensures valid { IfOk result IsPart }
    ensures rest { OnlyReads S.Shelf shelf.old shelf.new }
{
    shelf.open(name)?;
    read_part(alloc, shelf)
}

// The part in the file of a word.
fn load_part<S: Shelf>(
    alloc: Global,
    shelf: &mut S,
    name: &str,
    word: u64,
) -> Result<Part, JoinStop>
    requires can_open { S.can_open shelf.old name.now }
    ensures loads { Loads (part_at word) (S.files shelf.old) name.now (S.read_faults shelf.old)
        (S.read_faults shelf.new) result }
    ensures valid { IfOk result IsPart }
    ensures rest { OnlyReads S.Shelf shelf.old shelf.new }
{
    match open_part(alloc, shelf, name) {
        Ok(part) => Ok(part),
        Err(Stop::Fault(fault)) => Err(Stop::Fault(JoinFault::NoPart(word, fault))),
        Err(Stop::ReadFault) => Err(Stop::ReadFault),
        Err(Stop::NoMemory) => Err(Stop::NoMemory),
    }
}

// This many empty slots.
fn empty_slots(alloc: Global, count: u32) -> Result<Vec<Option<Part>>, AllocError>
    ensures { IfOk result (λ slots. slots.items ≡ replicate count None) }
{
    let mut slots = Vec::new(alloc);
    for _ in 0..count {
        slots.push(None)?;
    }
    Ok(slots)
}

// Whether two shapes are equal.
fn is_same_shape(a: &Shape, b: &Shape) -> bool
    ensures { result ≡ is_same_shape a.now b.now }
{
    a.name.gl(a.flavour) == b.name.gl(b.flavour)
        && (a.width == b.width
            && (a.height == b.height
                && (a.elements == b.elements && (a.faces == b.faces && a.levels == b.levels))))
}

// Whether two marks are equal.
fn is_same_mark(a: &JobMark, b: &JobMark) -> bool
    ensures { result ≡ is_same_mark a.now b.now }
{
    a.preset == b.preset && (a.weights == b.weights && a.digest == b.digest)
}

// Whether a part with this prefix belongs to the job whose parts are gathered.
fn is_of(parts: &GatheredParts, front: &Front) -> bool
    ensures { result ≡ is_of (seen parts.now) front.now }
{
    is_same_shape(&parts.layout.shape(), &front.layout.shape())
        && (is_same_mark(&parts.mark, &front.mark) && parts.slots.len() == front.count as usize)
}

// Puts a part into its slot, which has to be empty.
fn place_part(parts: &mut GatheredParts, word: u64, part: Part) -> Result<(), JoinFault>
    requires inside { part.front.place < length parts.old.slots.items }
    ensures { Changes (placed word (seen parts.old) part
        (slice_index_or parts.old.slots.items part.front.place None))
        (seen parts.new) result }
{
    let place = part.front().place;
    if parts.slots[place as usize].is_some() {
        return Err(JoinFault::SamePlace(word, u64::from(place)));
    }
    parts.slots[place as usize] = Some(part);
    Ok(())
}

// Adds a part, the file of a word.
fn add_part(parts: &mut GatheredParts, word: u64, part: Part) -> Result<(), JoinFault>
    requires slots { AreSlots (seen parts.old) }
    requires part { IsPart part }
    ensures changes { Changes (with_part word (seen parts.old) part) (seen parts.new) result }
    ensures slots { OnOk result (AreSlots (seen parts.new)) }
{
    if is_of(parts, &part.front()) {
        place_part(parts, word, part)
    } else {
        Err(JoinFault::OtherTexture(word))
    }
}

// The parts gathered after the first file.
fn first_part<S: Shelf>(
    alloc: Global,
    shelf: &mut S,
    inputs: &[String],
) -> Result<GatheredParts, JoinStop>
    requires some { 1 ≤ length inputs.now }
    requires can_open { AllByRecursion (S.can_open shelf.old) (texts inputs.now) }
    ensures gathers { GathersTo (texts inputs.now) (S.files shelf.old) 1 (S.read_faults shelf.old)
        (S.read_faults shelf.new) result }
    ensures slots { IfOk result (λ parts. AreSlots (seen parts)) }
    ensures rest { OnlyReads S.Shelf shelf.old shelf.new }
{
    let part = load_part(alloc, shelf, inputs[0].as_str(), 2)?;
    let front = part.front();
    let mut parts = GatheredParts {
        layout: front.layout,
        mark: front.mark,
        slots: empty_slots(alloc, front.count)?,
    };
    match add_part(&mut parts, 2, part) {
        Ok(()) => Ok(parts),
        Err(fault) => Err(Stop::Fault(fault)),
    }
}

// Adds the part in the file whose name is at this place.
fn next_part<S: Shelf>(
    alloc: Global,
    shelf: &mut S,
    inputs: &[String],
    k: usize,
    parts: &mut GatheredParts,
) -> Result<(), JoinStop>
    requires inside { k < length inputs.now }
    requires can_open { AllByRecursion (S.can_open shelf.old) (texts inputs.now) }
    requires so_far { AreGathered (texts inputs.now) (S.files shelf.old) k (seen parts.old) }
    requires slots { AreSlots (seen parts.old) }
    ensures gathers { Steps (texts inputs.now) (S.files shelf.old) (k + 1) (S.read_faults shelf.old)
        (S.read_faults shelf.new) (seen parts.new) result }
    ensures slots { OnOk result (AreSlots (seen parts.new)) }
    ensures rest { OnlyReads S.Shelf shelf.old shelf.new }
{
    let part = load_part(alloc, shelf, inputs[k].as_str(), k as u64 + 2)?;
    match add_part(parts, k as u64 + 2, part) {
        Ok(()) => Ok(()),
        Err(fault) => Err(Stop::Fault(fault)),
    }
}

// Adds the parts in the files after the first.
fn other_parts<S: Shelf>(
    alloc: Global,
    shelf: &mut S,
    inputs: &[String],
    parts: &mut GatheredParts,
) -> Result<(), JoinStop>
    requires some { 1 ≤ length inputs.now }
    requires can_open { AllByRecursion (S.can_open shelf.old) (texts inputs.now) }
    requires so_far { AreGathered (texts inputs.now) (S.files shelf.old) 1 (seen parts.old) }
    requires slots { AreSlots (seen parts.old) }
    ensures gathers { Steps (texts inputs.now) (S.files shelf.old) (length inputs.now)
        (S.read_faults shelf.old) (S.read_faults shelf.new) (seen parts.new) result }
    ensures slots { OnOk result (AreSlots (seen parts.new)) }
    ensures rest { OnlyReads S.Shelf shelf.old shelf.new }
{
    for k in 1..inputs.len() {
        next_part(alloc, shelf, inputs, k, parts)?;
    }
    Ok(())
}

// Checks that each slot has its part.
fn all_there(slots: &[Option<Part>]) -> Result<(), JoinFault>
    ensures { CompletesAs slots.now result }
{
    for place in 0..slots.len() {
        if slots[place].is_none() {
            return Err(JoinFault::MissingPlace(place as u64));
        }
    }
    Ok(())
}

/// Reads the files with these names as the parts of one job, at most once each. The first of them
/// is word 2.
///
/// # Errors
///
/// `Fault` with the first fault of the files, `ReadFault` if opening or reading failed, `NoMemory`.
/// No file changes.
pub fn gather<S: Shelf>(
    alloc: Global,
    shelf: &mut S,
    inputs: &[String],
) -> Result<GatheredParts, JoinStop>
    requires some { 1 ≤ length inputs.now }
    requires can_open { AllByRecursion (S.can_open shelf.old) (texts inputs.now) }
    ensures completes { Completes (texts inputs.now) (S.files shelf.old) (S.read_faults shelf.old)
        (S.read_faults shelf.new) result }
    ensures rest { OnlyReads S.Shelf shelf.old shelf.new }
{
    let mut parts = first_part(alloc, shelf, inputs)?;
    other_parts(alloc, shelf, inputs, &mut parts)?;
    match all_there(parts.slots.as_slice()) {
        Ok(()) => Ok(parts),
        Err(fault) => Err(Stop::Fault(fault)),
    }
}
