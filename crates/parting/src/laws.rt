// Laws of parts and of joined textures.
ghost use Rattle.std.specs.Prelude.{◌≡◌, ℕ, true, false, List, []};
ghost use Rattle.astc_words.specs.declared.job.PackJob.{PackJob};
ghost use Rattle.images.specs.Pictures.{Pictures, IsValid as AreImages};
ghost use Rattle.pam_image.specs.Reading.{IsWanted};
ghost use Rattle.part_file.specs.Files.{PartFile, IsPart};
ghost use Rattle.packing.specs.Packed.{Packs, want_of};
ghost use Rattle.parting.specs.Joins.{Joins, gathered_none, is_of};
ghost use Rattle.parting.specs.Together.{IsMadeOf, AreMadeOf};

/// If each part is the result of `part` for the same images and the same pack, then `join` makes of
/// the parts the file that the pack makes of the images without advisers.
pub fn parts_pack()
    ensures { (job : PackJob) (images : Pictures) (parts : List PartFile)
        (file : List ℕ) (lines : List (List ℕ))
        → AreImages images → IsWanted (want_of job) images → AreMadeOf job images parts
        → Joins parts file lines
        → Packs (record job { advised = false }) false [] [] images file lines }
{}

/// Two parts that `part` made of the same images by the same pack, in the same number of parts, are
/// of one job: `join` refuses neither as a part of another texture.
pub fn parts_agree()
    ensures { (job : PackJob) (images : Pictures) (one another : PartFile)
        → AreImages images → IsWanted (want_of job) images → IsPart one → IsPart another
        → another.front.count ≡ one.front.count
        → IsMadeOf job images one.front.count one.front.place one
        → IsMadeOf job images another.front.count another.front.place another
        → is_of (gathered_none one.front) another.front ≡ true }
{}
