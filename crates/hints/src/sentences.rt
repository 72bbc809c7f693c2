// The meanings of the faults of files, a sentence each.
use crate::words::CommandForm;
use astc_file::AstcFault;
use astc_run::JoinFault;
use ktx_file::KtxFault;
use ktx_source::SourceFault;
use pam_image::ImageFault;
use part_file::PartFault;
use std::fmt;

// Whether options say the number of images. Else it is the texture that the images are held
// against.
fn takes_images(form: CommandForm) -> bool {
    matches!(form, CommandForm::Pack | CommandForm::Part)
}

/// The meaning of a fault of a picture.
pub(crate) fn image_sentence(fault: &ImageFault, form: CommandForm) -> &'static str {
    match fault {
        ImageFault::NotPam(0) => "not a PAM picture",
        ImageFault::NotPam(_) => "each image must begin with P7, directly after the one before",
        ImageFault::HeaderTooLong(_) => {
            "a header may have at most 4096 bytes, up to the end of the line ENDHDR"
        }
        ImageFault::UnknownLine(_, _) => {
            "a header may only have the lines WIDTH, HEIGHT, DEPTH, MAXVAL, TUPLTYPE and ENDHDR, and comments after #"
        }
        ImageFault::RepeatedLine(_, _) => "WIDTH, HEIGHT, DEPTH and MAXVAL may appear only once",
        ImageFault::BadNumber(_, _) => {
            "WIDTH, HEIGHT, DEPTH and MAXVAL must be followed by one whole number"
        }
        ImageFault::MissingLine(_, _) => "a header needs WIDTH, HEIGHT, DEPTH and MAXVAL",
        ImageFault::MaxvalNot255(_, _) => "the channels must have 8 bits",
        ImageFault::BadDepth(_, _) => {
            "DEPTH must be 1 (grey), 2 (grey and alpha), 3 (RGB) or 4 (RGB and alpha)"
        }
        ImageFault::BadSides(_, _, _) => { "width and height must be 1 to 8192" }
        ImageFault::WrongSides(_, _) => {
            "the images must have the width and height of the texture"
        }
        ImageFault::NotSquare(_, _) => "each cube element needs six square images",
        ImageFault::TooManyTexels(_) => "all images together may have at most 33554432 texels",
        ImageFault::SizesDiffer(_) => "all images of a file must have the same width and height",
        ImageFault::Truncated(_, _) => {
            "the file is truncated: it has fewer bytes than its header says"
        }
        ImageFault::FewImages(_) if takes_images(form) => {
            "elements=K needs K images, cube six, both 6 times K"
        }
        ImageFault::FewImages(_) => "IMAGES must have one image for each image of level 0",
        ImageFault::TrailingBytes if takes_images(form) => {
            "several images need elements=K or cube"
        }
        ImageFault::TrailingBytes => "IMAGES must have one image for each image of level 0",
    }
}

/// The meaning of a fault of a KTX file.
pub(crate) fn ktx_sentence(fault: &KtxFault) -> &'static str {
    match fault {
        KtxFault::ShortHeader(_) => { "too short for a KTX file, which has a header of 64 bytes" }
        KtxFault::BadIdentifier(_) => "not a KTX 1 file",
        KtxFault::BadEndian(_) => {
            "bytes 12 to 15 of a KTX file must be 01 02 03 04, or the reverse"
        }
        KtxFault::NotCompressed(_, _) => "the file has no ASTC blocks",
        KtxFault::UnknownFormat(_) => "the file has no ASTC blocks",
        KtxFault::BadSides(_, _) => "width and height must be 1 to 8192",
        KtxFault::HasDepth(_) => "3D textures are not supported",
        KtxFault::TooManyElements(_) => "an array may have at most 2048 elements",
        KtxFault::BadFaces(_) => "a texture must have one face, or six for a cube",
        KtxFault::FacesNotSquare(_, _) => "the faces of a cube must be square",
        KtxFault::TooManyLevels(_) => {
            "each level is half the size of the one before, down to one texel"
        }
        KtxFault::KeysTooLong(_) => {
            "the key-value data after the header may have at most 1048576 bytes"
        }
        KtxFault::TooLarge(_) => "the images of level 0 together may have at most 33554432 texels",
        KtxFault::BadImageSize { .. } => { "the size stored before a level is wrong" }
        KtxFault::ShortData(_) => "the file is truncated: it has fewer bytes than its header says",
        KtxFault::TrailingBytes => "the file has more bytes than its header says",
    }
}

// The fault of a KTX file that one of an uncompressed one is too: all but the format.
fn ktx_fault(fault: &SourceFault) -> Option<KtxFault> {
    match *fault {
        SourceFault::ShortHeader(n) => Some(KtxFault::ShortHeader(n)),
        SourceFault::BadIdentifier(place) => Some(KtxFault::BadIdentifier(place)),
        SourceFault::BadEndian(n) => Some(KtxFault::BadEndian(n)),
        SourceFault::WrongFormat { .. } => None,
        SourceFault::BadSides(width, height) => Some(KtxFault::BadSides(width, height)),
        SourceFault::HasDepth(n) => Some(KtxFault::HasDepth(n)),
        SourceFault::TooManyElements(n) => Some(KtxFault::TooManyElements(n)),
        SourceFault::BadFaces(n) => Some(KtxFault::BadFaces(n)),
        SourceFault::FacesNotSquare(width, height) => Some(KtxFault::FacesNotSquare(width, height)),
        SourceFault::TooManyLevels(n) => Some(KtxFault::TooManyLevels(n)),
        SourceFault::KeysTooLong(n) => Some(KtxFault::KeysTooLong(n)),
        SourceFault::TooLarge(n) => Some(KtxFault::TooLarge(n)),
        SourceFault::BadImageSize {
            level,
            found,
            wanted,
        } => Some(KtxFault::BadImageSize {
            level,
            found,
            wanted,
        }),
        SourceFault::ShortData(n) => Some(KtxFault::ShortData(n)),
        SourceFault::TrailingBytes => Some(KtxFault::TrailingBytes),
    }
}

/// The meaning of a fault of an uncompressed KTX file.
#[derive(Drop)]
pub(crate) struct SourceSentence<'a>(pub(crate) &'a SourceFault);

impl fmt::Display for SourceSentence<'_> {
    fn fmt<W: fmt::Write>(&self, f: &mut fmt::Formatter<W>) -> fmt::Result {
        match ktx_fault(self.0) {
            Some(fault) => {
                let sentence = ktx_sentence(&fault);
                write!(f, "{fault}; {sentence}")
            }
            None => f.write_str("the file has no RGB or RGBA texels with one byte per channel"),
        }
    }
}

/// The meaning of a fault of an `.astc` file.
#[derive(Drop)]
pub(crate) struct AstcSentence<'a>(pub(crate) &'a AstcFault);

impl fmt::Display for AstcSentence<'_> {
    fn fmt<W: fmt::Write>(&self, f: &mut fmt::Formatter<W>) -> fmt::Result {
        match *self.0 {
            AstcFault::ShortHeader(_) => {
                f.write_str("too short for an .astc file, which has a header of 16 bytes")
            }
            AstcFault::BadMagic(_) => f.write_str("not an .astc file"),
            AstcFault::BadFootprint(width, height, depth) => {
                write!(
                    f,
                    "blocks of {width} x {height} x {depth} texels are not a 2D footprint"
                )
            }
            AstcFault::BadSides(width, height, depth) => {
                write!(
                    f,
                    "{width} x {height} x {depth} texels: width and height must be 1 to 8192, the depth 1"
                )
            }
            AstcFault::TooManyTexels(n) => write!(f, "{n} texels are more than 33554432"),
            AstcFault::ShortData(n) => write!(
                f,
                "the file is truncated: it ends after {n} bytes, its header says more"
            ),
            AstcFault::TrailingBytes => f.write_str("the file has more bytes than its header says"),
        }
    }
}

fn part_sentence(fault: &PartFault) -> &'static str {
    match fault {
        PartFault::WholeTexture => "a complete texture, which needs no join",
        PartFault::Picture => "a picture; make parts of it with astc_tool part",
        PartFault::NoPart(_) => "not a part file",
        PartFault::Header(_) => "the header in a part file must be that of the complete texture",
        PartFault::OtherHeader(_) => {
            "the header in a part file must be that of the complete texture, as pack writes it"
        }
        PartFault::BadPlace(_, _) => "the place of a part must be less than the number of parts",
        PartFault::ShortData(_) => "the file is truncated: it has fewer bytes than its header says",
        PartFault::TrailingBytes => "the file has more bytes than its header says",
    }
}

/// The meaning of files that are not parts of one texture.
pub(crate) fn join_sentence(fault: &JoinFault) -> &'static str {
    match fault {
        JoinFault::NoPart(_, fault) => part_sentence(fault),
        JoinFault::OtherTexture(_) => {
            "all parts must come from one job: one picture, COUNT, footprint, preset, and the same options"
        }
        JoinFault::SamePlace(_, _) => "this part was given before",
        JoinFault::MissingPlace(_) => { "give all parts of the job, PLACE 0 to COUNT - 1" }
    }
}
