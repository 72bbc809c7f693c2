// The faults of an input of PAM images.
ghost use Rattle.std.specs.Prelude.{◌≡◌};
ghost use Rattle.tex_shelf.specs.declared.stop.Stop.TheVariants.{Fault as IsFault};
ghost use Rattle.pam_header.specs.Lines.{word_of_name};

use tex_shelf::Stop;
use thiserror::Error;

/// A line of the header that has a number.
#[derive(Clone, Copy, Debug, PartialEq, Eq)]
pub enum HeaderName {
    Width,
    Height,
    Depth,
    Maxval,
}

impl HeaderName {
    /// The word that the line begins with.
    pub fn word(self) -> &'static str
        ensures { result.now ≡ word_of_name self }
    {
        match self {
            HeaderName::Width => "WIDTH",
            HeaderName::Height => "HEIGHT",
            HeaderName::Depth => "DEPTH",
            HeaderName::Maxval => "MAXVAL",
        }
    }
}

/// The fault of an input. Images are numbered from 0, and the lines of an image from 1.
#[derive(Clone, Copy, Debug, PartialEq, Eq, Error)]
pub enum ImageFault {
    /// The image does not begin with the line `P7`.
    #[error("image {0}: not a PAM header")]
    NotPam(u64),
    /// The first 4,096 bytes of the image hold no whole line `ENDHDR`.
    #[error("image {0}: header longer than 4096 bytes")]
    HeaderTooLong(u64),
    /// A line of the image's header is none of a PAM header.
    #[error("image {0} line {1}: unknown line")]
    UnknownLine(u64, u64),
    /// A line of the image's header gives a number that an earlier line has given.
    #[error("image {0} line {1}: repeated line")]
    RepeatedLine(u64, u64),
    /// A line of the image's header has no decimal number of at most ten digits and 32 bits.
    #[error("image {0} line {1}: not a number")]
    BadNumber(u64, u64),
    /// The image's header has no line of this name, the first that is missing.
    #[error("image {0}: {name} is missing", name = .1.word())]
    MissingLine(u64, HeaderName),
    /// The image's greatest value is this.
    #[error("image {0}: MAXVAL {1} is not 255")]
    MaxvalNot255(u64, u64),
    /// The image has this number of bytes per texel.
    #[error("image {0}: DEPTH {1} is not 1 to 4")]
    BadDepth(u64, u64),
    /// The image has this width and height.
    #[error("image {0}: sides {1} x {2} are not 1 to 8192")]
    BadSides(u64, u64, u64),
    /// Image 0 has this width and height, and the request has others.
    #[error("image 0: sides {0} x {1} are not those of the KTX file")]
    WrongSides(u64, u64),
    /// Image 0 has this width and height, and the request is for faces of a cube.
    #[error("image 0: sides {0} x {1} are not square")]
    NotSquare(u64, u64),
    /// Images of image 0's sides have this number of texels together.
    #[error("{0} texels are more than 33554432")]
    TooManyTexels(u64),
    /// The image has other sides than image 0.
    #[error("image {0}: sides differ from image 0")]
    SizesDiffer(u64),
    /// The input ends inside the image, after this number of its bytes.
    #[error("image {0}: ends after {1} bytes")]
    Truncated(u64, u64),
    /// The input ends after this number of whole images, at least one, and the request has more.
    #[error("only {0} images")]
    FewImages(u64),
    /// A byte follows the last requested image.
    #[error("bytes after the last image")]
    TrailingBytes,
}

/// Why no images were read.
pub type ImageStop = Stop<ImageFault>;

impl From<ImageFault> for ImageStop {
    ghost from_gives = { λ fault now. now ≡ IsFault fault };

    fn from(fault: ImageFault) -> Self {
        Stop::Fault(fault)
    }
}
