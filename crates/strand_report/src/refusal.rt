ghost use Rattle.std.specs.Prelude.{◌≡◌};
ghost use Rattle.strand_report.specs.Refusals.{content_is_limit, is_limit};

use strand_asm::AsmFault;
use strand_image::ImageFault;
use strand_inputs::{InputFault, StopPast};

/// Why the content of a file was refused.
#[derive(Clone, Copy, Debug, PartialEq, Eq)]
pub enum ContentFault {
    /// It has more bytes than these.
    TooLong { limit: u32 },
    /// It is no assembler text.
    Text(AsmFault),
    /// It is no image.
    Image(ImageFault),
    /// It is no machine file, schedule or crash image.
    Input(InputFault),
}

/// Why what a command was given was refused.
#[derive(Clone, Copy, Debug, PartialEq, Eq)]
pub enum Refusal {
    /// The content of a file, which is counted from 1 in the order in which the command names its files.
    File { file: u32, fault: ContentFault },
    /// The run was to stop after more steps than the schedule has.
    Stop(StopPast),
    /// The bank has `have` words, and the image `need` persistent ones.
    Bank { need: u64, have: u64 },
    /// A schedule of so many steps was to be generated, which is none or too many.
    Size { size: u64 },
}

impl ContentFault {
    fn is_limit(&self) -> bool
        ensures { result ≡ content_is_limit self.now }
    {
        match *self {
            ContentFault::TooLong { .. } => true,
            ContentFault::Text(AsmFault::Limit { .. }) => true,
            ContentFault::Image(ImageFault::Limit { .. }) => true,
            ContentFault::Input(InputFault::Limit { .. }) => true,
            _ => false,
        }
    }
}

impl Refusal {
    /// Whether something is outside its limits: the bytes of a file, a number in it, the words of the bank, or a size.
    /// Else a file is not of its form, or the stop is past the steps.
    pub fn is_limit(&self) -> bool
        ensures { result ≡ is_limit self.now }
    {
        match *self {
            Refusal::File { fault, .. } => fault.is_limit(),
            Refusal::Stop(_) => false,
            Refusal::Bank { .. } => true,
            Refusal::Size { .. } => true,
        }
    }
}
