// The limits of a certificate's file (docs/certificates.md).
use strand_base::MOST_STEPS;

/// The most bytes of a certificate's file.
pub const MOST_CERTIFICATE_BYTES: u32 = 8_388_608;

/// The most lines with words that a certificate has: one for each event of the longest run, and the last.
pub const MOST_CERTIFICATE_LINES: u32 = MOST_STEPS + 1;
