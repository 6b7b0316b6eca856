//! Certificates of no: why a crash image may not have come from a run, in lines of which each can be checked by itself,
//! without the judge and without the graph (docs/certificates.md).
#![tactic(auto)]

mod certificate;
mod checking;
mod endings;
mod facts;
mod gathering;
mod laws;
mod limits;
mod lines;
mod ordering;
mod reading;
mod refuting;
mod work;
mod writing;

pub use certificate::{Certificate, Ending, Forced, Reason};
pub use checking::{Checked, check};
pub use laws::{accepted_certificates_refute, printed_certificates_are_read_again};
pub use limits::{MOST_CERTIFICATE_BYTES, MOST_CERTIFICATE_LINES};
pub use reading::read_certificate;
pub use refuting::{Refutation, refute};
pub use writing::write_certificate;
