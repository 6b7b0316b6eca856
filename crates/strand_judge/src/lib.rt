//! The judge: whether a crash image may have come from a run, by the persist order of its trace.
#![tactic(auto)]

mod images;
mod judging;
mod laws;
mod listing;
mod marking;
mod offers;
mod seeding;
mod serving;
mod verdict;

pub use images::persistent_place;
pub use judging::judge;
pub use laws::{least_sets_are_judged, verdicts_are_within_judged_sets};
pub use listing::ends_of;
pub use marking::persists_of;
pub use offers::{Offered, asked, gather};
pub use verdict::Verdict;
