//! Why a source is refused.

use accepted_sources::SourceRule;
use oc_source::Spot;

/// A rule that a source breaks, and where: L1 to L6, G1, G2, T1 to T12 or F1 to F5.
#[derive(Clone, Copy, Debug, PartialEq, Eq)]
pub struct Refusal {
    pub rule: SourceRule,
    pub spot: Spot,
}
