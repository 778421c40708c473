// The parameters of the bit allocation that a block sends (4.3.3): the masking curve, the SNR offsets, the coupling leak and the delta
// segments. Public because the audio block stands in a crate above.
#![tactic(auto)]

pub mod curve;
pub mod delta;
pub mod leak;
pub mod offsets;
