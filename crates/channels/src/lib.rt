// How the channels of a block are coupled, and where each of them ends: the sections of an audio block before its exponents. What is public here is so
// because the audio block stands in a crate above.
#![tactic(auto)]

pub mod coordinates;
pub mod coupling;
pub mod ends;
pub mod rematrixing;
pub mod strategies;

// The bandwidths in force: a channel's code counts once it was sent.
#[derive(Clone, Copy)]
pub struct Bandwidths {
    pub sent: [bool; 5],
    pub chbwcod: [u8; 5],
}
