// Descriptors of zero-column masks, their fields and their limits: descriptor to fields, and fields to descriptor. There are no functions.
#![tactic(auto)]

use answers::Refusal;

// The fields of a descriptor; one start count and one first span for each of four sub-masks.
#[derive(Clone, Copy)]
pub struct Fields {
    pub start_counts: [u8; 4],
    pub first_spans: [bool; 4],
    // a bit of its own: the other fields stand whether it is set or not
    pub non_zero: bool,
    pub skip_span: u8,
    pub use_span: u8,
    pub shift: u64,
}

// What reading a descriptor gives: the answer, and the fields beside it.
#[derive(Clone, Copy)]
pub struct DescriptorReading {
    pub answer: Result<(), Refusal>,
    pub fields: Fields,
}
