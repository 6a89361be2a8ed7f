// Descriptors of zero-column masks read and written, each field at its bits.
#![tactic(auto)]

ghost use Rattle.std.specs.Prelude.{◌≡◌, ◌+◌, ◌^◌, ◌<◌};
ghost use Rattle.descriptor.specs.Descriptor.{fields_of, no_fields, reserved, fields_answer, count_bits, span_bits, descriptor_of, shift_limit, descriptor_answer};

use answers::Refusal;
use descriptor::{DescriptorReading, Fields};

// Whether a reserved bit, 36-38 or 62-63, is set. Public for the crates above.
pub fn has_reserved(descriptor: u64) -> bool
    ensures { result ≡ reserved descriptor }
{
    ((descriptor >> 36) % 8 != 0) | ((descriptor >> 62) % 4 != 0)
}

// The fields of a descriptor, reserved bits or not. Public for the crates above.
pub fn fields_of(descriptor: u64) -> Fields
    ensures { result ≡ fields_of descriptor }
{
    let start_counts = [
        ((descriptor >> 0) % 256) as u8,
        ((descriptor >> 8) % 256) as u8,
        ((descriptor >> 16) % 256) as u8,
        ((descriptor >> 24) % 256) as u8,
    ];
    let first_spans = [
        (descriptor >> 32) % 2 == 1,
        (descriptor >> 33) % 2 == 1,
        (descriptor >> 34) % 2 == 1,
        (descriptor >> 35) % 2 == 1,
    ];
    Fields {
        start_counts,
        first_spans,
        non_zero: (descriptor >> 39) % 2 == 1,
        skip_span: ((descriptor >> 40) % 256) as u8,
        use_span: ((descriptor >> 48) % 256) as u8,
        shift: (descriptor >> 56) % 64,
    }
}

// A record of zeros.
fn no_fields() -> Fields
    ensures { result ≡ no_fields }
{
    Fields {
        start_counts: [0; 4],
        first_spans: [false; 4],
        non_zero: false,
        skip_span: 0,
        use_span: 0,
        shift: 0,
    }
}

// The fields of any descriptor.
pub fn read_descriptor(descriptor: u64) -> DescriptorReading
    ensures { result ≡ fields_answer descriptor }
{
    if has_reserved(descriptor) {
        let fields = no_fields();
        DescriptorReading {
            answer: Err(Refusal::Reserved),
            fields,
        }
    } else {
        let fields = fields_of(descriptor);
        DescriptorReading {
            answer: Ok(()),
            fields,
        }
    }
}

// The start counts at their bits.
fn count_bits(counts: [u8; 4]) -> u64
    ensures { (result ≡ count_bits counts) × (result < 2 ^ 32) }
{
    (counts[0] as u64)
        + ((counts[1] as u64) << 8)
        + ((counts[2] as u64) << 16)
        + ((counts[3] as u64) << 24)
}

// The first spans at their bits.
fn span_bits(spans: [bool; 4]) -> u64
    ensures { (result ≡ span_bits spans) × (result < 2 ^ 36) }
{
    (u64::from(spans[0]) << 32)
        + (u64::from(spans[1]) << 33)
        + (u64::from(spans[2]) << 34)
        + (u64::from(spans[3]) << 35)
}

// The descriptor of fields whose shift is allowed.
fn descriptor_of(fields: Fields) -> u64
    requires { fields.shift < 64 }
    ensures { result ≡ descriptor_of fields }
{
    let counts = fields.start_counts;
    let spans = fields.first_spans;
    count_bits(counts)
        + span_bits(spans)
        + (u64::from(fields.non_zero) << 39)
        + ((fields.skip_span as u64) << 40)
        + ((fields.use_span as u64) << 48)
        + (fields.shift << 56)
}

// The descriptor of any fields, for any M.
pub fn write_descriptor(m: u64, fields: Fields) -> Result<u64, Refusal>
    ensures { result ≡ descriptor_answer (shift_limit m) m fields }
{
    if !descriptor_limits::is_mask_m(m) {
        return Err(Refusal::MaskSize);
    }
    let limit = descriptor_limits::shift_limit(m);
    if limit < fields.shift {
        return Err(Refusal::Shift { limit });
    }
    Ok(descriptor_of(fields))
}
