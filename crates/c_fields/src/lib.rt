// The fields of a descriptor as bytes, for C.
#![tactic(auto)]

ghost use Rattle.std.specs.Prelude.{◌≡◌, ◌<◌};
ghost use Rattle.c_fields.specs.Fields.{fields_from, bytes_of};

use descriptor::Fields;

// The fields of a descriptor: start counts, first spans, non-zero mask, skip span and use span as bytes, of
// the one-bit ones anything but 0 a yes, and the shift.
pub fn fields(bytes: &[u8; 11], shift: u64) -> Fields
    ensures { result ≡ fields_from bytes.now shift }
{
    let start_counts = [bytes[0], bytes[1], bytes[2], bytes[3]];
    let first_spans = [bytes[4] != 0, bytes[5] != 0, bytes[6] != 0, bytes[7] != 0];
    Fields {
        start_counts,
        first_spans,
        non_zero: bytes[8] != 0,
        skip_span: bytes[9],
        use_span: bytes[10],
        shift,
    }
}

// The fields of a descriptor as twelve bytes, the shift last. With a requires, for the crate above, which
// writes fields that were read.
pub fn field_bytes(fields: Fields) -> [u8; 12]
    requires { fields.shift < 256 }
    ensures { result ≡ bytes_of fields }
{
    [
        fields.start_counts[0],
        fields.start_counts[1],
        fields.start_counts[2],
        fields.start_counts[3],
        u8::from(fields.first_spans[0]),
        u8::from(fields.first_spans[1]),
        u8::from(fields.first_spans[2]),
        u8::from(fields.first_spans[3]),
        u8::from(fields.non_zero),
        fields.skip_span,
        fields.use_span,
        fields.shift as u8,
    ]
}
