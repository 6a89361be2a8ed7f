// Zero-column masks: the mask that M, N and a descriptor give.
#![tactic(auto)]

ghost use Rattle.std.specs.Prelude.{◌≡◌, ◌*◌, ◌/◌, ◌%◌, ◌≤◌, length, get_or};
ghost use Rattle.descriptor.specs.Descriptor.{yes, shift_limit};
ghost use Rattle.mask_pattern.specs.Pattern.{column, mask_bytes};
ghost use Rattle.mask.specs.Mask.{mask_size, sub_bits, mask_of, mask_answer, mask_memory};

use answers::{Details, Numbers, Refusal};
use descriptor::Fields;

// The answer to the generation of a mask: how many columns are zeroed, and the first that is used.
#[derive(Clone, Copy)]
pub struct Mask {
    pub zeroed: u64,
    pub first_used: u64,
}

impl Details for Mask {
    ghost use Rattle.std.specs.Prelude.{refl};
    ghost use Rattle.mask.specs.Mask.{counts_numbers};

    ghost as_numbers = { counts_numbers };

    ghost reads_back = { (λ n. record { zeroed = n.a; first_used = n.b }, λ x. (refl, refl)) };

    fn details(self) -> Numbers {
        answers::answer(0, self.zeroed, self.first_used, 0)
    }
}

// Whether there are masks of this size: M is 128, 64 or 32, and N a multiple of 8 in 8 to 256.
fn is_mask_size(m: u64, n: u64) -> bool
    ensures { result ≡ mask_size m n }
{
    descriptor_limits::is_mask_m(m) & (n % 8 == 0) & (8 <= n) & (n <= 256)
}

// The bytes of words, as many as are lent.
fn write_bytes(words: [u64; 4], mask: &mut [u8])
    requires { length mask.old ≤ 32 }
    ensures { mask.new ≡ mask_bytes (λ p. yes (p % 64) (get_or words (p / 64) 0)) (length mask.old) }
{
    for (j, byte) in mask.iter_mut().enumerate() {
        *byte = ((words[j / 8] >> (8 * (j % 8))) % 256) as u8;
    }
}

// The bits of one sub-mask.
fn sub_bits(m: u64, n: u64) -> u64
    ensures { result ≡ sub_bits m n }
{
    if m == 128 {
        n
    } else if m == 64 {
        n / 2
    } else {
        n / 4
    }
}

// A mask written into memory of just its bytes, and what it says of its columns.
fn fill_mask(size: u64, fields: Fields, mask: &mut [u8]) -> Result<Mask, Refusal>
    requires { (8 * length mask.old ≤ 4 * size) × (size ≤ 256) × (length mask.old ≤ 32) }
    ensures { (result ≡ mask_of (column size fields) (8 * length mask.old)) × (mask.new ≡ mask_bytes (column size fields) (length mask.old)) }
{
    let words = mask_pattern::words_of(size, fields, 8 * (mask.len() as u64));
    let at = words.at;
    write_bytes(at, &mut *mask);
    Ok(Mask {
        zeroed: words.zeroed,
        first_used: words.first_used,
    })
}

// The mask for any M, N and descriptor, into the first N/8 of the lent bytes.
pub fn generate_mask(m: u64, n: u64, descriptor: u64, mask: &mut [u8]) -> Result<Mask, Refusal>
    ensures { (result ≡ mask_answer (shift_limit m) m n descriptor (length mask.old)) × (mask.new ≡ mask_memory result m n descriptor mask.old) }
{
    if !is_mask_size(m, n) {
        return Err(Refusal::MaskSize);
    }
    if descriptor_bits::has_reserved(descriptor) {
        return Err(Refusal::Reserved);
    }
    let fields = descriptor_bits::fields_of(descriptor);
    let limit = descriptor_limits::shift_limit(m);
    if limit < fields.shift {
        return Err(Refusal::Shift { limit });
    }
    let needed = n / 8;
    if (mask.len() as u64) < needed {
        return Err(Refusal::TooShort { needed });
    }
    fill_mask(sub_bits(m, n), fields, &mut mask[..needed as usize])
}
