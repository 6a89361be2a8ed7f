// Every question for C: numbers in arrays, an answer as four numbers, lent memory as a pointer and a length. include/urszovely.h
// declares them. Kinds, sorts and modes are numbers here, since C has them so.
#![tactic(auto)]

ghost use Rattle.std.specs.Prelude.{◌≡◌, length};
ghost use Rattle.swizzle.specs.Swizzle.{swizzle_answer, swizzle_numbers};
ghost use Rattle.swizzle.specs.Mode.{mode_answer, mode_numbers};
ghost use Rattle.banks_judged.specs.Bank.{bank_answer, bank_numbers};
ghost use Rattle.fragment.specs.Fragment.{held_answer, held_numbers};
ghost use Rattle.mma_kinds.specs.Mma.{mma_answer, mma_numbers, layout_answer};
ghost use Rattle.descriptor.specs.Descriptor.{fields_answer, fields_numbers, shift_limit, descriptor_answer, descriptor_numbers};
ghost use Rattle.mask.specs.Mask.{mask_answer, mask_memory, mask_numbers};
ghost use Rattle.card.specs.Admission.{admission_numbers};
ghost use Rattle.stretch_judged.specs.Stretch.{stretch_answer, stretch_numbers};
ghost use Rattle.values.specs.Registers.{deal_answer, collect_answer, moved_numbers};
ghost use Rattle.values.specs.Holdings.{deal_holdings_answer, collect_holdings_answer};
ghost use Rattle.c_bits.specs.Bits.{rows_from, registers_held, dealt_bits, collected_bits, dealt_numbers, collected_from_numbers};
ghost use Rattle.notation.specs.Writing.{written_answer as textAnswer, bytes_after, write_numbers as textNumbers};
ghost use Rattle.c_card.specs.Card.{card_from, four};
ghost use Rattle.c_fields.specs.Fields.{fields_from, bytes_of};
ghost use Rattle.canonical.specs.Canonical.{built};
ghost use Rattle.book.specs.Book.{read_answer as blockAnswer};
ghost use Rattle.urszovely.specs.Answers.{AsHolder, AsReading, AsAdmission, AsPlacement, AsVerdict, AsOwner, RegistersWritten, AsMmaHolder};
ghost use Rattle.urszovely.specs.Canonical.{card_numbers, AsCanonical};
ghost use Rattle.urszovely.specs.Book.{note_place, AsBlock, AsPage};
ghost use Rattle.urszovely.specs.Plans.{AsCheck, AsPlan};

use answers::Refusal;
use canonical::Canonical;
use card::Card;
use notation::Layout;

// The swizzle of an address.
#[unsafe(no_mangle)]
pub extern "C" fn urszovely_swizzle(m: u64, b: u64, s: u64, address: u64, answer: &mut [u64; 4])
    ensures { answer.new ≡ four (swizzle_numbers (swizzle_answer m b s address)) }
{
    let swizzled = swizzle::swizzle_address(m, b, s, address);
    let numbers = answers::in_numbers(swizzled);
    *answer = c_card::four(numbers);
}

// M, B, S from element bits and mode.
#[unsafe(no_mangle)]
pub extern "C" fn urszovely_mode(bits: u64, mode: u64, answer: &mut [u64; 4])
    ensures { answer.new ≡ four (mode_numbers (mode_answer bits mode)) }
{
    let chosen = swizzle::swizzle_of_mode(bits, mode);
    let numbers = answers::in_numbers(chosen);
    *answer = c_card::four(numbers);
}

// Line and bank of an element address.
#[unsafe(no_mangle)]
pub extern "C" fn urszovely_bank(bits: u64, address: u64, answer: &mut [u64; 4])
    ensures { answer.new ≡ four (bank_numbers (bank_answer bits address)) }
{
    let banked = banks::bank_of(bits, address);
    let numbers = answers::in_numbers(banked);
    *answer = c_card::four(numbers);
}

// What a register of a warp's lane holds.
#[unsafe(no_mangle)]
pub extern "C" fn urszovely_fragment(kind: u64, lane: u64, register: u64, answer: &mut [u64; 4])
    ensures { answer.new ≡ four (held_numbers (held_answer kind lane register)) }
{
    let held = fragment::held_by(kind, lane, register);
    let numbers = answers::in_numbers(held);
    *answer = c_card::four(numbers);
}

// Which register holds a place.
#[unsafe(no_mangle)]
pub extern "C" fn urszovely_holder(
    kind: u64,
    computation: u64,
    row: u64,
    column: u64,
    answer: &mut [u64; 4],
)
    ensures { AsHolder kind (record { computation = computation; row = row; column = column }) answer.new }
{
    let holder = fragment::holder_of(kind, computation, row, column);
    let numbers = answers::in_numbers(holder);
    *answer = c_card::four(numbers);
}

// What a register of a lane of a warp holds, of the further kinds.
#[unsafe(no_mangle)]
pub extern "C" fn urszovely_mma(
    kind: u64,
    warp: u64,
    lane: u64,
    register: u64,
    answer: &mut [u64; 4],
)
    ensures { answer.new ≡ four (mma_numbers (mma_answer kind warp lane register)) }
{
    let held = mma::held_by(kind, warp, lane, register);
    let numbers = answers::in_numbers(held);
    *answer = c_card::four(numbers);
}

// Which register of the further kinds holds a place.
#[unsafe(no_mangle)]
pub extern "C" fn urszovely_mma_holder(
    kind: u64,
    matrix: u64,
    row: u64,
    column: u64,
    answer: &mut [u64; 4],
)
    ensures { AsMmaHolder kind (record { matrix = matrix; row = row; column = column }) answer.new }
{
    let holder = mma::holder_of(kind, matrix, row, column);
    let numbers = answers::in_numbers(holder);
    *answer = c_card::four(numbers);
}

// A computation's matrix dealt to its lanes. Values are bits here, 32 of a single and 64 of a double, which in C are the same memory as the
// floats that the header names: so a promise speaks of every pattern of a not-a-number. Where refused no lent memory is touched; dealt to empty lanes, all registers but the
// computation's own stay empty, and an empty one is not stored.
#[unsafe(no_mangle)]
pub extern "C" fn urszovely_deal(
    kind: u64,
    computation: u64,
    tile_sorts: &[u8; 64],
    tile_singles: &[u32; 64],
    tile_doubles: &[u64; 64],
    sorts: &mut [u8; 256],
    singles: &mut [u32; 256],
    doubles: &mut [u64; 256],
    answer: &mut [u64; 4],
)
    ensures answer_after { answer.new ≡ four (moved_numbers (deal_answer kind computation (registers_held (rows_from 8 tile_sorts.now tile_singles.now tile_doubles.now)))) }
    ensures registers_written { RegistersWritten (dealt_bits kind computation (rows_from 8 tile_sorts.now tile_singles.now tile_doubles.now) (rows_from 32 sorts.old singles.old doubles.old)) sorts.old singles.old doubles.old sorts.new singles.new doubles.new }
{
    let told = c_registers_judged::judge_dealing(
        kind,
        computation,
        tile_sorts,
        tile_singles,
        tile_doubles,
    );
    let numbers = answers::in_numbers(told);
    *answer = c_card::four(numbers);
    let Ok(()) = told else {
        return;
    };
    c_registers::deal(
        kind,
        computation,
        tile_sorts,
        tile_singles,
        tile_doubles,
        sorts,
        singles,
        doubles,
    );
}

// And collected from them.
#[unsafe(no_mangle)]
pub extern "C" fn urszovely_collect(
    kind: u64,
    computation: u64,
    lane_sorts: &[u8; 256],
    lane_singles: &[u32; 256],
    lane_doubles: &[u64; 256],
    sorts: &mut [u8; 64],
    singles: &mut [u32; 64],
    doubles: &mut [u64; 64],
    answer: &mut [u64; 4],
)
    ensures answer_after { answer.new ≡ four (moved_numbers (collect_answer kind computation (registers_held (rows_from 32 lane_sorts.now lane_singles.now lane_doubles.now)))) }
    ensures registers_written { RegistersWritten (collected_bits kind computation (rows_from 32 lane_sorts.now lane_singles.now lane_doubles.now) (rows_from 8 sorts.old singles.old doubles.old)) sorts.old singles.old doubles.old sorts.new singles.new doubles.new }
{
    let told = c_registers_judged::judge_collecting(
        kind,
        computation,
        lane_sorts,
        lane_singles,
        lane_doubles,
    );
    let numbers = answers::in_numbers(told);
    *answer = c_card::four(numbers);
    let Ok(()) = told else {
        return;
    };
    c_registers::collect(
        kind,
        computation,
        lane_sorts,
        lane_singles,
        lane_doubles,
        sorts,
        singles,
        doubles,
    );
}

// A matrix of an .f64 kind dealt to the lanes' holdings.
#[unsafe(no_mangle)]
pub extern "C" fn urszovely_deal_f64(
    kind: u64,
    computation: u64,
    tile_sorts: &[u8; 64],
    tile_singles: &[u32; 64],
    tile_doubles: &[u64; 64],
    holdings: &mut [u64; 128],
    answer: &mut [u64; 4],
)
    ensures answer_after { answer.new ≡ four (moved_numbers (deal_holdings_answer kind computation (registers_held (rows_from 8 tile_sorts.now tile_singles.now tile_doubles.now)))) }
    ensures holdings_after { holdings.new ≡ dealt_numbers kind computation (rows_from 8 tile_sorts.now tile_singles.now tile_doubles.now) holdings.old }
{
    // as a slice, whose length the proof knows where refused too
    let fields: &mut [u64] = holdings;
    let told = c_registers_judged::judge_dealing_holdings(
        kind,
        computation,
        tile_sorts,
        tile_singles,
        tile_doubles,
    );
    let numbers = answers::in_numbers(told);
    *answer = c_card::four(numbers);
    let Ok(()) = told else {
        return;
    };
    c_holdings::deal_holdings(
        kind,
        computation,
        tile_sorts,
        tile_singles,
        tile_doubles,
        fields,
    );
}

// And collected from them.
#[unsafe(no_mangle)]
pub extern "C" fn urszovely_collect_f64(
    kind: u64,
    computation: u64,
    holdings: &[u64; 128],
    sorts: &mut [u8; 64],
    singles: &mut [u32; 64],
    doubles: &mut [u64; 64],
    answer: &mut [u64; 4],
)
    ensures answer_after { answer.new ≡ four (moved_numbers (collect_holdings_answer kind computation)) }
    ensures registers_written { RegistersWritten (collected_from_numbers kind computation holdings.now (rows_from 8 sorts.old singles.old doubles.old)) sorts.old singles.old doubles.old sorts.new singles.new doubles.new }
{
    let told = dealing_holdings::judge_collecting(kind, computation);
    let numbers = answers::in_numbers(told);
    *answer = c_card::four(numbers);
    let Ok(()) = told else {
        return;
    };
    c_holdings::collect_holdings(kind, computation, holdings, sorts, singles, doubles);
}

// The fields of a descriptor, read.
#[unsafe(no_mangle)]
pub extern "C" fn urszovely_fields(descriptor: u64, fields: &mut [u8; 12], answer: &mut [u64; 4])
    ensures answer_after { answer.new ≡ four (fields_numbers (fields_answer descriptor).answer) }
    ensures fields_after { fields.new ≡ bytes_of (fields_answer descriptor).fields }
{
    let reading = descriptor_bits::read_descriptor(descriptor);
    let read = reading.fields;
    *fields = c_fields::field_bytes(read);
    let told = reading.answer;
    let numbers = answers::in_numbers(told);
    *answer = c_card::four(numbers);
}

// And written, for M.
#[unsafe(no_mangle)]
pub extern "C" fn urszovely_descriptor(m: u64, fields: &[u8; 11], shift: u64, answer: &mut [u64; 4])
    ensures { answer.new ≡ four (descriptor_numbers (descriptor_answer (shift_limit m) m (fields_from fields.now shift))) }
{
    let written = descriptor_bits::write_descriptor(m, c_fields::fields(fields, shift));
    let numbers = answers::in_numbers(written);
    *answer = c_card::four(numbers);
}

// The zero-column mask.
#[unsafe(no_mangle)]
pub extern "C" fn urszovely_mask(
    m: u64,
    n: u64,
    descriptor: u64,
    mask: &mut [u8],
    answer: &mut [u64; 4],
)
    ensures answer_after { answer.new ≡ four (mask_numbers (mask_answer (shift_limit m) m n descriptor (length mask.old))) }
    ensures mask_after { mask.new ≡ mask_memory (mask_answer (shift_limit m) m n descriptor (length mask.old)) m n descriptor mask.old }
{
    let generated = mask::generate_mask(m, n, descriptor, mask);
    let numbers = answers::in_numbers(generated);
    *answer = c_card::four(numbers);
}

// A card's own checks: 1 to 6, then 17.
#[unsafe(no_mangle)]
pub extern "C" fn urszovely_admit(card: &[u64; 57], marks: u64, answer: &mut [u64; 4])
    ensures { AsAdmission card.now marks answer.new }
{
    let mut numbers = [0u64; 56];
    let mut strides = [0i64; 24];
    c_packed::pack(card, marks, &mut numbers, &mut strides);
    let admission = idle_search::admit_packed(&numbers, &strides);
    let told = answers::in_numbers(admission);
    *answer = c_card::four(told);
}

// The placement of one element.
#[unsafe(no_mangle)]
pub extern "C" fn urszovely_place(
    card: &[u64; 57],
    marks: u64,
    shape: &[u64; 9],
    coordinates: &[u64; 9],
    memory: &mut [u32],
    answer: &mut [u64; 4],
)
    ensures { AsPlacement card.now marks shape.now coordinates.now memory.old memory.new answer.new }
{
    let mut numbers = [0u64; 56];
    let mut strides = [0i64; 24];
    c_packed::pack(card, marks, &mut numbers, &mut strides);
    let placement = placement::place_packed(
        &numbers,
        &strides,
        c_tuple::tuple(shape),
        c_tuple::tuple(coordinates),
        memory,
    );
    let told = answers::in_numbers(placement);
    *answer = c_card::four(told);
}

// The verdict.
#[unsafe(no_mangle)]
pub extern "C" fn urszovely_verdict(
    card: &[u64; 57],
    marks: u64,
    table: &mut [u32],
    answer: &mut [u64; 4],
)
    ensures { AsVerdict card.now marks table.old table.new answer.new }
{
    let mut numbers = [0u64; 56];
    let mut strides = [0i64; 24];
    c_packed::pack(card, marks, &mut numbers, &mut strides);
    let verdict = verdict::judge_packed(&numbers, &strides, table);
    let told = answers::in_numbers(verdict);
    *answer = c_card::four(told);
}

// The owner of a cell.
#[unsafe(no_mangle)]
pub extern "C" fn urszovely_owner(
    card: &[u64; 57],
    marks: u64,
    coordinates: &[u64; 8],
    table: &mut [u32],
    answer: &mut [u64; 4],
)
    ensures { AsOwner card.now marks coordinates.now table.old table.new answer.new }
{
    let owner = verdict::owner_of(c_card::card(card, marks), *coordinates, table);
    let numbers = answers::in_numbers(owner);
    *answer = c_card::four(numbers);
}

// Where a stretch of a table lies: its first cell and its length.
#[unsafe(no_mangle)]
pub extern "C" fn urszovely_stretch(
    table: &[u32],
    lengths: &[u64; 8],
    axis: u64,
    coordinates: &[u64; 8],
    answer: &mut [u64; 4],
)
    ensures { answer.new ≡ four (stretch_numbers (stretch_answer lengths.now axis coordinates.now (length table.now))) }
{
    let located = stretch::locate_stretch(table, *lengths, axis, *coordinates);
    let numbers = answers::in_numbers(located);
    *answer = c_card::four(numbers);
}

// A text of the layout notation, read into a card.
#[unsafe(no_mangle)]
pub extern "C" fn urszovely_read(
    text: &[u8],
    card: &mut [u64; 57],
    marks: &mut [u64; 1],
    answer: &mut [u64; 4],
)
    ensures { AsReading text.now card.old card.new marks.new answer.new }
{
    let reading = reading::read(text);
    let layout = reading.layout;
    let marked = layout.marks;
    c_layout::put_layout(layout, card);
    *marks = [c_layout::mark_bits(marked)];
    let told = reading.answer;
    let numbers = answers::in_numbers(told);
    *answer = c_card::four(numbers);
}

// A card written in the layout notation.
#[unsafe(no_mangle)]
pub extern "C" fn urszovely_write(
    card: &[u64; 57],
    marks: u64,
    text: &mut [u8],
    answer: &mut [u64; 4],
)
    ensures answer_after { answer.new ≡ four (textNumbers (textAnswer (card_from card.now marks) (length text.old))) }
    ensures text_after { text.new ≡ bytes_after (textAnswer (card_from card.now marks) (length text.old)) (card_from card.now marks) text.old }
{
    let written = writing::write(c_card::card(card, marks), text);
    let numbers = answers::in_numbers(written);
    *answer = c_card::four(numbers);
}

// The verdict on a canonical shared-memory layout, with LBO and SBO as a descriptor has them.
#[unsafe(no_mangle)]
pub extern "C" fn urszovely_canonical(
    major: u64,
    mode: u64,
    bits: u64,
    m: u64,
    k: u64,
    lbo: u64,
    sbo: u64,
    length_of_m: u64,
    table: &mut [u32],
    encodings: &mut [u64; 2],
    answer: &mut [u64; 4],
)
    ensures { AsCanonical (record { major = major; mode = mode; bits = bits; m = m; k = k; lbo = lbo; sbo = sbo; length = length_of_m }) table.old table.new encodings.new answer.new }
{
    let asked = Canonical {
        major,
        mode,
        bits,
        m,
        k,
        lbo,
        sbo,
        length: length_of_m,
    };
    let reported = encoding::judge(asked, table);
    *encodings = [reported.lbo, reported.sbo];
    let numbers = encoding::reported_numbers(reported);
    *answer = c_card::four(numbers);
}

// The 57 numbers of a card; its marks are not among them.
fn card_numbers(card: Card) -> [u64; 57]
    ensures { result ≡ card_numbers card }
{
    let shard = card.shard;
    let marks = card.marks;
    let replica = card.replica;
    let offset = card.offset;
    let lengths = card.lengths;
    let mut numbers = [0u64; 57];
    numbers[46] = lengths[0];
    numbers[47] = lengths[1];
    numbers[48] = lengths[2];
    numbers[49] = lengths[3];
    numbers[50] = lengths[4];
    numbers[51] = lengths[5];
    numbers[52] = lengths[6];
    numbers[53] = lengths[7];
    numbers[54] = card.swizzle.m;
    numbers[55] = card.swizzle.b;
    numbers[56] = card.swizzle.s;
    let layout = Layout {
        shard,
        marks,
        replica,
        offset,
    };
    c_layout::put_layout(layout, &mut numbers);
    numbers
}

// The card of a canonical layout, as 57 numbers.
#[unsafe(no_mangle)]
pub extern "C" fn urszovely_canonical_card(
    major: u64,
    mode: u64,
    bits: u64,
    m: u64,
    k: u64,
    lbo: u64,
    sbo: u64,
    length_of_m: u64,
    card: &mut [u64; 57],
    answer: &mut [u64; 4],
)
    ensures card_after { card.new ≡ card_numbers (built (record { major = major; mode = mode; bits = bits; m = m; k = k; lbo = lbo; sbo = sbo; length = length_of_m })).card }
    ensures answer_after { answer.new ≡ four (admission_numbers (built (record { major = major; mode = mode; bits = bits; m = m; k = k; lbo = lbo; sbo = sbo; length = length_of_m })).answer) }
{
    let asked = Canonical {
        major,
        mode,
        bits,
        m,
        k,
        lbo,
        sbo,
        length: length_of_m,
    };
    let built = canonical_build::build(asked);
    let of = built.card;
    *card = card_numbers(of);
    let told = built.answer;
    let numbers = answers::in_numbers(told);
    *answer = c_card::four(numbers);
}

// The layout of a further kind, as 57 numbers.
#[unsafe(no_mangle)]
pub extern "C" fn urszovely_mma_layout(kind: u64, card: &mut [u64; 57], answer: &mut [u64; 4])
    ensures card_after { card.new ≡ card_numbers (layout_answer kind).card }
    ensures answer_after { answer.new ≡ four (admission_numbers (layout_answer kind).answer) }
{
    let layout = mma::layout_of(kind);
    let of = layout.card;
    *card = card_numbers(of);
    let told = layout.answer;
    let numbers = answers::in_numbers(told);
    *answer = c_card::four(numbers);
}

// A card with a note, written as a block of the layout book.
#[unsafe(no_mangle)]
pub extern "C" fn urszovely_block(
    card: &[u64; 57],
    marks: u64,
    note: &[u8],
    bytes: &mut [u8],
    answer: &mut [u64; 4],
)
    ensures { AsBlock card.now marks note.now bytes.old bytes.new answer.new }
{
    let written = storing::write_block(c_card::card(card, marks), note, bytes);
    let numbers = answers::in_numbers(written);
    *answer = c_card::four(numbers);
}

// Where in a block its note begins and how long it is, both 0 where the block is refused.
fn note_place(told: Result<(), Refusal>, block: &[u8]) -> [u64; 2]
    requires { told ≡ blockAnswer block.now }
    ensures { result ≡ note_place told block.now }
{
    match told {
        Ok(()) => [book::NOTE as u64, book_blocks::noted_in(block)],
        Err(_) => [0, 0],
    }
}

// A block of the layout book, read: its card, its marks, and where in the block its note lies.
#[unsafe(no_mangle)]
pub extern "C" fn urszovely_page(
    block: &[u8],
    card: &mut [u64; 57],
    marks: &mut [u64; 1],
    note: &mut [u64; 2],
    answer: &mut [u64; 4],
)
    ensures { AsPage block.now card.new marks.new note.new answer.new }
{
    let page = storing::read_block(block);
    let of = page.card;
    let marked = of.marks;
    *card = card_numbers(of);
    *marks = [c_layout::mark_bits(marked)];
    let told = page.answer;
    *note = note_place(told, block);
    let numbers = answers::in_numbers(told);
    *answer = c_card::four(numbers);
}

// A carrier's plan, checked: whether its copies turn the first card's layout into the second's.
#[unsafe(no_mangle)]
pub extern "C" fn urszovely_carry(
    first_card: &[u64; 57],
    first_marks: u64,
    second_card: &[u64; 57],
    second_marks: u64,
    plan: &[u64],
    first: &mut [u32],
    second: &mut [u32],
    answer: &mut [u64; 4],
)
    ensures { AsCheck first_card.now first_marks second_card.now second_marks plan.now first.old second.old first.new second.new answer.new }
{
    let one = c_card::card(first_card, first_marks);
    let two = c_card::card(second_card, second_marks);
    let checked = planning::check_plan(one, two, plan, first, second);
    let numbers = answers::in_numbers(checked);
    *answer = c_card::four(numbers);
}

// A plain plan, written into lent memory.
#[unsafe(no_mangle)]
pub extern "C" fn urszovely_plan(
    first_card: &[u64; 57],
    first_marks: u64,
    second_card: &[u64; 57],
    second_marks: u64,
    plan: &mut [u64],
    first: &mut [u32],
    second: &mut [u32],
    answer: &mut [u64; 4],
)
    ensures { AsPlan first_card.now first_marks second_card.now second_marks plan.old first.old second.old plan.new first.new second.new answer.new }
{
    let one = c_card::card(first_card, first_marks);
    let two = c_card::card(second_card, second_marks);
    let written = planning::write_plan(one, two, plan, first, second);
    let numbers = answers::in_numbers(written);
    *answer = c_card::four(numbers);
}
