// A layout as values after the bar of a reply, each where it stands among the numbers of a line.
use desk_lines::places;
use notation::Layout;

// The shard, the replica and the offsets, as they are handed over to C.
pub fn layout_values(layout: Layout) -> [u64; 80] {
    let mut card = [0u64; 57];
    c_layout::put_layout(layout, &mut card);
    let mut values = [0u64; 80];
    values[..places::LENGTHS].copy_from_slice(&card[..places::LENGTHS]);
    values
}

// Puts the lengths.
pub fn put_lengths(values: &mut [u64; 80], lengths: [u64; 8]) {
    values[places::LENGTHS..places::LENGTHS + 8].copy_from_slice(&lengths);
}

// Puts the marks from a place on.
pub fn put_marks(values: &mut [u64; 80], from: usize, marks: [bool; 8]) {
    for (k, mark) in marks.iter().enumerate() {
        values[(from % 80 + k) % 80] = u64::from(*mark);
    }
}
