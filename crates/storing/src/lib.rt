// Reading and writing a block of the layout book, the note a part of the block.
#![tactic(auto)]

ghost use Rattle.std.specs.Prelude.{◌≡◌, length, Err};
ghost use Rattle.card.specs.Card.{no_card};
ghost use Rattle.book.specs.Book.{read_answer, page_of, note_read, NoteBegins, write_answer, lent_after};

use answers::Refusal;
use book::Page;
use card::Card;

// A refused read.
fn refused(refusal: Refusal) -> Page
    ensures { result ≡ record { answer = Err refusal; card = no_card } }
{
    let card = book_card::no_card();
    Page {
        answer: Err(refusal),
        card,
    }
}

// Reads a block: the answer, and the card by value. Of a longer block the first 512 bytes are read.
pub fn read_block(block: &[u8]) -> Page
    ensures { result ≡ page_of block.now }
{
    if block.len() < book::BLOCK {
        return refused(Refusal::TooShort {
            needed: book::BLOCK as u64,
        });
    }
    if !book_blocks::is_check_right(block) {
        return refused(Refusal::WrongCheck);
    }
    let shard_count = book_card::one(block, 0);
    let replica_count = book_card::one(block, 1);
    if !((1 <= shard_count) & (shard_count <= 8) & (replica_count <= 4)) {
        return refused(Refusal::Counts);
    }
    if !book_unused::is_all_used(block) {
        return refused(Refusal::Unused);
    }
    let card = book_card::card_in(block);
    Page {
        answer: Ok(()),
        card,
    }
}

// The note that a block holds: the block's own bytes, not a copy. Refused, it is empty, at the block's start.
pub fn read_note(block: &[u8]) -> &[u8]
    ensures result_value { result.now ≡ note_read (read_answer block.now) block.now }
    ensures note_begins { NoteBegins (read_answer block.now) block.entry.ref_ptr result.ref_ptr }
{
    let page = read_block(block);
    let answer = page.answer;
    match answer {
        Ok(()) => {
            let end = book::NOTE + book_blocks::noted_in(block) as usize;
            &block[book::NOTE..end]
        }
        Err(_) => &block[0..0],
    }
}

// Writes the block of a card with a note into lent bytes; those past it stay.
pub fn write_block(card: Card, note: &[u8], memory: &mut [u8]) -> Result<(), Refusal>
    ensures { (result ≡ write_answer card (length note.now) (length memory.old)) × (memory.new ≡ lent_after result card note.now memory.old) }
{
    admission::admit(card)?;
    if book::MOST_NOTE < note.len() {
        return Err(Refusal::Unused);
    }
    if memory.len() < book::BLOCK {
        return Err(Refusal::TooShort {
            needed: book::BLOCK as u64,
        });
    }
    book_blocks::fill(card, note, &mut memory[..book::BLOCK]);
    Ok(())
}
