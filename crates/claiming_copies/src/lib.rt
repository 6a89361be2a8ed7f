// A packed card's elements claimed run by run, and each run copy by copy, a line of cells at a time. Where a cell has an owner
// already it fails: which element meets it is for the crate above to find.
#![tactic(auto)]

ghost use Rattle.std.specs.Prelude.{◌≡◌, ◌+◌, ◌<◌, replicate};
ghost use Rattle.card.specs.Card.{cells};
ghost use Rattle.card.specs.Packed.{swizzle_of, card_of};
ghost use Rattle.claims.specs.Claims.{OwnedTable, occupied};
ghost use Rattle.rules.specs.Reuse.{Unmarked};
ghost use Rattle.judgement.specs.Judgement.{placed};
ghost use Rattle.claiming_runs.specs.Clauses.{Copying, Running};
ghost use Rattle.claiming_copies.specs.Clauses.{Cleared, Turning};

use answers::Flat;
use claiming_runs::Run;
use copies_runs::LevelAndM;
use swizzle::Swizzle;

// Claims the cells of a run of elements, copy by copy: how many they are, and 0 where one has an owner
// already.
fn claim_copies(
    numbers: &[u64; 56],
    strides: &[i64; 24],
    by: Swizzle,
    start: LevelAndM,
    step: LevelAndM,
    run: Run,
    levels: &[i64],
    ms: &[i64],
    table: &mut [u32],
) -> u64
    requires running { Running numbers.now strides.now start step run table.old × (0 < run.length) × (by ≡ swizzle_of numbers.now) }
    requires copying { Copying (card_of numbers.now strides.now) levels.now ms.now }
    ensures { 0 < result → OwnedTable (placed (card_of numbers.now strides.now)) (run.first.0 + run.length) (cells (card_of numbers.now strides.now)) table.new (occupied table.old + result) }
{
    let first = run.first;
    let length = run.length;
    let level = start.level;
    let m = start.m;
    let mut newly: u64 = 0;
    for copy in 0..levels.len() {
        let place = LevelAndM {
            level: level + levels[copy],
            m: m + ms[copy],
        };
        if !claiming_lines::claim_line(by, place, step, first, length, table) {
            return 0;
        }
        newly += length;
    }
    newly
}

// Claims the cells of one run after the other in the cleared table, which has exactly the cells: how many
// they are, and 0 where one has an owner already.
fn claim_turns(
    numbers: &[u64; 56],
    strides: &[i64; 24],
    elements: u64,
    by: Swizzle,
    length: u64,
    step: LevelAndM,
    from: usize,
    lifts: &[i64; 8],
    moves: &[i64; 8],
    levels: &[i64],
    ms: &[i64],
    table: &mut [u32],
) -> u64
    requires cleared { Cleared numbers.now strides.now elements table.old × Copying (card_of numbers.now strides.now) levels.now ms.now × Unmarked (card_of numbers.now strides.now) }
    requires turning { Turning numbers.now strides.now by length step from lifts.now moves.now }
    ensures { 0 < result → OwnedTable (placed (card_of numbers.now strides.now)) elements (cells (card_of numbers.now strides.now)) table.new result }
{
    let mut digits = [0u64; 8];
    let mut start = copies_runs::begin(numbers, strides, Flat(0));
    let mut occupied: u64 = 0;
    let mut first: u64 = 0;
    // A while: a turn goes on by a run, not by one.
    while first < elements {
        let run = Run {
            first: Flat(first),
            length,
        };
        let claimed = claim_copies(numbers, strides, by, start, step, run, levels, ms, table);
        if claimed == 0 {
            return 0;
        }
        occupied += claimed;
        first += length;
        start = claiming_turns::turn(numbers, strides, from, lifts, moves, &mut digits, start);
    }
    occupied
}

// The same where no iter is marked: what a step of each iter adds is made once.
fn claim_lines(
    numbers: &[u64; 56],
    strides: &[i64; 24],
    elements: u64,
    levels: &[i64],
    ms: &[i64],
    table: &mut [u32],
) -> u64
    requires { Cleared numbers.now strides.now elements table.old × Copying (card_of numbers.now strides.now) levels.now ms.now × Unmarked (card_of numbers.now strides.now) }
    ensures { 0 < result → OwnedTable (placed (card_of numbers.now strides.now)) elements (cells (card_of numbers.now strides.now)) table.new result }
{
    let by = copies_runs::swizzle_of(numbers);
    let length = copies_runs::run_length(numbers);
    let step = copies_runs::added(numbers, strides, card::SHARD, 1);
    let from = claiming_turns::run_from(numbers);
    let mut lifts = [0i64; 8];
    let mut moves = [0i64; 8];
    claiming_turns::put_ways(numbers, strides, from, &mut lifts, &mut moves);
    claim_turns(
        numbers, strides, elements, by, length, step, from, &lifts, &moves, levels, ms, table,
    )
}

// The same for every card: 0 also where an iter is marked, and where there is one element. Where it is 0
// the table is cleared. Public, with a requires, for the crate above.
pub fn claim_quickly(
    numbers: &[u64; 56],
    strides: &[i64; 24],
    elements: u64,
    levels: &[i64],
    ms: &[i64],
    table: &mut [u32],
) -> u64
    requires { Cleared numbers.now strides.now elements table.old × Copying (card_of numbers.now strides.now) levels.now ms.now }
    ensures owned_table { 0 < result → OwnedTable (placed (card_of numbers.now strides.now)) elements (cells (card_of numbers.now strides.now)) table.new result }
    ensures table_after { result ≡ 0 → table.new ≡ replicate (cells (card_of numbers.now strides.now)) 0 }
{
    if elements < 2 {
        return 0;
    }
    if reuse::has_marks(numbers) {
        return 0;
    }
    let occupied = claim_lines(numbers, strides, elements, levels, ms, table);
    if occupied != 0 {
        return occupied;
    }
    owners::clear(table);
    0
}
