// Dealing and collecting over the .f64 holdings of 32 lanes: a holding's registers for a kind, and the holding with them anew.
#![tactic(auto)]

ghost use Rattle.std.specs.Prelude.{◌≡◌, [], map, get_or};
ghost use Rattle.values.specs.Rows.{each};
ghost use Rattle.values.specs.Holdings.{registers_of, double_of, with_registers, deal_holdings_answer, collect_holdings_answer, dealt_holdings, collected_from_holdings};

use answers::Refusal;
use values::{Holding, Register};

// The registers of a lane for a kind.
fn registers_of(kind: u64, holding: Holding) -> [Register; 8]
    ensures { result ≡ registers_of kind holding }
{
    let mut registers = [Register::Empty; 8];
    if kind == 6 {
        registers[0] = Register::Double(holding.a);
        return registers;
    }
    if kind == 7 {
        registers[0] = Register::Double(holding.b);
        return registers;
    }
    registers[0] = Register::Double(holding.first);
    registers[1] = Register::Double(holding.second);
    registers
}

// The registers of all lanes for a kind.
fn lanes_of(kind: u64, holdings: [Holding; 32]) -> [[Register; 8]; 32]
    ensures { result ≡ map (registers_of kind) holdings }
{
    let mut lanes = [[Register::Empty; 8]; 32];
    for lane in 0..32 {
        let holding = holdings[lane];
        lanes[lane] = registers_of(kind, holding);
    }
    lanes
}

// The double that a register has, or the other if it has none.
fn double_of(other: f64, register: Register) -> f64
    ensures { result ≡ double_of other register }
{
    match register {
        Register::Double(double) => double,
        Register::Single(_) => other,
        Register::Empty => other,
    }
}

// The holding with its registers for a kind anew.
fn with_registers(kind: u64, holding: Holding, registers: [Register; 8]) -> Holding
    ensures { result ≡ with_registers kind holding registers }
{
    let x = registers[0];
    if kind == 6 {
        return Holding {
            a: double_of(holding.a, x),
            b: holding.b,
            first: holding.first,
            second: holding.second,
        };
    }
    if kind == 7 {
        return Holding {
            a: holding.a,
            b: double_of(holding.b, x),
            first: holding.first,
            second: holding.second,
        };
    }
    let y = registers[1];
    Holding {
        a: holding.a,
        b: holding.b,
        first: double_of(holding.first, x),
        second: double_of(holding.second, y),
    }
}

// All holdings with their registers for a kind anew.
fn with_lanes(kind: u64, given: [Holding; 32], lanes: [[Register; 8]; 32]) -> [Holding; 32]
    ensures { result ≡ each (λ lane h. with_registers kind h (get_or lanes lane [])) given }
{
    let mut holdings = given;
    for lane in 0..32 {
        let before = given[lane];
        let registers = lanes[lane];
        holdings[lane] = with_registers(kind, before, registers);
    }
    holdings
}

// Whether a tile can be dealt to holdings: kind 5 has none.
pub fn judge_dealing(kind: u64, computation: u64, tile: [[Register; 8]; 8]) -> Result<(), Refusal>
    ensures { result ≡ deal_holdings_answer kind computation tile }
{
    if 5 < kind {
        dealing::judge_dealing(kind, computation, tile)
    } else {
        Err(fragment::outside())
    }
}

// The holdings with the tile dealt to them, or as given where refused.
pub fn deal(
    kind: u64,
    computation: u64,
    tile: [[Register; 8]; 8],
    holdings: [Holding; 32],
) -> [Holding; 32]
    ensures { result ≡ dealt_holdings kind computation tile holdings }
{
    match judge_dealing(kind, computation, tile) {
        Ok(()) => {
            let given = lanes_of(kind, holdings);
            let lanes = dealing_moves::dealt_lanes(kind, computation, tile, given);
            with_lanes(kind, holdings, lanes)
        }
        Err(_) => holdings,
    }
}

// Whether a tile can be collected from holdings.
pub fn judge_collecting(kind: u64, computation: u64) -> Result<(), Refusal>
    ensures { result ≡ collect_holdings_answer kind computation }
{
    if (5 < kind) & dealing::is_matrix(kind, computation) {
        Ok(())
    } else {
        Err(fragment::outside())
    }
}

// The tile collected from the holdings, or as given where refused.
pub fn collect(
    kind: u64,
    computation: u64,
    holdings: [Holding; 32],
    tile: [[Register; 8]; 8],
) -> [[Register; 8]; 8]
    ensures { result ≡ collected_from_holdings kind computation holdings tile }
{
    match judge_collecting(kind, computation) {
        Ok(()) => {
            dealing_moves::collected_tile(kind, computation, lanes_of(kind, holdings), tile)
        }
        Err(_) => tile,
    }
}
