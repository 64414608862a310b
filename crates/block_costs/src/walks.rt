//! Walks along the ways of a code.
ghost use Rattle.std.specs.Prelude.{◌≡◌, ◌<◌, None};
ghost use Rattle.block_costs.specs.Code.Walks.{turn_to, turn_at, walk, walk_way};

use crate::code::{Flow, flow_of, has_halt, instr_at, is_closed};
use crate::faults::CostFault;
use crate::marks::Marks;
use mcs51_isa::cycles;

/// What is known of a way so far.
#[derive(Clone, Copy)]
pub(crate) struct Tally {
    /// The cycles of its instructions.
    pub(crate) cycles: u32,
    /// The address of its conditional jump.
    pub(crate) branch: Option<u16>,
}

/// What an instruction of a way comes to: the last one, or one before another.
#[derive(Clone, Copy)]
pub(crate) enum Turn {
    Ends(Tally),
    Goes(u16, Tally),
}

// At the beginning of a way.
const NOTHING: Tally = Tally {
    cycles: 0,
    branch: None,
};

// On to an address, if the way doesn't end before it.
fn turn_to(code: &[u8], marks: &Marks, to: u16, tally: Tally) -> Turn
    ensures { result ≡ turn_to code.now marks.now to tally }
{
    if is_closed(code, marks, to) {
        Turn::Ends(tally)
    } else {
        Turn::Goes(to, tally)
    }
}

// The instruction at an address of a way, where conditional jumps jump or not.
fn turn_at(
    code: &[u8],
    marks: &Marks,
    taken: bool,
    at: u16,
    tally: Tally,
) -> Result<Turn, CostFault>
    requires { tally.cycles < 300000 }
    ensures { result ≡ turn_at code.now marks.now taken at tally }
{
    let Some((instr, length)) = instr_at(code, at) else {
        return Err(CostFault::Reserved { at });
    };
    let cycles = tally.cycles + cycles(instr) as u32;
    let branch = tally.branch;
    match flow_of(instr, at.wrapping_add(length as u16)) {
        Flow::On(to) => Ok(turn_to(code, marks, to, Tally { cycles, branch })),
        Flow::Back => Ok(Turn::Ends(Tally { cycles, branch })),
        Flow::Lost => Err(CostFault::NoTarget { at }),
        Flow::Branch(next, target) => {
            if branch.is_some() {
                return Err(CostFault::Second { at });
            }
            let to = if taken { target } else { next };
            let branch = Some(at);
            Ok(turn_to(code, marks, to, Tally { cycles, branch }))
        }
    }
}

// Along a way from an address on.
fn walk(code: &[u8], marks: &Marks, taken: bool, from: u16) -> Result<Tally, CostFault>
    ensures { result ≡ walk code.now marks.now taken 65536 from (record { cycles = 0; branch = None }) }
{
    let mut at = from;
    let mut tally = NOTHING;
    for _ in 0..65536u32 {
        match turn_at(code, marks, taken, at, tally)? {
            Turn::Ends(whole) => return Ok(whole),
            Turn::Goes(next, longer) => {
                at = next;
                tally = longer;
            }
        }
    }
    Err(CostFault::NoLabel { at })
}

/// Along the whole way from an address, which is empty at a jump to itself.
pub(crate) fn walk_way(
    code: &[u8],
    marks: &Marks,
    taken: bool,
    from: u16,
) -> Result<Tally, CostFault>
    ensures { result ≡ walk_way code.now marks.now taken from }
{
    if has_halt(code, from) {
        return Ok(NOTHING);
    }
    walk(code, marks, taken, from)
}
