//! Sequences of byte operations, which grow at their end.
ghost use Rattle.std.specs.Prelude.{◌≡◌, ◌∷◌, ◌++◌, [], OnOk};
ghost use Rattle.rtl.specs.Code.Views.{op_of};
ghost use Rattle.byte_sequences.specs.Code.Views.{ops_of};

use cerco_base::NoMemory;
use rtl::{ByteOp, Ops, Vreg};

/// One operation more.
#[tactic(auto, using(crate::proofs::Pushes::pushes))]
pub fn push(ops: &mut Ops<Vreg>, op: ByteOp<Vreg>) -> Result<(), NoMemory>
    ensures { OnOk result (ops_of ops.new ≡ ops_of ops.old ++ op_of op ∷ []) }
{
    ops.push(op)
}
