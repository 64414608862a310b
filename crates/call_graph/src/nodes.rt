//! The calls of each function, both ways.
ghost use Rattle.std.specs.Prelude.{◌≡◌, ℕ, ◌<◌, List, length, OnOk, OnErr};
ghost use Rattle.call_graph.specs.CallPaths.{list_added};
ghost use Rattle.call_graph.specs.Code.Nodes.{callees_of, callers_of};

use cerco_base::NoMemory;

// A function's neighbours: one entry for each call.
#[derive(Drop)]
pub(crate) struct Node {
    pub(crate) callees: Vec<u32>,
    pub(crate) callers: Vec<u32>,
}

// One more callee of a function.
fn add_callee(nodes: &mut [Node], function: u32, callee: u32) -> Result<(), NoMemory>
    requires { function < length nodes.old }
    ensures added { OnOk result (callees_of nodes.new ≡ list_added (callees_of nodes.old) function callee) }
    ensures same { OnErr result (callees_of nodes.new ≡ callees_of nodes.old) }
    ensures callers { callers_of nodes.new ≡ callers_of nodes.old }
{
    nodes[function as usize].callees.push(callee)?;
    Ok(())
}

// One more caller of a function.
fn add_caller(nodes: &mut [Node], function: u32, caller: u32) -> Result<(), NoMemory>
    requires { function < length nodes.old }
    ensures added { OnOk result (callers_of nodes.new ≡ list_added (callers_of nodes.old) function caller) }
    ensures same { OnErr result (callers_of nodes.new ≡ callers_of nodes.old) }
    ensures callees { callees_of nodes.new ≡ callees_of nodes.old }
{
    nodes[function as usize].callers.push(caller)?;
    Ok(())
}

// The last callee of a function goes.
fn forget_callee(nodes: &mut [Node], function: u32)
    requires { function < length nodes.old }
    ensures callees { (lists : List (List ℕ)) (callee : ℕ) → function < length lists → callees_of nodes.old ≡ list_added lists function callee → callees_of nodes.new ≡ lists }
    ensures callers { callers_of nodes.new ≡ callers_of nodes.old }
{
    let _ = nodes[function as usize].callees.pop();
}

// One more call. When out of memory, the calls are as they were.
pub(crate) fn connect(nodes: &mut [Node], caller: u32, callee: u32) -> Result<(), NoMemory>
    requires caller { caller < length nodes.old }
    requires callee { callee < length nodes.old }
    ensures callees { OnOk result (callees_of nodes.new ≡ list_added (callees_of nodes.old) caller callee) }
    ensures callers { OnOk result (callers_of nodes.new ≡ list_added (callers_of nodes.old) callee caller) }
    ensures same_callees { OnErr result (callees_of nodes.new ≡ callees_of nodes.old) }
    ensures same_callers { OnErr result (callers_of nodes.new ≡ callers_of nodes.old) }
{
    add_callee(nodes, caller, callee)?;
    if add_caller(nodes, callee, caller).is_err() {
        forget_callee(nodes, caller);
        return Err(NoMemory);
    }
    Ok(())
}
