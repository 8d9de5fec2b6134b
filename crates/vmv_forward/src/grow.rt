ghost use Rattle.std.specs.Prelude.{◌≡◌, ◌<◌, ◌+◌, ℤ, List, length, IfOk, OnOk};
ghost use Rattle.vmv_tree.specs.Tree.{Item};
ghost use Rattle.vmv_snapshot.specs.declared.code.Code.{Code};
ghost use Rattle.vmv_snapshot.specs.View.{code_of};
ghost use Rattle.vmv_snapshot.specs.Procs.{params_of};
ghost use Rattle.vmv_snapshot.specs.Resolution.{procs_of};
ghost use Rattle.vmv_assumption.specs.Assumed.{Assumed};
ghost use Rattle.vmv_pass.specs.Callees.{block_callees};
ghost use Rattle.vmv_pass.specs.Upper.{IsProc};
ghost use Rattle.vmv_cond.specs.Cond.{IsEmpty};
ghost use Rattle.vmv_forward.specs.Grow.{IsNew, IsGrownBy, IsOutside, IsStart, AreInputs, AreProcs};

use crate::callees::callees_of;
use crate::instance::Instance;
use std::alloc::{AllocError, Global};
use vmv_check::block_loops;
use vmv_cond::Cond;
use vmv_snapshot::{ProcId, Snapshot};
use vmv_zone::Zone;

/// The condition that holds no word.
fn nothing() -> Cond
    ensures { IsEmpty result }
{
    Cond::of(1, 0, true)
}

/// Bottom over the parameters of each of the procedures.
fn bottom_inputs(
    alloc: Global,
    snapshot: &Snapshot,
    callees: &[ProcId],
) -> Result<Vec<Zone>, AllocError>
    requires { AreProcs snapshot.now callees.now }
    ensures { IfOk result (λ inputs. AreInputs snapshot.now callees.now inputs.items) }
{
    let mut inputs = Vec::with_capacity(alloc, callees.len())?;
    for callee in callees {
        let params = snapshot.params(*callee).len() as u8;
        inputs.push(Zone::bottom(params))?;
    }
    Ok(inputs)
}

/// An instance of the procedure, of which nothing is known. Its calls are given, and have no instances yet.
fn new_instance(
    alloc: Global,
    snapshot: &Snapshot,
    proc: ProcId,
    caller: usize,
    place: usize,
    callees: &[ProcId],
) -> Result<Instance, AllocError>
    requires proc { proc.0 < length (procs_of snapshot.now) }
    requires callees { (item : Item) (code : Code) → IsProc snapshot.now proc.0 item code → callees.now ≡ block_callees (code_of code).block }
    ensures { IfOk result (IsNew snapshot.now proc caller place) }
{
    let _program = snapshot.program();
    let code = snapshot.code(proc);
    let loops = block_loops(code.block.as_slice());
    let sites = snapshot.site_count(proc) as usize;
    Ok(Instance {
        proc,
        caller,
        place,
        callees: Vec::with_capacity(alloc, callees.len())?,
        keeps: vec![in alloc; Zone::bottom(code.vars); loops]?,
        inputs: bottom_inputs(alloc, snapshot, callees)?,
        results: vec![in alloc; nothing(); callees.len()]?,
        unproved: vec![in alloc; false; sites]?,
    })
}

/// Adds an instance of the procedure for the call of this place of the caller, and instances of all that it calls.
fn grow(
    alloc: Global,
    snapshot: &Snapshot,
    proc: ProcId,
    caller: usize,
    place: usize,
    instances: &mut Vec<Instance>,
) -> Result<(), AllocError>
    requires { proc.0 < length (procs_of snapshot.now) }
    ensures { OnOk result (IsGrownBy snapshot.now proc.0 caller place instances.old.items instances.new.items) }
{
    let _program = snapshot.program();
    let code = snapshot.code(proc);
    let callees = callees_of(alloc, code.block.as_slice())?;
    let number = instances.len();
    instances.push(new_instance(alloc, snapshot, proc, caller, place, callees.as_slice())?)?;
    for (c, callee) in callees.iter().enumerate() {
        let next = instances.len();
        instances[number].add_callee(next)?;
        grow(alloc, snapshot, *callee, number, c, instances)?;
    }
    Ok(())
}

/// The caller of the entry, which has the entry's input.
fn outside(alloc: Global, entry: ProcId, input: &Zone) -> Result<Instance, AllocError>
    ensures { IfOk result (IsOutside input.now) }
{
    Ok(Instance {
        proc: entry,
        caller: 0,
        place: 0,
        callees: vec![in alloc; 1]?,
        keeps: Vec::new(alloc),
        inputs: vec![in alloc; *input]?,
        results: vec![in alloc; nothing()]?,
        unproved: Vec::new(alloc),
    })
}

/// The instances of an entry that starts with the input, of which nothing is known: instance 0 stands for the caller of the
/// entry, and instance 1 for the entry.
pub(crate) fn instances_of(
    alloc: Global,
    snapshot: &Snapshot,
    entry: ProcId,
    input: &Zone,
) -> Result<Vec<Instance>, AllocError>
    requires { entry.0 < length (procs_of snapshot.now) }
    ensures { IfOk result (λ paths. IsStart snapshot.now entry.0 input.now paths.items) }
{
    let mut instances = Vec::new(alloc);
    instances.push(outside(alloc, entry, input)?)?;
    grow(alloc, snapshot, entry, 0, 0, &mut instances)?;
    Ok(instances)
}
