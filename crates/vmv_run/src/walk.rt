ghost use Rattle.std.specs.Prelude.{◌≡◌, ◌<◌, ℕ, List, length};
ghost use Rattle.vmv_tree.specs.Tree.{Item};
ghost use Rattle.vmv_tree.specs.Run.{turns_of};
ghost use Rattle.vmv_snapshot.specs.Code.{plain, loop};
ghost use Rattle.vmv_snapshot.specs.View.{stmt_of, block_of};
ghost use Rattle.vmv_snapshot.specs.Rows.{Helps, BlockHelps};
ghost use Rattle.vmv_snapshot.specs.Resolution.{tree_of, procs_of};
ghost use Rattle.vmv_run.specs.Walk.{Walks, WalksAll, WalksProc};

use crate::frame::{Frame, called_frame, holds, result_of, value};
use crate::source::Source;
use crate::walked::{Ended, Walked};
use vmv_snapshot::{CodeRepeat, CodeStmt, ProcId, Simple, SiteId, Snapshot};

/// Walks over a simple statement of the procedure of this number. What the slots have then is left in the frame.
fn walk_simple(proc: ProcId, simple: &Simple, frame: &mut Frame, source: &mut Source) -> Walked
    ensures { (program : List Item) → Walks program proc.0 (plain simple.now) frame.old frame.new source.old source.new result }
{
    match simple {
        Simple::Set { to, from } => {
            frame[to.0 as usize] = value(frame, *from);
            Walked::Next
        }
        Simple::Arith {
            to,
            op,
            left,
            right,
            site,
        } => match result_of(*op, value(frame, *left), value(frame, *right)) {
            Some(word) => {
                frame[to.0 as usize] = word;
                Walked::Next
            }
            None => Walked::Fail(SiteId { proc, index: *site }),
        },
        Simple::Ask { to, callee, .. } => match source.answer(callee) {
            Some(word) => {
                frame[to.0 as usize] = word;
                Walked::Next
            }
            None => Walked::Stopped,
        },
        Simple::Assert { test, site } => {
            if holds(frame, *test) {
                Walked::Next
            } else {
                Walked::Fail(SiteId { proc, index: *site })
            }
        }
    }
}

/// Walks over a statement of the procedure of this number.
#[cycle(walk)]
fn walk_stmt(
    snapshot: &Snapshot,
    proc: ProcId,
    stmt: &CodeStmt,
    frame: &mut Frame,
    source: &mut Source,
) -> Walked
    requires proc { proc.0 < length (procs_of snapshot.now) }
    requires calls { (n : ℕ) → Helps (stmt_of stmt.now) n → n < proc.0 }
    ensures { Walks (tree_of snapshot.now) proc.0 (stmt_of stmt.now) frame.old frame.new source.old source.new result }
{
    match stmt {
        CodeStmt::Plain(simple) => walk_simple(proc, simple, frame, source),
        CodeStmt::Help { to, callee, args } => {
            let params = snapshot.params(*callee).len();
            let own = called_frame(frame, params, args.as_slice());
            match walk_proc(snapshot, *callee, own, source) {
                Ended::Done(word) => {
                    frame[to.0 as usize] = word;
                    Walked::Next
                }
                Ended::Fail(site) => Walked::Fail(site),
                Ended::Stopped => Walked::Stopped,
            }
        }
        CodeStmt::If {
            test,
            first,
            second,
        } => {
            if holds(frame, *test) {
                walk_block(snapshot, proc, first.as_slice(), frame, source)
            } else {
                walk_block(snapshot, proc, second.as_slice(), frame, source)
            }
        }
        CodeStmt::Repeat(repeat) => walk_repeat(snapshot, proc, repeat, frame, source),
    }
}

/// Walks over statements in a row.
#[cycle(walk)]
fn walk_block(
    snapshot: &Snapshot,
    proc: ProcId,
    block: &[CodeStmt],
    frame: &mut Frame,
    source: &mut Source,
) -> Walked
    requires proc { proc.0 < length (procs_of snapshot.now) }
    requires calls { (n : ℕ) → BlockHelps (block_of block.now) n → n < proc.0 }
    ensures { WalksAll (tree_of snapshot.now) proc.0 (block_of block.now) frame.old frame.new source.old source.new result }
{
    for stmt in block {
        match walk_stmt(snapshot, proc, stmt, frame, source) {
            Walked::Next => {}
            other => return other,
        }
    }
    Walked::Next
}

/// The number of turns of a loop of this bound.
fn turns_of(bound: i64) -> u64
    ensures { result ≡ turns_of bound }
{
    if bound > 0 { bound as u64 } else { 0 }
}

/// Walks over the turns of a loop.
#[cycle(walk)]
fn walk_repeat(
    snapshot: &Snapshot,
    proc: ProcId,
    repeat: &CodeRepeat,
    frame: &mut Frame,
    source: &mut Source,
) -> Walked
    requires proc { proc.0 < length (procs_of snapshot.now) }
    requires calls { (n : ℕ) → BlockHelps (block_of repeat.now.body) n → n < proc.0 }
    ensures { Walks (tree_of snapshot.now) proc.0 (loop repeat.now.index repeat.now.slot repeat.now.bound repeat.now.cap repeat.now.site (block_of repeat.now.body)) frame.old frame.new source.old source.new result }
{
    let bound = value(frame, repeat.bound);
    if bound > repeat.cap {
        return Walked::Fail(SiteId {
            proc,
            index: repeat.site,
        });
    }
    for i in 0..turns_of(bound) {
        frame[repeat.index.0 as usize] = i as i64;
        match walk_block(snapshot, proc, repeat.body.as_slice(), frame, source) {
            Walked::Next => {}
            other => return other,
        }
    }
    Walked::Next
}

/// Walks over a procedure, which starts with this frame.
#[cycle(walk)]
pub(crate) fn walk_proc(snapshot: &Snapshot, proc: ProcId, own: Frame, source: &mut Source) -> Ended
    requires { proc.0 < length (procs_of snapshot.now) }
    ensures { WalksProc (tree_of snapshot.now) proc.0 own source.old source.new result }
{
    let code = snapshot.code(proc);
    let mut frame = own;
    match walk_block(snapshot, proc, code.block.as_slice(), &mut frame, source) {
        Walked::Next => Ended::Done(value(&frame, code.result)),
        Walked::Fail(site) => Ended::Fail(site),
        Walked::Stopped => Ended::Stopped,
    }
}
