ghost use Rattle.std.specs.Prelude.{None};
ghost use Rattle.vmv_edge.specs.Calls.{failed_calls};
ghost use Rattle.vmv_keeper.specs.Forms.{calls};

use std::alloc::Global;
use vmv_cases::Sheet;
use vmv_edge::Text;
use vmv_keeper::{Benches, Change, Held, KeepFault, Keeper, Kept, Label, MemoryKeeper, Submitted};

/// A store that tells nothing of its rows, notes its calls, a line for each, and says of each caller that at least so many
/// replies are kept for him, and of each project that its next submission has at least this number, both within the
/// limits. The rest it has of a store in memory, to which it adds what fits there.
#[derive(Drop)]
pub struct NotingKeeper {
    pub keeper: MemoryKeeper,
    pub replies: u32,
    pub next: u32,
    pub log: Sheet,
}

/// Notes a call with two labels.
fn note(log: &mut Sheet, name: &[u8], first: &Label, second: &Label) {
    log.put(name);
    log.put(b" ");
    log.put(first.bytes());
    log.put(b" ");
    log.line(second.bytes());
}

/// Notes a call with two labels and a number.
fn note_number(log: &mut Sheet, name: &[u8], owner: &Label, project: &Label, number: u32) {
    note(log, name, owner, project);
    log.join_line();
    log.put(b" ");
    log.show(&number);
    log.line(b"");
}

impl Keeper for NotingKeeper {
    ghost told = { λ _. None };

    ghost fault_count = { λ store. failed_calls (calls store.keeper) };

    fn projects(&mut self, alloc: Global) -> Result<Benches, KeepFault> {
        self.log.line(b"projects");
        self.keeper.projects(alloc)
    }

    fn load(
        &mut self,
        alloc: Global,
        owner: &Label,
        project: &Label,
    ) -> Result<Option<Held>, KeepFault> {
        note(&mut self.log, b"load", owner, project);
        let Some(held) = self.keeper.load(alloc, owner, project)? else {
            return Ok(None);
        };
        Ok(Some(Held {
            members: held.members,
            versions: held.versions,
            next: self.next.min(1_000_001).max(held.next),
        }))
    }

    fn text(
        &mut self,
        alloc: Global,
        owner: &Label,
        project: &Label,
        version: u32,
    ) -> Result<Option<Text>, KeepFault> {
        note_number(&mut self.log, b"text", owner, project, version);
        self.keeper.text(alloc, owner, project, version)
    }

    fn submission(
        &mut self,
        alloc: Global,
        owner: &Label,
        project: &Label,
        number: u32,
    ) -> Result<Option<Submitted>, KeepFault> {
        note_number(&mut self.log, b"submission", owner, project, number);
        self.keeper.submission(alloc, owner, project, number)
    }

    fn reply_of(
        &mut self,
        alloc: Global,
        caller: &Label,
        id: &Label,
    ) -> Result<Option<Kept>, KeepFault> {
        note(&mut self.log, b"reply_of", caller, id);
        self.keeper.reply_of(alloc, caller, id)
    }

    fn replies(&mut self, alloc: Global, caller: &Label) -> Result<u32, KeepFault> {
        self.log.put(b"replies ");
        self.log.line(caller.bytes());
        let kept = self.keeper.replies(alloc, caller)?;
        Ok(self.replies.min(100_000).max(kept))
    }

    fn commit(&mut self, alloc: Global, change: &Change) -> Result<(), KeepFault> {
        note(&mut self.log, b"commit", &change.caller, &change.id);
        if self.keeper.fits(change) {
            self.keeper.commit(alloc, change)
        } else {
            self.log.line(b"that doesn't fit");
            Ok(())
        }
    }

    fn faults(&self) -> u64 {
        self.keeper.faults()
    }
}
