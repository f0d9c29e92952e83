//! Commands to all volumes: disks, ticks and restarts.

ghost use Rattle.std.specs.Prelude.{◌≡◌, is_some};
ghost use Rattle.cluster_admin.specs.Disks.{disk_at};
ghost use Rattle.cluster_admin.specs.Inside.{state_of};
ghost use Rattle.cluster_store.specs.Store.{IsStore, over};
ghost use Rattle.cluster_store.specs.Lines.{plan_of, disk_refusal, disks_refused};
ghost use Rattle.cluster_store.specs.Asking.{Played};
ghost use Rattle.cluster_store.specs.declared.command.Command.TheVariants as commands;

use crate::asking::unless_refused;
use crate::reply::{Refusal, Reply};
use crate::store::Store;
use cluster_admin::AdminFault;
use disk_base::Farm;
use volume_turns::VolumeCommand;
use volume_world::StepFault;

/// Why the tables refuse a number of disks; want of memory is no refusal.
fn disks_refused(fault: AdminFault) -> Option<Refusal>
    ensures { result ≡ disks_refused fault }
{
    match fault {
        AdminFault::DisksGiven { have } => Some(Refusal::Given { have }),
        AdminFault::LimitDisks => Some(Refusal::Limit),
        _ => None,
    }
}

/// Why the tables refuse a disk.
fn disk_refusal(fault: AdminFault) -> Refusal
    ensures { result ≡ disk_refusal fault }
{
    match fault {
        AdminFault::BadState { state } => Refusal::BadState { state },
        _ => Refusal::NoDisk,
    }
}

impl<F: Farm> Store<F> {
    /// Gives the store its disks.
    pub fn set_disks(&mut self, count: u32) -> Result<Reply, StepFault>
        requires sound { IsStore (over (state_of self.old.admin) self.old.volumes.items) }
        ensures played { Played F.Disk.seen F.Disk.File.seen (plan_of (state_of self.old.admin) (commands.Disks count)) (over (state_of self.old.admin) self.old.volumes.items) (over (state_of self.new.admin) self.new.volumes.items) result }
    {
        let fault = match self.admin.set_disks(count) {
            Ok(()) => return Ok(Reply::Disks),
            Err(fault) => fault,
        };
        match disks_refused(fault) {
            Some(cause) => Ok(Reply::Refused { cause }),
            None => Err(StepFault::Memory),
        }
    }

    /// Whether there is such a disk.
    pub(crate) fn has_disk(&self, disk: u32) -> bool
        ensures { result ≡ is_some (disk_at (state_of self.now.admin).disks disk) }
    {
        self.admin.state(disk).is_ok()
    }

    /// Each clock goes on.
    pub fn tick(&mut self, by: u32) -> Result<Reply, StepFault>
        requires sound { IsStore (over (state_of self.old.admin) self.old.volumes.items) }
        ensures played { Played F.Disk.seen F.Disk.File.seen (plan_of (state_of self.old.admin) (commands.Tick by)) (over (state_of self.old.admin) self.old.volumes.items) (over (state_of self.new.admin) self.new.volumes.items) result }
    {
        let first = self.ask_each(&VolumeCommand::Tick { by })?;
        Ok(unless_refused(Reply::Ticked, first))
    }

    /// A disk breaks in each volume.
    pub fn break_disk(&mut self, disk: u32) -> Result<Reply, StepFault>
        requires sound { IsStore (over (state_of self.old.admin) self.old.volumes.items) }
        ensures played { Played F.Disk.seen F.Disk.File.seen (plan_of (state_of self.old.admin) (commands.Break disk)) (over (state_of self.old.admin) self.old.volumes.items) (over (state_of self.new.admin) self.new.volumes.items) result }
    {
        match self.admin.break_disk(disk) {
            Ok(()) => {}
            Err(fault) => {
                return Ok(Reply::Refused {
                    cause: disk_refusal(fault),
                });
            }
        }
        let first = self.ask_each(&VolumeCommand::Break { disk })?;
        Ok(unless_refused(Reply::Broken, first))
    }

    /// The stations of a disk start anew.
    pub fn restart(&mut self, disk: u32) -> Result<Reply, StepFault>
        requires sound { IsStore (over (state_of self.old.admin) self.old.volumes.items) }
        ensures played { Played F.Disk.seen F.Disk.File.seen (plan_of (state_of self.old.admin) (commands.Restart disk)) (over (state_of self.old.admin) self.old.volumes.items) (over (state_of self.new.admin) self.new.volumes.items) result }
    {
        if !self.has_disk(disk) {
            return Ok(Reply::Refused {
                cause: Refusal::NoDisk,
            });
        }
        let first = self.ask_each(&VolumeCommand::Restart { disk })?;
        Ok(unless_refused(Reply::Restarted, first))
    }

    /// The managers' logs start anew.
    pub fn restart_manager(&mut self) -> Result<Reply, StepFault>
        requires sound { IsStore (over (state_of self.old.admin) self.old.volumes.items) }
        ensures played { Played F.Disk.seen F.Disk.File.seen (plan_of (state_of self.old.admin) commands.RestartManager) (over (state_of self.old.admin) self.old.volumes.items) (over (state_of self.new.admin) self.new.volumes.items) result }
    {
        let first = self.ask_each(&VolumeCommand::RestartManager)?;
        Ok(unless_refused(Reply::RestartedManager, first))
    }
}
