//! The fates that are planned for messages.

ghost use Rattle.std.specs.Prelude.{◌≡◌, ◌++◌, [], replicate, drop, IfOk, OnOk, OnErr};
ghost use Rattle.blob_node.specs.Link.{IsDiskOf, fates_of, with_fates, next_of};

use crate::Fate;
use disk_base::NoMemory;
use std::alloc::Global;
use std::collections::VecDeque;
use std::marker::Model;

/// What is to happen to the next messages to each disk, whose numbers begin at 1.
///
/// It is seen as a list of fates by disk, the next one first.
#[derive(Drop)]
pub struct Link {
    planned: Vec<VecDeque<Fate>>,
}

impl Model for Link {
    ghost use Rattle.std.specs.Prelude.{List, map};
    ghost use Rattle.blob_node.specs.declared.fate.Fate.{Fate};

    ghost Value = { List (List Fate) };

    ghost view = { λ link. map (λ fates. fates.items) link.planned.items };
}

impl Link {
    /// A link to so many disks, on which nothing is planned.
    pub fn make(alloc: Global, disks: u32) -> Result<Link, NoMemory>
        ensures { IfOk result (λ link. link ≡ replicate disks []) }
    {
        let mut planned = Vec::new(alloc);
        for _ in 0..disks {
            planned.push(VecDeque::new(alloc))?;
        }
        Ok(Link { planned })
    }

    /// Plans so many fates behind those that are planned for the disk.
    pub fn plan(&mut self, disk: u32, fate: Fate, count: u32) -> Result<(), NoMemory>
        requires { IsDiskOf self.old disk }
        ensures planned { OnOk result (self.new ≡ with_fates self.old disk (fates_of self.old disk ++ replicate count fate)) }
        ensures err { OnErr result (self.new ≡ self.old) }
    {
        add(&mut self.planned[disk as usize - 1], fate, count as usize)
    }

    /// The next fate of a message to the disk, `Pass` where none is planned. It stays planned.
    pub fn peek(&self, disk: u32) -> Fate
        requires { IsDiskOf self.now disk }
        ensures { result ≡ next_of (fates_of self.now disk) }
    {
        match self.planned[disk as usize - 1].front() {
            Some(fate) => *fate,
            None => Fate::Pass,
        }
    }

    /// Takes the next fate of a message to the disk, `Pass` where none is planned.
    pub fn next(&mut self, disk: u32) -> Fate
        requires { IsDiskOf self.old disk }
        ensures fate { result ≡ next_of (fates_of self.old disk) }
        ensures taken { self.new ≡ with_fates self.old disk (drop 1 (fates_of self.old disk)) }
    {
        self.planned[disk as usize - 1]
            .pop_front()
            .unwrap_or(Fate::Pass)
    }
}

// Adds so many of one fate at the end.
fn add(fates: &mut VecDeque<Fate>, fate: Fate, count: usize) -> Result<(), NoMemory>
    ensures ok { OnOk result (fates.new.items ≡ fates.old.items ++ replicate count fate) }
    ensures err { OnErr result (fates.new.items ≡ fates.old.items) }
{
    fates.reserve(count)?;
    for _ in 0..count {
        fates.push_back_reserved(fate);
    }
    Ok(())
}
