//! What a run keeps between its lines: the disks, the volume and the objects.

ghost use Rattle.std.specs.Prelude.{◌≡◌, ◌<◌, ◌≤◌, ◌+◌, ◌^◌, ◌∷◌, ◌++◌, [], length, is_some, OnOk, OnErr, IfOk, Some, None};
ghost use Rattle.node_runner.specs.Session.{bytes_of, size_of, largest_object, named, fresh, pasts_of, Answers, disks_refusal, volume_refusal, put_refusal};
ghost use Rattle.node_runner.specs.declared.command.Command.TheVariants as commands;

use crate::command::{Body, Command};
use crate::reply::{LineReply, Refusal};
use crate::session::{Past, Pasts};
use crate::volume::Volume;
use code_mode::{BLOB_LIMIT, Mode, Payload};
use disk_base::NoMemory;
use std::alloc::Global;
use std::marker::Model;
use unit_id::Bytes;

/// The most disks that a store has.
const MOST_DISKS: u32 = 64;

/// The most bytes of an object, which is one blob.
const LARGEST_OBJECT: u64 = BLOB_LIMIT as u64;

/// The number of the one volume.
const FIRST_VOLUME: u32 = 1;

/// What the commands so far have made. It stands for the state of a session.
#[derive(Drop)]
pub struct Store {
    alloc: Global,
    disks: Option<u32>,
    volume: Option<Volume>,
    /// What is to be handed out of the volume. Its room is taken before the volume is made.
    pasts: Vec<Past>,
}

impl Model for Store {
    ghost use Rattle.node_runner.specs.Session.{State};

    ghost Value = { State };

    ghost use Rattle.node_runner.specs.StoreInside.{state_of, HasPasts};

    ghost view = { state_of };

    ghost invariant = { HasPasts };
}

/// How many bytes a put carries.
fn size_of(body: &Body) -> u64
    ensures { result ≡ size_of body.now }
{
    match body {
        Body::Plain(bytes) => bytes.len() as u64,
        Body::Fill { seed: _, len } => *len,
    }
}

/// The bytes that a put carries.
fn bytes_of(alloc: Global, body: Body) -> Result<Bytes, NoMemory>
    requires { size_of body ≤ largest_object }
    ensures bytes { IfOk result (λ bytes. bytes ≡ bytes_of body) }
    ensures size { IfOk result (λ bytes. length bytes ≡ size_of body) }
{
    match body {
        Body::Plain(bytes) => Ok(bytes),
        Body::Fill { seed, len } => Payload::Fill {
            seed,
            len: len as u32,
        }
        .bytes(alloc),
    }
}

/// A refusal of a command.
fn refused(command: Command, cause: Refusal) -> LineReply
    ensures { result ≡ LineReply.Refused command cause }
{
    LineReply::Refused { command, cause }
}

impl Store {
    /// What a run begins with. Takes no memory.
    pub fn make(alloc: Global) -> Store
        ensures { result ≡ fresh }
    {
        Store {
            alloc,
            disks: None,
            volume: None,
            pasts: Vec::new(alloc),
        }
    }

    /// Why this many disks aren't taken.
    fn disks_refusal(&self, count: u32) -> Option<Refusal>
        ensures { result ≡ disks_refusal self.now count }
    {
        match self.disks {
            Some(have) => Some(Refusal::Given { have }),
            None if count == 0 || count > MOST_DISKS => Some(Refusal::Limit),
            None => None,
        }
    }

    /// Why a volume of this mode isn't made.
    fn volume_refusal(&self, mode: Mode) -> Option<Refusal>
        ensures { result ≡ volume_refusal self.now mode }
    {
        let have = self.disks.unwrap_or(0);
        let need = mode.total();
        if self.volume.is_some() {
            Some(Refusal::Limit)
        } else if have < need {
            Some(Refusal::FewDisks { have, need })
        } else {
            None
        }
    }

    /// Whether an object has this name.
    fn has(&self, name: &[u8]) -> bool
        ensures { result ≡ is_some (named self.now name.now) }
    {
        match &self.volume {
            Some(volume) => volume.has(name),
            None => false,
        }
    }

    /// Why an object of this name and size isn't put.
    fn put_refusal(&self, name: &[u8], size: u64) -> Option<Refusal>
        ensures { result ≡ put_refusal self.now name.now size }
    {
        if size == 0 {
            Some(Refusal::Empty)
        } else if size > LARGEST_OBJECT {
            Some(Refusal::TooLarge)
        } else if self.has(name) {
            Some(Refusal::NameTaken)
        } else if self.volume.is_none() {
            Some(Refusal::NoVolume)
        } else {
            None
        }
    }

    /// `disks D`
    fn disks(&mut self, count: u32) -> LineReply
        ensures { Answers self.old (commands.Disks count) result self.new }
    {
        match self.disks_refusal(count) {
            Some(cause) => refused(Command::Disks { count }, cause),
            None => {
                self.disks = Some(count);
                LineReply::Disks { count }
            }
        }
    }

    /// `volume MODE`
    fn volume(&mut self, mode: Mode) -> Result<LineReply, NoMemory>
        ensures reply { IfOk result (λ reply. Answers self.old (commands.Volume mode) reply self.new) }
        ensures err { OnErr result (self.new ≡ self.old) }
    {
        match self.volume_refusal(mode) {
            Some(cause) => Ok(refused(Command::Volume { mode }, cause)),
            None => {
                self.pasts.reserve(1)?;
                let volume = Volume::make(self.alloc, mode)?;
                self.pasts.push_reserved(Past { vid: FIRST_VOLUME });
                self.volume = Some(volume);
                Ok(LineReply::Volume {
                    vid: FIRST_VOLUME,
                    mode,
                })
            }
        }
    }

    /// `put NAME`, with what it carries
    fn put(&mut self, name: Bytes, body: Body) -> Result<LineReply, NoMemory>
        ensures reply { IfOk result (λ reply. Answers self.old (commands.Put name body) reply self.new) }
        ensures err { OnErr result (self.new ≡ self.old) }
    {
        let size = size_of(&body);
        if let Some(cause) = self.put_refusal(name.as_slice(), size) {
            return Ok(refused(Command::Put { name, body }, cause));
        }
        match &mut self.volume {
            Some(volume) => {
                let bytes = bytes_of(self.alloc, body)?;
                let bid = volume.put(name.as_slice(), bytes.as_slice())?;
                Ok(LineReply::Put {
                    name,
                    vid: FIRST_VOLUME,
                    bid,
                    size: size as u32,
                })
            }
            None => unreachable!(),
        }
    }

    /// `get NAME`
    fn get(&mut self, name: Bytes) -> Result<LineReply, NoMemory>
        ensures reply { IfOk result (λ reply. Answers self.old (commands.Get name) reply self.new) }
        ensures err { OnErr result (self.new ≡ self.old) }
    {
        let found = match &mut self.volume {
            Some(volume) => volume.get(name.as_slice())?,
            None => None,
        };
        match found {
            Some(bytes) => Ok(LineReply::Got { name, bytes }),
            None => Ok(refused(Command::Get { name }, Refusal::NoName)),
        }
    }

    /// Does a command, and answers its reply.
    pub fn answer(&mut self, command: Command) -> Result<LineReply, NoMemory>
        ensures reply { IfOk result (λ reply. Answers self.old command reply self.new) }
        ensures err { OnErr result (self.new ≡ self.old) }
    {
        match command {
            Command::Disks { count } => Ok(self.disks(count)),
            Command::Volume { mode } => self.volume(mode),
            Command::Put { name, body } => self.put(name, body),
            Command::Get { name } => self.get(name),
        }
    }
    /// The volumes that were made. Takes no memory.
    pub fn into_pasts(self) -> Pasts
        ensures { result ≡ pasts_of self }
    {
        Pasts::from_vec(self.pasts)
    }
}
