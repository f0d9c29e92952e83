//! What a put carries.

ghost use Rattle.std.specs.Prelude.{ℕ, ◌≡◌, ◌<◌, ◌^◌, ◌/◌, map, length, slice_index, IfOk};
ghost use Rattle.std.specs.List.{range_with_len};
ghost use Rattle.code_mode.specs.Payload.{next_state, fill_state, fill_byte, payload_bytes};
ghost use Rattle.code_mode.specs.declared.payload.Payload.TheVariants.{Fill};

use disk_base::NoMemory;
use std::alloc::{AllocError, Global};
use unit_id::Bytes;

/// The bytes of a put: written out, or made by the fill generator.
#[derive(Drop)]
pub enum Payload {
    /// These bytes.
    Plain(Bytes),
    /// `len` bytes of the generator that starts at `seed`.
    Fill { seed: u64, len: u32 },
}

/// The generator is the linear congruential one of 64 bits with Knuth's factors; a byte is the top
/// eight bits of a state.
const FACTOR: u64 = 6364136223846793005;

const SUMMAND: u64 = 1442695040888963407;

fn next_state(state: u64) -> u64
    ensures { result ≡ next_state state }
{
    state.wrapping_mul(FACTOR).wrapping_add(SUMMAND)
}

fn top_byte(state: u64) -> u8
    ensures { result ≡ state / 2 ^ 56 }
{
    (state >> 56) as u8
}

/// Fill byte `k`. Its time grows with `k`.
fn fill_byte(seed: u64, k: u32) -> u8
    ensures { result ≡ fill_byte seed k }
{
    let mut state = seed;
    'steps: for _ in 0..k {
        state = next_state(state);
    }
    top_byte(next_state(state))
}

/// The first `len` fill bytes, in one pass.
fn fill_bytes(alloc: Global, seed: u64, len: u32) -> Result<Vec<u8>, AllocError>
    ensures { IfOk result (λ bytes. bytes.items ≡ map (fill_byte seed) (range_with_len 0 len)) }
{
    let mut bytes = Vec::with_capacity(alloc, len as usize)?;
    let mut state = seed;
    'bytes: for _ in 0..len {
        state = next_state(state);
        bytes.push(top_byte(state))?;
    }
    Ok(bytes)
}

impl Payload {
    /// How many bytes there are.
    pub fn len(&self) -> u32
        requires { length (payload_bytes self.now) < 2 ^ 32 }
        ensures { result ≡ length (payload_bytes self.now) }
    {
        match self {
            Payload::Plain(bytes) => bytes.len() as u32,
            Payload::Fill { len, .. } => *len,
        }
    }

    /// Byte `k`, counted from 0. Of a fill payload it takes as many steps as `k` says: take `bytes`
    /// where all are wanted.
    pub fn at(&self, k: u32) -> u8
        requires short { length (payload_bytes self.now) < 2 ^ 32 }
        requires within { k < length (payload_bytes self.now) }
        ensures value { result ≡ slice_index (payload_bytes self.now) k }
        ensures fill { (seed len : ℕ) → self.now ≡ Fill seed len → result ≡ fill_byte seed k }
    {
        match self {
            Payload::Plain(bytes) => bytes.as_slice()[k as usize],
            Payload::Fill { seed, .. } => fill_byte(*seed, k),
        }
    }

    /// All bytes, in order.
    pub fn bytes(&self, alloc: Global) -> Result<Bytes, NoMemory>
        ensures { IfOk result (λ bytes. bytes ≡ payload_bytes self.now) }
    {
        match self {
            Payload::Plain(bytes) => Ok(Bytes::from_vec(bytes.as_slice().to_vec(alloc)?)),
            Payload::Fill { seed, len } => Ok(Bytes::from_vec(fill_bytes(alloc, *seed, *len)?)),
        }
    }
}
