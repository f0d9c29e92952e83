//! The eight code modes.

ghost use Rattle.std.specs.Prelude.{ℕ, ◌≡◌, ◌≤◌, IfSome, Some};
ghost use Rattle.code_mode.specs.Mode.{mode_name, data_count, parity_count, total_count, put_quorum, sight, shard_size, HasSoundNumbers};
ghost use Rattle.code_mode.specs.VolumeShape.{IsVolumeShape, volume_shape};
ghost use Rattle.code_mode.specs.declared.mode.Mode.{Mode};

/// How a blob is cut into data and parity shards. `EcNpM` has N data and M parity shards.
#[derive(Clone, Copy, Debug, PartialEq, Eq)]
pub enum Mode {
    Ec3P3,
    Ec6P3,
    Ec6P6,
    Ec10P4,
    Ec12P4,
    Ec12P9,
    Ec16P4,
    Ec15P12,
}

/// No shard is shorter than this, in bytes.
const LEAST_SHARD: u32 = 2048;

impl Mode {
    /// The mode that a script writes by this name.
    pub fn read_name(name: &str) -> Option<Mode>
        ensures named { (mode : Mode) → name.now ≡ mode_name mode → result ≡ Some mode }
        ensures only { IfSome result (λ mode. name.now ≡ mode_name mode) }
    {
        match name {
            "EC3P3" => Some(Mode::Ec3P3),
            "EC6P3" => Some(Mode::Ec6P3),
            "EC6P6" => Some(Mode::Ec6P6),
            "EC10P4" => Some(Mode::Ec10P4),
            "EC12P4" => Some(Mode::Ec12P4),
            "EC12P9" => Some(Mode::Ec12P9),
            "EC16P4" => Some(Mode::Ec16P4),
            "EC15P12" => Some(Mode::Ec15P12),
            _ => None,
        }
    }

    /// How a script writes this mode.
    pub fn name(self) -> &'static str
        ensures { result.now ≡ mode_name self }
    {
        match self {
            Mode::Ec3P3 => "EC3P3",
            Mode::Ec6P3 => "EC6P3",
            Mode::Ec6P6 => "EC6P6",
            Mode::Ec10P4 => "EC10P4",
            Mode::Ec12P4 => "EC12P4",
            Mode::Ec12P9 => "EC12P9",
            Mode::Ec16P4 => "EC16P4",
            Mode::Ec15P12 => "EC15P12",
        }
    }

    /// The number of data shards.
    pub fn n(self) -> u32
        ensures value { result ≡ data_count self }
        ensures bounds { (3 ≤ result) × (result ≤ 16) }
    {
        match self {
            Mode::Ec3P3 => 3,
            Mode::Ec6P3 | Mode::Ec6P6 => 6,
            Mode::Ec10P4 => 10,
            Mode::Ec12P4 | Mode::Ec12P9 => 12,
            Mode::Ec16P4 => 16,
            Mode::Ec15P12 => 15,
        }
    }

    /// The number of parity shards.
    pub fn m(self) -> u32
        ensures value { result ≡ parity_count self }
        ensures bounds { (3 ≤ result) × (result ≤ 12) }
    {
        match self {
            Mode::Ec3P3 | Mode::Ec6P3 => 3,
            Mode::Ec6P6 => 6,
            Mode::Ec10P4 | Mode::Ec12P4 | Mode::Ec16P4 => 4,
            Mode::Ec12P9 => 9,
            Mode::Ec15P12 => 12,
        }
    }

    /// The number of all shards of a blob, and of the units of a volume.
    pub fn total(self) -> u32
        ensures value { result ≡ total_count self }
        ensures bounds { (6 ≤ result) × (result ≤ 27) }
    {
        self.n() + self.m()
    }

    /// How many units must accept a put before it is acknowledged.
    pub fn quorum(self) -> u32
        ensures value { result ≡ put_quorum self }
        ensures bounds { (5 ≤ result) × (result ≤ 24) }
    {
        match self {
            Mode::Ec3P3 => 5,
            Mode::Ec6P3 => 8,
            Mode::Ec6P6 => 11,
            Mode::Ec10P4 => 13,
            Mode::Ec12P4 => 15,
            Mode::Ec12P9 => 20,
            Mode::Ec16P4 => 19,
            Mode::Ec15P12 => 24,
        }
    }

    /// How many units must be listed to see each acknowledged blob: so many that, without those that a
    /// put may have missed, enough are left to read it.
    pub fn sight(self) -> u32
        ensures value { result ≡ sight self }
        ensures bounds { (4 ≤ result) × (result ≤ 18) }
    {
        self.total() - (self.quorum() - self.n())
    }

    /// The length in bytes of each shard of a blob of `size` bytes: the Nth part of it rounded up, and
    /// never below 2,048.
    pub fn shard_size(self, size: u32) -> u32
        ensures { result ≡ shard_size self size }
    {
        size.div_ceil(self.n()).max(LEAST_SHARD)
    }
}

/// What the numbers of all modes have in common.
pub fn mode_numbers()
    ensures { (mode : Mode) → HasSoundNumbers mode }
{}

/// The numbers of a volume of any mode fit together, on any number of disks.
pub fn mode_shapes()
    ensures { (mode : Mode) (disks : ℕ) → IsVolumeShape (volume_shape mode disks) }
{}
