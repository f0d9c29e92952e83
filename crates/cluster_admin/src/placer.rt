//! How a disk is chosen among options.

ghost use Rattle.std.specs.Prelude.{◌≡◌, ◌<◌, ◌∷◌, [], List, ℕ, length};
ghost use Rattle.cluster_admin.specs.Placing.{first_plan, least_plan, turn_plan, least_place};
ghost use Rattle.cluster_admin.specs.declared.placer.Place.{Place};

/// A disk that may be chosen, and how many units of all volumes stand on it.
#[derive(Clone, Copy, Debug, PartialEq, Eq)]
pub struct Place {
    pub disk: u32,
    pub units: u64,
}

/// Chooses a disk among options.
pub trait Placer: Drop {
    /// Which option it takes of the last list, after it was shown those before.
    ghost plan: { Self → List (List Place) → ℕ };

    /// The place of the option that it takes. From then on it has been shown these options too.
    fn choose(&mut self, options: &[Place]) -> usize
        requires { 0 < length options.now }
        ensures within { result < length options.now }
        ensures picked { result ≡ plan self.old (options.now ∷ []) }
        ensures moved { (list : List Place) (later : List (List Place)) →
            plan self.new (list ∷ later) ≡ plan self.old (options.now ∷ list ∷ later) };
}

/// Takes the first option.
#[derive(Drop)]
pub struct First {}

impl First {
    /// It has no state.
    pub fn new() -> First
        ensures { ⟦<First as Placer>⟧.plan result ≡ first_plan }
    {
        First {}
    }
}

impl Placer for First {
    ghost plan = { λ _. first_plan };

    fn choose(&mut self, _options: &[Place]) -> usize {
        0
    }
}

/// Takes the first of the options with the fewest units.
#[derive(Drop)]
pub struct Least {}

impl Least {
    /// It has no state.
    pub fn new() -> Least
        ensures { ⟦<Least as Placer>⟧.plan result ≡ least_plan }
    {
        Least {}
    }
}

/// The place of the first option with the fewest units.
fn least_place(options: &[Place]) -> usize
    requires { 0 < length options.now }
    ensures within { result < length options.now }
    ensures picked { result ≡ least_place options.now }
{
    let mut least = 0;
    let mut units = options[0].units;
    for (place, option) in options.iter().enumerate() {
        if option.units < units {
            least = place;
            units = option.units;
        }
    }
    least
}

impl Placer for Least {
    ghost plan = { λ _. least_plan };

    fn choose(&mut self, options: &[Place]) -> usize {
        least_place(options)
    }
}

/// How many turns there are before they begin anew.
const TURNS: usize = 64;

/// Takes the option of its turn, counted round the options, and then has the next turn.
#[derive(Drop)]
pub struct Turns {
    turn: usize,
    ghost in_range: { turn < 64 },
}

impl Turns {
    /// With the first turn, 0.
    pub fn new() -> Turns
        ensures { ⟦<Turns as Placer>⟧.plan result ≡ turn_plan 0 }
    {
        Turns { turn: 0 }
    }
}

impl Placer for Turns {
    ghost plan = { λ it. turn_plan it.turn };

    fn choose(&mut self, options: &[Place]) -> usize {
        let pick = self.turn % options.len();
        self.turn = (self.turn + 1) % TURNS;
        pick
    }
}
