//! What holds of every file of a log.

ghost use Rattle.std.specs.Prelude.{◌≡◌, ◌≢◌, ◌+◌, ◌≤◌, ◌++◌, ◌∷◌, [], ℕ, List, length, take};
ghost use Rattle.disk_base.specs.Disk.{overwritten};
ghost use Rattle.gate_log.specs.LogFile.{longest_body, end_place, IsAtRest, IsStaged};

/// Behind a closed gate anything may stand: a file that has the same bytes up to the gate and is no shorter
/// is at rest with the same bodies.
pub fn nothing_counts_behind_a_closed_gate()
    ensures { (file image : List ℕ) (bodies : List (List ℕ)) → IsAtRest file bodies →
        take (end_place bodies + 1) image ≡ take (end_place bodies + 1) file → length file ≤ length image → IsAtRest image bodies }
{}

/// Where the record of a body stands whole behind the gate, the gate byte 1 adds the body to the list, and no
/// other byte does.
pub fn the_gate_alone_adds_a_body()
    ensures one { (file : List ℕ) (bodies : List (List ℕ)) (body : List ℕ) → IsStaged file bodies body → 1 ≤ length body → length body ≤ longest_body →
        IsAtRest (overwritten file (end_place bodies) (1 ∷ [])) (bodies ++ body ∷ []) }
    ensures other { (file : List ℕ) (bodies : List (List ℕ)) (body : List ℕ) (gate : ℕ) → IsStaged file bodies body → 1 ≤ length body → length body ≤ longest_body →
        gate ≢ 1 → IsAtRest (overwritten file (end_place bodies) (gate ∷ [])) bodies }
{}
