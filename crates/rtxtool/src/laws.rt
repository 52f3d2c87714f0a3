//! Laws on command lines. These functions compute nothing: their contracts are the laws.
ghost use Rattle.std.specs.Prelude.{◌≡◌, ◌≢◌, ℕ, List, [], ◌∷◌, Some, codes, true};
ghost use Rattle.clap.specs.Words.{takes};
ghost use Rattle.rtxtool.specs.CommandLine.{Shows, Sims, asked, tool};

/// The words `rtxtool sim FILE` and `rtxtool show FILE` are taken and name that FILE, where it does not begin with a hyphen
/// (45); so are the words `rtxtool sim -` and `rtxtool show -`.
pub fn command_lines_are_read()
    ensures sim { (name : List ℕ) (c : ℕ) (rest : List ℕ) → c ≢ 45 → asked (name ∷ codes "sim" ∷ (c ∷ rest) ∷ []) ≡ Some (Sims (c ∷ rest)) }
    ensures sim_taken { (name : List ℕ) (c : ℕ) (rest : List ℕ) → c ≢ 45 → takes tool (name ∷ codes "sim" ∷ (c ∷ rest) ∷ []) ≡ true }
    ensures sim_hyphen { (name : List ℕ) → asked (name ∷ codes "sim" ∷ codes "-" ∷ []) ≡ Some (Sims (codes "-")) }
    ensures sim_hyphen_taken { (name : List ℕ) → takes tool (name ∷ codes "sim" ∷ codes "-" ∷ []) ≡ true }
    ensures show { (name : List ℕ) (c : ℕ) (rest : List ℕ) → c ≢ 45 → asked (name ∷ codes "show" ∷ (c ∷ rest) ∷ []) ≡ Some (Shows (c ∷ rest)) }
    ensures show_taken { (name : List ℕ) (c : ℕ) (rest : List ℕ) → c ≢ 45 → takes tool (name ∷ codes "show" ∷ (c ∷ rest) ∷ []) ≡ true }
    ensures show_hyphen { (name : List ℕ) → asked (name ∷ codes "show" ∷ codes "-" ∷ []) ≡ Some (Shows (codes "-")) }
    ensures show_hyphen_taken { (name : List ℕ) → takes tool (name ∷ codes "show" ∷ codes "-" ∷ []) ≡ true }
{}
