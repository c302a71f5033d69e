//! What the definitions entail. Each law is a function with an empty body, and its contract is the law.
ghost use Rattle.std.specs.Prelude.{◌≡◌, List, [], ◌∷◌, ◌++◌, codes, Some, None, true, false};
ghost use Rattle.std.specs.Option.{option_map};
ghost use Rattle.btr_words.specs.declared.command.Command.TheVariants.{Ask, Check, Checkpoint, Distil, Format, Live, LiveGroups, Load};
ghost use Rattle.btr_words.specs.declared.command.Command.TheVariants.{Hear, Seal, Serve, ServeRead, Ship};
ghost use Rattle.btr_words.specs.Words.{Text, command_of, number_of, loaded, sampled};

/// The words of `ask`, with its flag and without. The flag is there at most once, and has no text.
pub fn commands_of_questions_are_these()
    ensures none { command_of [] ≡ None }
    ensures ask { command_of (codes "ask" ∷ []) ≡ Some (Ask false) }
    ensures cold { command_of (codes "ask" ∷ codes "--cold" ∷ []) ≡ Some (Ask true) }
    ensures twice { command_of (codes "ask" ∷ codes "--cold" ∷ codes "--cold" ∷ []) ≡ None }
    ensures alone { (t : Text) → command_of (codes "ask" ∷ (codes "--cold=" ++ t) ∷ []) ≡ None }
{}

/// The words of each other command that has no flag and reads no rows, each option written as two words.
pub fn commands_are_these()
    ensures checkpoint { command_of (codes "checkpoint" ∷ []) ≡ Some Checkpoint }
    ensures seal { command_of (codes "seal" ∷ []) ≡ Some Seal }
    ensures check { command_of (codes "check" ∷ []) ≡ Some Check }
    ensures format { (n : Text) → command_of (codes "format" ∷ codes "--blocks" ∷ n ∷ [])
        ≡ option_map (λ k. Format k) (number_of 8 4294967296 n) }
    ensures distil { command_of (codes "distil" ∷ []) ≡ Some (Distil 1) }
    ensures workers { (k : Text) → command_of (codes "distil" ∷ codes "--workers" ∷ k ∷ [])
        ≡ option_map (λ n. Distil n) (number_of 1 16 k) }
{}

/// The words of `live`, its option written as two words. Its flag is before or after the option, once, and has no text.
pub fn commands_with_a_flag_are_these()
    ensures live { command_of (codes "live" ∷ []) ≡ Some (Live 4096 false) }
    ensures batch { (b : Text) → command_of (codes "live" ∷ codes "--batch" ∷ b ∷ [])
        ≡ option_map (λ n. Live n false) (number_of 1 65536 b) }
    ensures materialize { command_of (codes "live" ∷ codes "--materialize" ∷ []) ≡ Some (Live 4096 true) }
    ensures first { (b : Text) → command_of (codes "live" ∷ codes "--materialize" ∷ codes "--batch" ∷ b ∷ [])
        ≡ option_map (λ n. Live n true) (number_of 1 65536 b) }
    ensures last { (b : Text) → command_of (codes "live" ∷ codes "--batch" ∷ b ∷ codes "--materialize" ∷ [])
        ≡ option_map (λ n. Live n true) (number_of 1 65536 b) }
    ensures twice { command_of (codes "live" ∷ codes "--materialize" ∷ codes "--materialize" ∷ []) ≡ None }
    ensures alone { (t : Text) → command_of (codes "live" ∷ (codes "--materialize=" ++ t) ∷ []) ≡ None }
{}

/// The words of `live` with shared buffers, each option written as two words. Its flag is before or after the option. `--group` and
/// `--batch` do not go together.
pub fn commands_with_groups_are_these()
    ensures group { (b : Text) → command_of (codes "live" ∷ codes "--group" ∷ b ∷ [])
        ≡ option_map (λ n. LiveGroups n false) (number_of 1 65536 b) }
    ensures first { (b : Text) → command_of (codes "live" ∷ codes "--materialize" ∷ codes "--group" ∷ b ∷ [])
        ≡ option_map (λ n. LiveGroups n true) (number_of 1 65536 b) }
    ensures last { (b : Text) → command_of (codes "live" ∷ codes "--group" ∷ b ∷ codes "--materialize" ∷ [])
        ≡ option_map (λ n. LiveGroups n true) (number_of 1 65536 b) }
    ensures twice { (b n : Text) → command_of (codes "live" ∷ codes "--group" ∷ b ∷ codes "--group" ∷ n ∷ []) ≡ None }
    ensures batch_first { (b n : Text) → command_of (codes "live" ∷ codes "--batch" ∷ b ∷ codes "--group" ∷ n ∷ []) ≡ None }
    ensures batch_last { (b n : Text) → command_of (codes "live" ∷ codes "--group" ∷ b ∷ codes "--batch" ∷ n ∷ []) ≡ None }
{}

/// The words of `load`, each option written as two words, and those of `sample`.
pub fn commands_of_rows_are_these()
    ensures load { command_of (codes "load" ∷ []) ≡ Some (Load 1 4096) }
    ensures workers { (k : Text) → command_of (codes "load" ∷ codes "--workers" ∷ k ∷ [])
        ≡ option_map (λ n. Load n 4096) (number_of 1 16 k) }
    ensures batch { (b : Text) → command_of (codes "load" ∷ codes "--batch" ∷ b ∷ [])
        ≡ option_map (λ n. Load 1 n) (number_of 1 65536 b) }
    ensures both { (k b : Text) → command_of (codes "load" ∷ codes "--workers" ∷ k ∷ codes "--batch" ∷ b ∷ [])
        ≡ loaded (number_of 1 16 k) (number_of 1 65536 b) }
    ensures either_order { (k b : Text) → command_of (codes "load" ∷ codes "--batch" ∷ b ∷ codes "--workers" ∷ k ∷ [])
        ≡ loaded (number_of 1 16 k) (number_of 1 65536 b) }
    ensures twice { (k n : Text) → command_of (codes "load" ∷ codes "--workers" ∷ k ∷ codes "--workers" ∷ n ∷ []) ≡ None }
    ensures sample { (n s p : Text) → command_of (codes "sample" ∷ n ∷ s ∷ p ∷ [])
        ≡ sampled (number_of 0 2147483647 n) (number_of 1 1000 s) (number_of 1 1000000 p) }
{}

/// The words of the commands of frames: `ship` has one number, and `hear` has nothing.
pub fn commands_of_frames_are_these()
    ensures ship { (n : Text) → command_of (codes "ship" ∷ n ∷ [])
        ≡ option_map (λ k. Ship k) (number_of 1 18446744073709551615 n) }
    ensures ship_alone { command_of (codes "ship" ∷ []) ≡ None }
    ensures hear { command_of (codes "hear" ∷ []) ≡ Some Hear }
{}

/// The words of `serve`, each option written as two words. `--read` and `--batch` do not go together.
pub fn commands_of_serving_are_these()
    ensures serve { command_of (codes "serve" ∷ []) ≡ Some (Serve 4096) }
    ensures batch { (b : Text) → command_of (codes "serve" ∷ codes "--batch" ∷ b ∷ [])
        ≡ option_map (λ n. Serve n) (number_of 1 65536 b) }
    ensures read { command_of (codes "serve" ∷ codes "--read" ∷ []) ≡ Some ServeRead }
    ensures read_first { (b : Text) → command_of (codes "serve" ∷ codes "--read" ∷ codes "--batch" ∷ b ∷ []) ≡ None }
    ensures read_last { (b : Text) → command_of (codes "serve" ∷ codes "--batch" ∷ b ∷ codes "--read" ∷ []) ≡ None }
    ensures twice { command_of (codes "serve" ∷ codes "--read" ∷ codes "--read" ∷ []) ≡ None }
    ensures alone { (t : Text) → command_of (codes "serve" ∷ (codes "--read=" ++ t) ∷ []) ≡ None }
{}
