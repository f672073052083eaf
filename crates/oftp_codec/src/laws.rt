//! Theorems about the octets of commands, and about streams.

ghost use Rattle.std.specs.Prelude.{◌≡◌, ◌↔◌, ◌+◌, ◌<◌, ◌≤◌, ℕ, List, ◌++◌, All, codes, length, Some, None, Ok, Err, false};
ghost use Rattle.oftp_wire.specs.declared.command.Command.{Command};
ghost use Rattle.oftp_wire.specs.declared.command.Command.TheVariants as commands;
ghost use Rattle.oftp_wire.specs.declared.fault.WireFault.{WireFault};
ghost use Rattle.oftp_codec.specs.Kinds.{command_of};
ghost use Rattle.oftp_codec.specs.Header.{frame, IsCommand};
ghost use Rattle.oftp_codec.specs.Stream.{Whole, front, head_of, NoFrame, rest_fault, Front};
ghost use Rattle.oftp_codec.specs.Spelling.{Spells, IsFit, Canon, Fault, is_data};

/// The properties of Spelling. The function does nothing; its contract is the theorem.
pub fn one_spelling()
    // The canonical octets of a command encode it.
    ensures canon { (c : Command) → IsFit c → Spells c (Canon c) }
    // No octets encode two commands.
    ensures one { (c d : Command) (octets : List ℕ) → Spells c octets → Spells d octets → c ≡ d }
    // Octets that encode a command have no fault.
    ensures free { (c : Command) (octets : List ℕ) → Spells c octets → Fault octets ≡ None }
    // `command_of`, by which other clauses say how octets are read, reads what they encode,
    ensures reads { (c : Command) (octets : List ℕ) → (command_of octets ≡ Ok c) ↔ Spells c octets }
    // and refuses all others with their first fault.
    ensures refuses { (fault : WireFault) (octets : List ℕ)
        → (command_of octets ≡ Err fault) ↔ (Fault octets ≡ Some fault) }
    // An encoding has at least one octet.
    ensures some { (c : Command) → 1 ≤ length (Canon c) }
    // Without a payload it is at most as long as SFID with the longest description.
    ensures room { (c : Command) → IsFit c → is_data c ≡ false → length (Canon c) ≤ 1164 }
    // With a payload it is the letter and the payload.
    ensures payload { (octets : List ℕ) → Canon (commands.Data octets) ≡ codes "D" ++ octets }
{}

/// Every stream of octets is read in one way, and `front` finds the first frame of this reading. The function does nothing; its contract is
/// the theorem.
pub fn one_front()
    ensures one { (limit : ℕ) (stream : List ℕ) (xs ys : List (List ℕ)) (r q : List ℕ)
        → Front limit stream xs r → Front limit stream ys q → (xs ≡ ys) × (r ≡ q) }
    ensures some { (limit : ℕ) (stream : List ℕ) → All (λ c. c < 256) stream
        → (xs : List (List ℕ)) × (r : List ℕ) × Front limit stream xs r }
    ensures frame { (limit : ℕ) (m more : List ℕ) → IsCommand limit m
        → front limit (frame m ++ more) ≡ Whole (length m + 4) }
    ensures rest { (limit : ℕ) (r : List ℕ) → All (λ c. c < 256) r → NoFrame limit r
        → front limit r ≡ head_of (rest_fault limit r) }
{}
