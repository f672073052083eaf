//! Theorems about records: what was written is what is read, a cut and a change are told.

ghost use Rattle.std.specs.Prelude.{◌≡◌, ◌<◌, ℕ, List, [], ◌∷◌, ◌++◌, drop, length};
ghost use Rattle.std.specs.List.{AllByRecursion};
ghost use Rattle.oftp_record.specs.Changes.{IsChangedBehind, TellsChange};
ghost use Rattle.oftp_record.specs.Entries.{IsEntry, Noted, entry_digest, entry_length, entry_octets};
ghost use Rattle.oftp_record.specs.Next.{Changed, Ends, IsNext, Next, Whole};
ghost use Rattle.oftp_record.specs.Records.{IsCutRead, IsRead, IsStop, record_octets};
ghost use Rattle.oftp_record.specs.declared.next.Alteration.TheVariants.{Digest};

/// Octets are read in one way. The function does nothing; its contract is the theorem.
pub fn one_reading()
    // Of octets behind an entry one thing alone is told,
    ensures next { (before octets : List ℕ) (x y : Next) → IsNext before octets x → IsNext before octets y → x ≡ y }
    // and octets are read as one list of entries.
    ensures one { (before octets : List ℕ) (xs ys : List Noted) (x y : Next) → IsRead before octets xs x → IsRead before octets ys y
        → (xs ≡ ys) × (x ≡ y) }
    // Who asks for one entry after another, until none is whole, reads them so.
    ensures more { (before octets digest : List ℕ) (entry : Noted) (count : ℕ) (entries : List Noted) (next : Next)
        → IsNext before octets (Whole entry count digest) → IsRead digest (drop count octets) entries next
        → IsRead before octets (entry ∷ entries) next }
    ensures stop { (before octets : List ℕ) (next : Next) → IsNext before octets next → IsStop next → IsRead before octets [] next }
{}

/// What was written is what is read, one entry after another. A record that is cut off anywhere is read as the entries that are whole before the
/// cut. How the next one is cut off is told. The function does nothing; its contract is the theorem.
pub fn written_is_read()
    ensures entry { (before rest : List ℕ) (entry : Noted) → IsEntry entry
        → IsNext before (entry_octets entry before ++ rest) (Whole entry (entry_length entry) (entry_digest entry before)) }
    ensures all { (before : List ℕ) (entries : List Noted) → AllByRecursion IsEntry entries
        → IsRead before (record_octets before entries) entries Ends }
    ensures cut { (before : List ℕ) (entries : List Noted) (at : ℕ) → AllByRecursion IsEntry entries → at < length (record_octets before entries)
        → IsCutRead before entries at }
{}

/// A changed octet is told, and so is an entry behind another one than it was written behind, where SHA-256 gives another value. That it gives
/// another is no theorem. The function does nothing; its contract is the theorem.
pub fn change_is_told()
    // The entries before the one with the changed octet are read, and then the change is told. An octet of the word, the version, the count or the
    // digest is told always.
    ensures octet { (before octets rest : List ℕ) (entries : List Noted) (entry : Noted) → AllByRecursion IsEntry entries → IsEntry entry
        → IsChangedBehind before entries entry octets
        → TellsChange before (record_octets before entries ++ (octets ++ rest)) entries }
    // An entry behind which there was another digest.
    ensures place { (before other rest : List ℕ) (entry : Noted) → IsEntry entry → (entry_digest entry other ≡ entry_digest entry before → ⊥)
        → IsNext before (entry_octets entry other ++ rest) (Changed Digest) }
{}
