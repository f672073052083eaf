//! The interface of an office, which keeps a register.

ghost use Rattle.std.specs.Prelude.{◌≡◌, ◌≤◌, IfSome, IfOk};
ghost use Rattle.oftp_register.specs.Register.{has_received};
ghost use Rattle.oftp_register.specs.Soundness.{IsSound};
ghost use Rattle.oftp_register.specs.LookUps.{AreRowsWithin, IsIncomingWithin, IsItemWithin, IsOutgoingWithin, files_full, in_by_no, list_answered, list_in, list_issued, list_out, list_received, look_in, look_out, next_item, out_by_no, rows_of, units_of};
ghost use Rattle.oftp_register.specs.Offices.{Commits, Leaves, LooksUp, Only, View};
ghost use Rattle.oftp_register.specs.declared.fit.TheConstants.{MOST_FILES, MOST_OCTETS, MOST_UNITS};

use crate::change::{Cause, Change};
use crate::entries::{
    AnsweredEntry, Cursor, IncomingEntry, IssuedEntry, Item, OutgoingEntry, ReceivedEntry, Side,
};
use crate::entry::{Identity, ResponseKind};
use crate::name::Name;
use oftp_vfile::{Limits, Rows};
use std::alloc::{AllocError, AllocFailed};

/// Why a call of an office failed.
#[derive(Clone, Copy, Debug, Drop, PartialEq, Eq)]
pub enum OfficeFault {
    /// The store failed.
    Store,
    /// Out of memory.
    Memory,
    /// The register doesn't allow the change, and nothing was changed.
    Refused(Cause),
}

impl From<AllocError> for OfficeFault {
    ghost use Rattle.oftp_register.specs.declared.office.OfficeFault.TheVariants.{Memory};

    ghost from_gives = { λ _ fault. fault ≡ Memory };

    fn from(_error: AllocError) -> OfficeFault {
        OfficeFault::Memory
    }
}

impl<T: Drop> From<AllocFailed<T>> for OfficeFault {
    ghost use Rattle.oftp_register.specs.declared.office.OfficeFault.TheVariants.{Memory};

    ghost from_gives = { λ _ fault. fault ≡ Memory };

    fn from(_error: AllocFailed<T>) -> OfficeFault {
        OfficeFault::Memory
    }
}

/// An office keeps a register. A crash may end any of its calls.
///
/// The results hold where the office was open before the call and reads what was written. Both are facts of the contracts that no call can
/// check. What a crash may leave holds under the same premise, also after an error.
///
/// After [`OfficeFault::Store`] or [`OfficeFault::Memory`] the office may no longer be open. If it is, its register is the one before the
/// call. A look-up never returns [`OfficeFault::Refused`].
pub trait Office {
    // what contracts see of the office
    ghost view: { Self → View };

    /// The limits of the office. It allocates nothing.
    fn limits(&self) -> Limits
        ensures answer { result ≡ (view self.now).register.limits }
        // This holds also where the store doesn't read what was written.
        ensures within { (result.files ≤ MOST_FILES) × (result.octets ≤ MOST_OCTETS) };

    /// The incoming file of an identity, or `None` where there is none. The register is unchanged.
    ///
    /// # Errors
    ///
    /// [`OfficeFault::Store`]: the store failed. [`OfficeFault::Memory`]: out of memory.
    fn look_in(&mut self, identity: &Identity) -> Result<Option<IncomingEntry>, OfficeFault>
        ensures looks { LooksUp (λ r found. found ≡ look_in r identity.now) (view self.old) (view self.new) result }
        // This holds also where the store doesn't read what was written.
        ensures within { IfOk result (λ found. IfSome found IsIncomingWithin) };

    /// The outgoing file of an identity, or `None` where there is none. The register is unchanged.
    ///
    /// # Errors
    ///
    /// [`OfficeFault::Store`]: the store failed. [`OfficeFault::Memory`]: out of memory.
    fn look_out(&mut self, identity: &Identity) -> Result<Option<OutgoingEntry>, OfficeFault>
        ensures looks { LooksUp (λ r found. found ≡ look_out r identity.now) (view self.old) (view self.new) result }
        // This holds also where the store doesn't read what was written.
        ensures within { IfOk result (λ found. IfSome found IsOutgoingWithin) };

    /// The incoming file with a number, or `None` where no file has it. Files are numbered from 1 on. The register is unchanged.
    ///
    /// # Errors
    ///
    /// [`OfficeFault::Store`]: the store failed. [`OfficeFault::Memory`]: out of memory.
    fn in_by_no(&mut self, no: u64) -> Result<Option<IncomingEntry>, OfficeFault>
        ensures looks { LooksUp (λ r found. found ≡ in_by_no r no) (view self.old) (view self.new) result }
        // This holds also where the store doesn't read what was written.
        ensures within { IfOk result (λ found. IfSome found IsIncomingWithin) };

    /// The outgoing file with a number, or `None` where no file has it. Files are numbered from 1 on. The register is unchanged.
    ///
    /// # Errors
    ///
    /// [`OfficeFault::Store`]: the store failed. [`OfficeFault::Memory`]: out of memory.
    fn out_by_no(&mut self, no: u64) -> Result<Option<OutgoingEntry>, OfficeFault>
        ensures looks { LooksUp (λ r found. found ≡ out_by_no r no) (view self.old) (view self.new) result }
        // This holds also where the store doesn't read what was written.
        ensures within { IfOk result (λ found. IfSome found IsOutgoingWithin) };

    /// Whether a table has as many files as the limits allow, or more. The register is unchanged.
    ///
    /// # Errors
    ///
    /// [`OfficeFault::Store`]: the store failed. [`OfficeFault::Memory`]: out of memory.
    fn files_full(&mut self, side: Side) -> Result<bool, OfficeFault>
        ensures looks { LooksUp (λ r full. full ≡ files_full r side) (view self.old) (view self.new) result };

    /// Whether a response of this kind was received for the file with this identity. The register is unchanged.
    ///
    /// # Errors
    ///
    /// [`OfficeFault::Store`]: the store failed. [`OfficeFault::Memory`]: out of memory.
    fn has_received(&mut self, kind: ResponseKind, identity: &Identity) -> Result<bool, OfficeFault>
        ensures looks { LooksUp (λ r there. there ≡ has_received r kind identity.now) (view self.old) (view self.new) result };

    /// What a session sends next to a partner, or `None` where nothing is left. It is the first response that is due and has a greater
    /// number than the cursor's. If there is none and `files` is true, it is a file that is waiting or closing. It is the first with a
    /// greater number than the cursor's. The register is unchanged.
    ///
    /// # Errors
    ///
    /// [`OfficeFault::Store`]: the store failed. [`OfficeFault::Memory`]: out of memory.
    fn next_item(
        &mut self,
        partner: &Name<25>,
        cursor: Cursor,
        files: bool,
    ) -> Result<Option<Item>, OfficeFault>
        ensures looks { LooksUp (λ r item. item ≡ next_item r partner.now cursor files) (view self.old) (view self.new) result }
        // This holds also where the store doesn't read what was written.
        ensures within { IfOk result (λ found. IfSome found IsItemWithin) };

    /// At most `most` rows of a file, from row `from` on, counted from 0. A number without a file has no rows. The register is unchanged.
    ///
    /// If the store may read something else than was written, only the number of rows is promised. The call doesn't look at the file's
    /// format. A caller who needs rows of a format checks them by [`are_rows`]; that check doesn't fail on rows of the register.
    ///
    /// [`are_rows`]: crate::are_rows
    ///
    /// # Errors
    ///
    /// [`OfficeFault::Store`]: the store failed. [`OfficeFault::Memory`]: out of memory.
    fn rows_of(&mut self, side: Side, no: u64, from: u64, most: u64) -> Result<Rows, OfficeFault>
        ensures looks { LooksUp (λ r rows. rows ≡ rows_of r side no from most) (view self.old) (view self.new) result }
        // This holds also where the store doesn't read what was written.
        ensures within { IfOk result (AreRowsWithin from most) };

    /// The number of octets of a file, or 0 for a number without a file. The register is unchanged.
    ///
    /// # Errors
    ///
    /// [`OfficeFault::Store`]: the store failed. [`OfficeFault::Memory`]: out of memory.
    fn units_of(&mut self, side: Side, no: u64) -> Result<u64, OfficeFault>
        ensures looks { LooksUp (λ r units. units ≡ units_of r side no) (view self.old) (view self.new) result }
        // This holds also where the store doesn't read what was written.
        ensures within { IfOk result (λ units. units ≤ MOST_UNITS) };

    /// All incoming files, in order of their numbers. The register is unchanged.
    ///
    /// # Errors
    ///
    /// [`OfficeFault::Store`]: the store failed. [`OfficeFault::Memory`]: out of memory.
    fn list_in(&mut self) -> Result<Vec<IncomingEntry>, OfficeFault>
        ensures looks { LooksUp (λ r entries. entries.items ≡ list_in r) (view self.old) (view self.new) result };

    /// All outgoing files, in order of their numbers. The register is unchanged.
    ///
    /// # Errors
    ///
    /// [`OfficeFault::Store`]: the store failed. [`OfficeFault::Memory`]: out of memory.
    fn list_out(&mut self) -> Result<Vec<OutgoingEntry>, OfficeFault>
        ensures looks { LooksUp (λ r entries. entries.items ≡ list_out r) (view self.old) (view self.new) result };

    /// All issued responses, in order of their files' numbers. The register is unchanged.
    ///
    /// # Errors
    ///
    /// [`OfficeFault::Store`]: the store failed. [`OfficeFault::Memory`]: out of memory.
    fn list_issued(&mut self) -> Result<Vec<IssuedEntry>, OfficeFault>
        ensures looks { LooksUp (λ r entries. entries.items ≡ list_issued r) (view self.old) (view self.new) result };

    /// All received responses, in order of their numbers. The register is unchanged.
    ///
    /// # Errors
    ///
    /// [`OfficeFault::Store`]: the store failed. [`OfficeFault::Memory`]: out of memory.
    fn list_received(&mut self) -> Result<Vec<ReceivedEntry>, OfficeFault>
        ensures looks { LooksUp (λ r entries. entries.items ≡ list_received r) (view self.old) (view self.new) result };

    /// All received responses with the files that they answer, in order of the responses' numbers. The register is unchanged.
    ///
    /// # Errors
    ///
    /// [`OfficeFault::Store`]: the store failed. [`OfficeFault::Memory`]: out of memory.
    fn list_answered(&mut self) -> Result<Vec<AnsweredEntry>, OfficeFault>
        ensures looks { LooksUp (λ r entries. entries.items ≡ list_answered r) (view self.old) (view self.new) result };

    /// Commits a change. Once it has returned `Ok`, a crash doesn't undo the change.
    ///
    /// The change has to be fit. The file that it leaves has at most 1,000,000 rows, which fit its format and longest record. An End-to-End
    /// Response has no reason, no creator and no text. A caller can check this beforehand by [`is_file`], [`Format::allows_longest`],
    /// [`are_full_rows`], [`are_rows`] and [`is_response`]. For a change that isn't fit, nothing is promised of the register.
    ///
    /// [`is_file`]: crate::is_file
    /// [`Format::allows_longest`]: oftp_vfile::Format::allows_longest
    /// [`are_full_rows`]: crate::are_full_rows
    /// [`are_rows`]: crate::are_rows
    /// [`is_response`]: crate::is_response
    ///
    /// # Errors
    ///
    /// - [`OfficeFault::Refused`] where the register refuses the change, with its cause. Nothing is changed.
    /// - [`OfficeFault::Store`] and [`OfficeFault::Memory`]: if the office is still open, its register is unchanged. A crash leaves the
    ///   change made or not made.
    fn commit(&mut self, change: Change<'_>) -> Result<(), OfficeFault>
        ensures commits { Commits change.entry (view self.old) (view self.new) result };

    // The register is sound.
    ghost sound: { (o : Self) → (view o).clean → (view o).stands → IsSound (view o).register };

    // A crash now leaves the register and nothing else.
    ghost alone: { (o : Self) → (view o).clean → (view o).stands → Only (view o).register (view o) };

    // A crash leaves some content.
    ghost leaves: { (o : Self) → (view o).clean → Leaves (view o) };
}
