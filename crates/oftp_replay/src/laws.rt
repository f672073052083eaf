//! Theorems about what is replayed.

ghost use Rattle.oftp_replay.specs.Replays.{RecordsDetermine, RecordsKeep};

use oftp_register::Office;
use oftp_vfile::laws::one_file;

/// Two lives begin with one register. The record of both is the same: what their sessions heard, and which calls were made, by which book. Nothing cut
/// their acts short. Then the same octets went out of both, and the same changes led to the same register. The function does nothing; its
/// contract is the theorem.
pub fn records_determine()
    ensures { RecordsDetermine }
{
    one_file();
}

/// The last act of a station was cut short anywhere. Its record is replayed from the register with which it began. In each act before, the replay
/// goes as far as the station did, and it runs the last whole. Then the octets that went out of the station are a beginning of those of the
/// replay, and after an error of the office ESID 08 follows, or a beginning of it. A crash leaves the station the register of the replay after some
/// of its changes: all before an answer of which one octet went out are among them. The function does nothing; its contract is the theorem.
pub fn records_keep<O: Office>()
    ensures { (now : O) → RecordsKeep (O.view now) }
{
    one_file();
}
