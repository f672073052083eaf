//! The frame that a session sends.

ghost use Rattle.std.specs.Prelude.{◌≡◌, ◌∷◌, ◌++◌, ◌+◌, ◌<◌, ◌≤◌, [], ℕ, List, length, take, All, true, false};
ghost use Rattle.oftp_codec.specs.Header.{header_of};
ghost use Rattle.oftp_codec.specs.Spelling.{is_data};
ghost use Rattle.oftp_vfile.specs.declared.format.TheConstants.{MOST_ROWS};
ghost use Rattle.oftp_vfile.specs.VirtualFile.{is_stream};
ghost use Rattle.oftp_vfile.specs.Filling.{IsInRows};
ghost use Rattle.oftp_session.specs.declared.frame.TheConstants.{COMMAND_ROOM, DATA_HEAD, LARGEST_PAYLOAD};
ghost use Rattle.oftp_session.specs.Phases.{frame_of};
ghost use Rattle.oftp_session.specs.InsideFrame.{FillsInto, FillsOrNot};
ghost use Rattle.oftp_session.specs.Calls.{IsFull, said};

use crate::session::{Out, SessionFault};
use oftp_codec::{encode, header};
use oftp_vfile::{Filled, Filler, Row};
use oftp_wire::Command;
use std::alloc::Global;
use std::marker::Model;

// The number of octets before the payload of a DATA: the stream header, and the command's letter.
const DATA_HEAD: usize = 5;

// The most octets of the payload of a DATA (RFC 5024, sections 5.3.2 and 5.3.6). They are those of the largest Data Exchange Buffer, without the
// command's letter.
pub(crate) const LARGEST_PAYLOAD: usize = 99_998;

// The room in octets for the frame of a command other than DATA. The longest has 1,168: SFID with a description of 999 octets (RFC 5024,
// section 5.3.3).
const COMMAND_ROOM: usize = 1_200;

// Where the frame is, and its length in octets.
#[derive(Clone, Copy, Drop)]
pub(crate) enum Contents {
    // In the array for commands.
    Command(usize),
    // In the buffer for DATA.
    Data(usize),
}

// One whole frame, or none. It allocates only the buffer for DATA, once in a session.
#[derive(Drop)]
pub(crate) struct Frame {
    octets: [u8; COMMAND_ROOM],
    buffer: Vec<u8>,
    contents: Contents,
}

impl Model for Frame {
    ghost use Rattle.std.specs.Prelude.{List, ℕ};
    ghost use Rattle.oftp_session.specs.InsideFrame.{IsFrameWithin, frame_in};

    ghost Value = { List ℕ };

    ghost view = { λ f. frame_in f.contents f.octets f.buffer.items };

    ghost invariant = { λ f. IsFrameWithin f.contents f.octets f.buffer.items };
}

impl Frame {
    // No frame. It allocates nothing.
    pub(crate) fn empty(alloc: Global) -> Frame
        ensures { result ≡ [] }
    {
        Frame {
            octets: [0; COMMAND_ROOM],
            buffer: Vec::new(alloc),
            contents: Contents::Command(0),
        }
    }

    // Clears the frame and allocates the buffer for DATA, whose payloads have at most `size` octets. If the allocation fails, there is no
    // buffer.
    pub(crate) fn reserve(&mut self, alloc: Global, size: usize)
        requires { size ≤ LARGEST_PAYLOAD }
        ensures { self.new ≡ [] }
    {
        self.clear();
        if let Ok(buffer) = vec![in alloc; 0; size + DATA_HEAD] {
            self.buffer = buffer;
        }
    }

    // Replaces the frame by that of a command other than DATA.
    pub(crate) fn set_command(&mut self, command: &Command<'_>)
        requires { is_data command.now ≡ false }
        ensures { self.new ≡ frame_of command.now }
    {
        self.contents = Contents::Command(encode_frame(&mut self.octets, command));
    }

    // Replaces the frame by DATA with the next payload of a file, as `Filler::next_buffer` makes it. `rows` are borrowed from the row at
    // which the filler is. If no payload is left, or the filler needs more rows, there is no frame. It is out of memory where there is no buffer
    // for payloads of this size: then the filler is unchanged, and there is no frame.
    pub(crate) fn fill(
        &mut self,
        filler: &mut Filler,
        rows: &[Row],
        last: bool,
        size: usize,
    ) -> Result<Filled, SessionFault>
        requires room { 2 ≤ size }
        requires size { size ≤ LARGEST_PAYLOAD }
        requires few { filler.old.row + length rows.now ≤ MOST_ROWS }
        requires place { IsInRows filler.old rows.now }
        requires some { is_stream filler.old.format ≡ true → All (λ r. 0 < length r) rows.now }
        ensures { FillsOrNot size filler.old filler.new rows.now last self.new result }
    {
        if self.buffer.len() < size + DATA_HEAD {
            self.clear();
            return Err(SessionFault::Memory);
        }
        let filled = fill_data(filler, rows, last, size, self.buffer.as_mut_slice());
        self.contents = match filled {
            Filled::Buffer(count) => Contents::Data(count + DATA_HEAD),
            Filled::Done | Filled::More => Contents::Command(0),
        };
        Ok(filled)
    }

    // Clears the frame.
    pub(crate) fn clear(&mut self)
        ensures { self.new ≡ [] }
    {
        self.contents = Contents::Command(0);
    }

    // The frame to send, if there is one.
    pub(crate) fn out(&self) -> Out<'_>
        ensures said { said result ≡ self.now }
        ensures full { IsFull result }
    {
        let frame = match self.contents {
            Contents::Command(len) => &self.octets[..len],
            Contents::Data(len) => &self.buffer[..len],
        };
        if frame.is_empty() {
            Out::Nothing
        } else {
            Out::Send(frame)
        }
    }
}

// Encodes the frame of a command other than DATA into the buffer, and returns its length in octets.
fn encode_frame(frame: &mut [u8; COMMAND_ROOM], command: &Command<'_>) -> usize
    requires { is_data command.now ≡ false }
    ensures frame { take result frame.new ≡ frame_of command.now }
    ensures within { result ≤ COMMAND_ROOM }
{
    let (head, body) = frame.split_at_mut(4);
    match encode(command, body) {
        Ok(count) => match header(count) {
            Some(octets) => {
                head.copy_from_slice(&octets);
                count + 4
            }
            None => unreachable!(),
        },
        Err(_) => unreachable!(),
    }
}

// The octets before a payload of this length.
fn data_head(count: usize) -> [u8; DATA_HEAD]
    requires { count ≤ LARGEST_PAYLOAD }
    ensures { result ≡ header_of (count + DATA_HEAD) ++ 68 ∷ [] }
{
    match header(count + 1) {
        Some(octets) => [octets[0], octets[1], octets[2], octets[3], b'D'],
        None => unreachable!(),
    }
}

// Writes the frame of a DATA whose payload has at most `size` octets.
fn fill_data(
    filler: &mut Filler,
    rows: &[Row],
    last: bool,
    size: usize,
    buffer: &mut [u8],
) -> Filled
    requires room { 2 ≤ size }
    requires size { size ≤ LARGEST_PAYLOAD }
    requires buffer { size + DATA_HEAD ≤ length buffer.old }
    requires few { filler.old.row + length rows.now ≤ MOST_ROWS }
    requires place { IsInRows filler.old rows.now }
    requires some { is_stream filler.old.format ≡ true → All (λ r. 0 < length r) rows.now }
    ensures fills { FillsInto size filler.old filler.new rows.now last buffer.new result }
    ensures len { length buffer.new ≡ length buffer.old }
{
    let (head, rest) = buffer.split_at_mut(DATA_HEAD);
    let (payload, _) = rest.split_at_mut(size);
    let filled = filler.next_buffer(rows, last, payload);
    if let Filled::Buffer(count) = filled {
        head.copy_from_slice(&data_head(count));
    }
    filled
}
