//! Whose a command is. Its end of a connection has a name with the number of its process, and the owner of the file with that name is its user.

ghost use Rattle.std.specs.Prelude.{◌≡◌, option_map};
ghost use Rattle.oftp_watching.specs.Ends.{name_in, number_in, number_of_end, process_number, user_of_end};

/// The name of a command's end, without its number. It is short, so that its path fits into a socket's address, too.
pub const COMMAND_END: &str = ".oftp_command_";

/// The most digits of the number of a process.
const MOST_DIGITS: usize = 10;

/// What has the name of a command's end.
#[derive(Clone, Copy, Debug, PartialEq, Eq, Drop)]
pub enum EndFile {
    /// A socket of the user with this number.
    Socket(u32),
    /// Another file, or none.
    Other,
}

impl EndFile {
    /// The user whose command it is, if that is known.
    pub fn user(self) -> Option<u32>
        ensures { result ≡ user_of_end self }
    {
        match self {
            EndFile::Socket(owner) => Some(owner),
            EndFile::Other => None,
        }
    }
}

/// The number in the path of a command's end, whatever its folder is. `None` if it is no such path.
pub fn number_of_end(path: &[u8]) -> Option<u32>
    ensures { result ≡ number_of_end path.now }
{
    number_in(name_in(path)?)
}

// What is behind the last slash of a path.
fn name_in(path: &[u8]) -> Option<&[u8]>
    ensures { option_map (λ name. name.now) result ≡ name_in path.now }
{
    let [octet, rest @ ..] = path else {
        return None;
    };
    match name_in(rest) {
        Some(name) => Some(name),
        None if *octet == b'/' => Some(rest),
        None => None,
    }
}

// The number in the name of a command's end.
fn number_in(name: &[u8]) -> Option<u32>
    ensures { result ≡ number_in name.now }
{
    process_number(name.strip_prefix(COMMAND_END.as_bytes())?)
}

// The number of a process that these digits are.
#[tactic(auto, unfolding(crate::specs::Ends::process_number))]
fn process_number(text: &[u8]) -> Option<u32>
    ensures { result ≡ process_number text.now }
{
    if text.is_empty() || text.len() > MOST_DIGITS {
        return None;
    }
    let mut number: u64 = 0;
    for digit in text {
        if !digit.is_ascii_digit() {
            return None;
        }
        number = number * 10 + u64::from(*digit - b'0');
    }
    if number < 4_294_967_296 {
        Some(number as u32)
    } else {
        None
    }
}
