// The messages of the input, each led by its length.
ghost use Rattle.std.specs.Prelude.{◌≡◌, ◌+◌, ◌≤◌, length};
ghost use Rattle.octets.specs.Part.{part, splice};
ghost use Rattle.day.specs.Frame.{frame_of, WithinInput};

use octets::read_at;

// The bytes of a length, and of the longest message with its length.
pub const LENGTH_SIZE: usize = 2;

pub const LONGEST_FRAME: usize = LENGTH_SIZE + 65_535;

// What stands at the front of the input: a message or one that is too long, with its length, or no whole one.
// Stays: no Option and no Result: three cases, and of a message that is too long the length is used as well.
#[derive(Clone, Copy, Debug, PartialEq, Eq)]
pub enum Frame {
    Message(usize),
    Overlong(usize),
    Partial,
}

// Reads the length at the front, and looks whether so many bytes have come.
#[tactic(auto, unfolding(crate::specs::Frame::frame_of))]
pub fn next_frame(input: &[u8], longest: usize) -> Frame
    ensures value { result ≡ frame_of longest input.now }
    ensures within_input { WithinInput input.now result }
{
    if input.len() < LENGTH_SIZE {
        return Frame::Partial;
    }
    let n = read_at(input, 0, LENGTH_SIZE) as usize;
    if input.len() - LENGTH_SIZE < n {
        Frame::Partial
    } else if longest < n {
        Frame::Overlong(n)
    } else {
        Frame::Message(n)
    }
}

// Moves the n bytes from `from` on to the front.
#[tactic(auto, unfolding(octets::specs::Part::splice))]
pub fn keep(input: &mut [u8], from: usize, n: usize)
    requires { from + n ≤ length input.old }
    ensures { input.new ≡ splice input.old 0 (part input.old from n) }
{
    input.copy_within(from..from + n, 0);
}
