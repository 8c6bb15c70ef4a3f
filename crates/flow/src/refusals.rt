// The line of a refusal.
ghost use Rattle.std.specs.Prelude.{◌≡◌};
ghost use Rattle.job.specs.Tables.{refused_numbers};
ghost use Rattle.text.specs.Lines.{letter_x};
ghost use Rattle.text.specs.LineReplies.{place_reply_of, line_reply};

use job::Refused;

// Writes the line of a refusal at the buffer's start, where there is room for it: the bytes written.
pub fn write_refusal(refused: Refused, buffer: &mut [u8]) -> usize
    ensures { place_reply_of result buffer.new ≡ line_reply letter_x (refused_numbers refused) 0 buffer.old }
{
    let number = refused.number as u64;
    match refused.second {
        Some(second) => text::print_line(b'X', &[number, refused.first, second], buffer, 0),
        None => text::print_line(b'X', &[number, refused.first], buffer, 0),
    }
}
