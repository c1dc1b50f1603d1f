//! The lines that the program writes in place of an answer.

ghost use Rattle.std.specs.Prelude.{◌≡◌, ◌≤◌, length};
ghost use Rattle.commands.specs.Messages.{why_word, bad_line, too_long, bad_words, read_fault};

use kern_ids::faults::Why;
use kern_ids::lines::LineBuf;
use line_text::push_decimal;

fn why_word(why: Why) -> &'static [u8]
    ensures value { result.now ≡ why_word why }
    ensures short { length result.now ≤ 9 }
{
    match why {
        Why::Word => b"word",
        Why::Number => b"number",
        Why::Limit => b"limit",
        Why::Repeated => b"repeated",
        Why::Unknown => b"unknown",
        Why::WrongSide => b"wrongside",
        Why::NoEnd => b"noend",
        Why::AfterEnd => b"afterend",
        Why::Entry => b"entry",
        Why::Count => b"count",
    }
}

/// The words are those of no command.
pub fn bad_words() -> LineBuf
    ensures { result ≡ bad_words }
{
    let mut line = LineBuf::new();
    line.push(b"jetlab: bad words\n");
    line
}

/// The input could not be read to its end.
pub fn read_fault() -> LineBuf
    ensures { result ≡ read_fault }
{
    let mut line = LineBuf::new();
    line.push(b"jetlab: read fault\n");
    line
}

/// The input is longer than the command reads.
pub fn too_long(limit: usize) -> LineBuf
    ensures { result ≡ too_long limit }
{
    let mut line = LineBuf::new();
    line.push(b"jetlab: more than ");
    push_decimal(&mut line, limit as u64);
    line.push(b" bytes\n");
    line
}

/// A line of the input is wrong.
pub fn bad_line(number: u32, why: Why) -> LineBuf
    ensures { result ≡ bad_line number why }
{
    let mut line = LineBuf::new();
    line.push(b"jetlab: line ");
    push_decimal(&mut line, u64::from(number));
    line.push(b": ");
    line.push(why_word(why));
    line.push(b"\n");
    line
}
