// A line of text on standard output. No public function has a `requires`: what would stand past the buffer's end is dropped, as
// in `text`.
#![tactic(auto)]

ghost use Rattle.std.specs.Prelude.{◌≡◌};
ghost use Rattle.console.specs.Line.{ended};

use text::Line;

// The text of `line` up to `at`, with a line's end behind it, in one write. Where the line's end has no room, the buffer's text is
// written without it. The contract says how the buffer is left: what is written no contract can say. It stays beside `print_line`: it
// prints any lent slice, and `determined` has a theorem of it.
pub fn print(rt: &impl Print, line: &mut [u8], at: usize)
    ensures { line.new ≡ ended line.old at }
{
    let end = text::put(line, at, b"\n");
    let _ = rt.write_all(&line[..end.min(line.len())]);
}

// A line's text, the same way.
pub fn print_line<const N: usize>(rt: &impl Print, line: &mut Line<N>)
    ensures { line.new ≡ record { bytes = ended line.old.bytes line.old.at; at = line.old.at } }
{
    let at = line.at;
    print(rt, &mut line.bytes, at);
}
