//! Promises of the program's readers of lines. `must-fail` has wrong bodies, as in
//! `test_wrong_texts`.
#![tactic(auto)]

ghost use Rattle.std.specs.Prelude.{◌≡◌, ◌≢◌, ◌<◌, [], Contains, IfOk, IfSome, IsErr, Ok, OnOk, length};
ghost use Rattle.std.specs.Io.BufRead.{DropsThrough, first_piece};
ghost use Rattle.std.specs.Io.Buffered.{reader_buffer, reader_inner, reader_remaining};
ghost use Rattle.std.specs.Io.KnownBytes.{IsAtEnd};
ghost use Rattle.uri_commands.specs.Lines.{newline};
ghost use Rattle.uri_commands.specs.Outputs.{Sends};
ghost use Rattle.uri_commands.specs.declared.lines.Next.TheVariants.{End, LastLine};

use std::io;
use std::io::{BufRead, BufReader, Read, Write};
use uri_commands::internal::{Next, next_line, read_line};

/// Reads the next line into the buffer, without its newline, and returns what there was.
pub fn next_of_input<I: BufRead>(input: &mut I, line: &mut Vec<u8>) -> io::Result<Next>
    ensures line { OnOk result (IfSome (I.remaining input.old) (λ bytes. line.new.items ≡ first_piece newline bytes)) }
    ensures rest { OnOk result (DropsThrough (I.remaining input.old) (I.remaining input.new) newline) }
    ensures end { result ≡ Ok End → IsAtEnd (I.remaining input.old) }
    ensures some { IfOk result (λ next. next ≢ End → IfSome (I.remaining input.old) (λ bytes. 0 < length bytes)) }
{
    read_line(input, line, b'\n')
}

/// Reads the next line as [`next_of_input`] does. A reader that holds it is asked for no more, and an
/// error that was there before is kept. What is pending is written or kept.
pub fn next_of_reader<I: Read, O: Write>(
    input: &mut BufReader<I>,
    line: &mut Vec<u8>,
    pending: &mut Vec<u8>,
    out: &mut O,
    written: &mut io::Result<()>,
) -> io::Result<Next>
    ensures line { OnOk result (IfSome (reader_remaining I.remaining input.old) (λ bytes. line.new.items ≡ first_piece newline bytes)) }
    ensures last { result ≡ Ok LastLine → IfSome (reader_remaining I.remaining input.old) (λ _. IsAtEnd (reader_remaining I.remaining input.new)) }
    ensures unasked { Contains (reader_buffer input.old) newline → (reader_inner input.new ≡ reader_inner input.old) × (pending.new ≡ pending.old) × (out.new ≡ out.old) }
    ensures contents { Sends (O.contents out.old) (O.contents out.new) pending.old.items pending.new.items [] }
    ensures kept { IsErr written.old → written.new ≡ written.old }
{
    next_line(input, line, b'\n', pending, out, written)
}
