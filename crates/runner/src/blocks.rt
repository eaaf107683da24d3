// Input, a block at a time.
ghost use Rattle.std.specs.Prelude.{[], ◌∷◌, ◌≡◌, ◌≤◌, length, take};
ghost use Rattle.runner.specs.Runner.{Prints};
ghost use Rattle.runner.specs.Feeding.{rest_printed, Begun, RoomToAnswer, Ran, Fed};

use crate::lines::answer_line;
use script::Writer;

// The bytes of a line that are kept: one more than any form has.
pub const KEPT: usize = 81;
// The most that an answer takes.
const ANSWER: usize = 30;

// Where feeding stopped: so much of the input is read, so much text is put, and so many bytes of a line are kept.
#[derive(Clone, Copy)]
pub struct Progress {
    pub consumed: usize,
    pub produced: usize,
    pub length: usize,
}

// Answers how many bytes of a line are kept then.
fn step(
    words: &mut [u32],
    line: &mut [u8],
    begun: usize,
    byte: u8,
    writer: &mut Writer<'_>,
) -> usize
    requires { RoomToAnswer begun line.old writer.old.at writer.old.out.now }
    ensures ran { Ran (byte ∷ []) begun line.old words.old writer.old.at writer.old.out.now result line.new words.new writer.new.at writer.new.out.now }
    ensures same_reference { writer.new.out.ghost_name ≡ writer.old.out.ghost_name }
{
    if byte == b'\n' {
        answer_line(words, &line[..begun], writer);
        return 0;
    }
    if begun < KEPT {
        line[begun] = byte;
        return begun + 1;
    }
    begun
}

// Goes on while input is left and `out` has room for one more answer.
pub fn feed(
    words: &mut [u32],
    line: &mut [u8],
    begun: usize,
    input: &[u8],
    from: usize,
    out: &mut [u8],
) -> Progress
    requires { (Begun begun line.old) × (from ≤ length input.now) }
    ensures { Fed input.now from begun line.old words.old out.old result line.new words.new out.new }
{
    let mut writer = Writer { out, at: 0 };
    let mut kept = begun;
    for i in from..input.len() {
        if writer.out.len() - writer.at < ANSWER {
            return Progress {
                consumed: i,
                produced: writer.at,
                length: kept,
            };
        }
        kept = step(words, line, kept, input[i], &mut writer);
    }
    Progress {
        consumed: input.len(),
        produced: writer.at,
        length: kept,
    }
}

// The last line may lack its newline: where the input ends, a line that has begun is answered.
pub fn feed_rest(words: &mut [u32], line: &[u8], begun: usize, out: &mut [u8]) -> usize
    requires { RoomToAnswer begun line.now 0 out.old }
    ensures { Prints (rest_printed (take begun line.now) words.old) 0 words.new out.old out.new result }
{
    // Named, so that no goal's name hangs on the number that a wrong answer changes.
    let is_begun = 0 < begun;
    if is_begun {
        let mut writer = Writer { out, at: 0 };
        answer_line(words, &line[..begun], &mut writer);
        return writer.at;
    }
    0
}
