// Reads lines from standard input and prints the answer to each, block by block. After each block all that it asked for is written, so
// that whoever types a line has its answer at once.
#![tactic(auto)]

ghost use Rattle.std.specs.Prelude.{◌≡◌, ◌≤◌, length, IfOk};
ghost use Rattle.runner.specs.Runner.{start_words};
ghost use Rattle.runner.specs.Feeding.{Begun, BytesRun, RestAnswered};

use runner::{KEPT, feed, feed_rest};
use state::layout::LARGEST_SIZE;
use std::io;
use std::io::{Read, Stdin, Stdout};

// Bytes of input that are read at once, and of answers that are written at once.
const BLOCK: usize = 65536;

// Answers a block that was read, and says how many bytes of a line are kept then.
fn answer_block(
    output: Stdout,
    words: &mut [u32],
    line: &mut [u8],
    begun: usize,
    block: &[u8],
    out: &mut [u8],
) -> io::Result<usize>
    requires { (Begun begun line.old) × (30 ≤ length out.old) }
    ensures { IfOk result (λ kept. BytesRun block.now begun line.old words.old kept line.new words.new) }
{
    let mut kept = begun;
    let mut from = 0;
    // No `for`: a turn goes on from where `feed` stopped.
    while from < block.len() {
        let progress = feed(words, line, kept, block, from, out);
        output.write_all(&out[..progress.produced])?;
        kept = progress.length;
        from = progress.consumed;
    }
    Ok(kept)
}

// How many bytes were read: 0 where the input ends, or cannot be read.
fn read_block(mut input: Stdin, block: &mut [u8]) -> usize
    ensures { result ≤ length block.old }
{
    input.read(block).unwrap_or(0)
}

// Answers what is left where the input ends.
fn answer_rest(output: Stdout, words: &mut [u32], line: &[u8], begun: usize, out: &mut [u8])
    requires { (Begun begun line.now) × (30 ≤ length out.old) }
    ensures { RestAnswered begun line.now words.old words.new out.old out.new }
{
    let end = feed_rest(words, line, begun, out);
    let _ = output.write_all(&out[..end]);
}

// Where a write fails, it ends and says nothing.
// A proved loop has to end, and nothing says that the input does: so it counts its turns, up to a number that no run uses up.
fn run(
    input: Stdin,
    output: Stdout,
    words: &mut [u32],
    line: &mut [u8],
    block: &mut [u8],
    out: &mut [u8],
)
    requires { (Begun 0 line.old) × (30 ≤ length out.old) × (words.old ≡ start_words (length words.old)) }
{
    let mut begun = 0;
    for _ in 0..u64::MAX {
        let n = read_block(input, block);
        if n == 0 {
            break;
        }
        let Ok(left) = answer_block(output, words, line, begun, &block[..n], out) else {
            return;
        };
        begun = left;
    }
    answer_rest(output, words, line, begun, out);
}

// As many words as the largest controller takes: 8 vCPUs, limit 1020.
fn main(rt: HostRuntime) {
    let mut words = [0u32; LARGEST_SIZE];
    let mut line = [0u8; KEPT];
    let mut block = [0u8; BLOCK];
    let mut out = [0u8; BLOCK];
    run(
        rt.stdin(),
        rt.stdout(),
        &mut words,
        &mut line,
        &mut block,
        &mut out,
    );
}
