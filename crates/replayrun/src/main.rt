// A list of calls: the model file on standard input, at most its first 65,536 bytes; the calls as arguments, at most 1,024: a thread's number
// for a request, after a `g` for a grant, after an `f` for a finish. Prints the transcript of the replay, and nothing else.
#![tactic(auto)]

ghost use Rattle.std.specs.Prelude.{◌≤◌, length};
ghost use Rattle.io.specs.Counts.{IsPrefixLen};
ghost use Rattle.buffers.specs.Write.{Writes};
ghost use Rattle.transcript_print.specs.Text.{replay_text};

use std::env::FillError;
use std::rt::Env;

// Standard input and output.
const STDIN: i32 = 0;

const STDOUT: i32 = 1;

// What the program prints of a file and calls, at the front of out; how many bytes. Only reading and writing are outside of this.
fn answer(file: &[u8], kinds: &[u8], labels: &[u64], out: &mut [u8]) -> usize
    ensures writes { Writes out.old out.new result (replay_text file.now kinds.now labels.now) }
    ensures prefix_len { IsPrefixLen result out.new }
{
    transcript_print::replay_text(file, kinds, labels, out)
}

// The kinds and labels of the arguments, as far as there is room; how many. A letter, 19 digits and one byte more tell any argument: of a
// longer one nothing is read.
fn read_calls<R: Env>(rt: &R, kinds: &mut [u8], labels: &mut [u64]) -> usize
    requires { length labels.old ≤ length kinds.old }
    ensures prefix_len { IsPrefixLen result kinds.new }
    ensures prefix_len_2 { IsPrefixLen result labels.new }
{
    let mut text = [0u8; 21];
    for n in 0..labels.len() {
        let k = match rt.arg(n + 1, &mut text) {
            Ok(k) => k,
            Err(FillError::TooLong) => 0,
            Err(FillError::NotPresent) => return n,
        };
        kinds[n] = transcript_print::kind_of(&text[..k]);
        labels[n] = transcript_print::label_of(&text[..k]);
    }
    labels.len()
}

// One read of all, one write of all. One call more than 1,024 tells that there are too many.
fn main(rt: HostRuntime) {
    let mut file = io::large_buffer();
    let n = io::read_full(STDIN, &mut file);
    let mut kinds = [0u8; 1025];
    let mut labels = [0u64; 1025];
    let k = read_calls(&rt, &mut kinds, &mut labels);
    let mut out = [0u8; 131072];
    let m = answer(&file[..n], &kinds[..k], &labels[..k], &mut out);
    io::write_all(STDOUT, &out[..m]);
}
